//! The records of procedures in version 2, which hold their sites.

ghost use Rattle.std.specs.Prelude.{◌≡◌, map, IfOk};
ghost use Rattle.cmm_format.specs.Reading.{Sees};
ghost use Rattle.cmm_image.specs.ImageFormat.{procedure_with};
ghost use Rattle.cmm_image.specs.SecondFormat.{placed_variable, row_places};
ghost use Rattle.cmm_image.specs.inside.Wholes.{fields_seen};

use crate::bounds::Bounds;
use crate::procedure::{code_address, continuations, frame_size, return_offset, variables};
use crate::rows::{
    ContinuationRow, ProcRow, SavedRegister, SiteRow, StackLabelRow, VariablePlace, VariableRow,
};
use cmm_format::{Read, Reader, Unread, read_rows8, read_rows16};
use cmm_items::Items;
use cmm_rules::Rule;
use cmm_words::Name;
use std::alloc::{AllocError, Global};

/// A variable with its place, which is the same at each site where it is live.
#[derive(Drop)]
pub(crate) struct PlacedVariable {
    pub(crate) row: VariableRow,
    /// Its place; dead where it is live at no site.
    pub(crate) place: VariablePlace,
}

impl Read<Bounds> for PlacedVariable {
    ghost at = { λ bounds previous. (placed_variable bounds.frame previous).at };

    fn read(
        reader: &mut Reader<'_>,
        bounds: &Bounds,
        _previous: Option<&PlacedVariable>,
    ) -> Result<PlacedVariable, Unread> {
        let row = VariableRow::read(reader, bounds, None)?;
        let place = VariablePlace::read(reader, bounds, None)?;
        Ok(PlacedVariable { row, place })
    }
}

/// A procedure with its sites.
#[derive(Drop)]
pub(crate) struct ProcedureRecord {
    pub(crate) row: ProcRow,
    /// The place of each of its variables.
    pub(crate) places: Items<VariablePlace>,
    /// Its sites, in the order of their return addresses.
    pub(crate) sites: Items<SiteRow>,
}

/// The fields of a procedure's record up to its sites.
#[derive(Drop)]
pub(crate) struct PlacedProcedure {
    pub(crate) code: u64,
    pub(crate) name: Name,
    pub(crate) frame: u32,
    pub(crate) return_at: Option<u32>,
    pub(crate) saved: Items<SavedRegister>,
    pub(crate) variables: Items<PlacedVariable>,
    pub(crate) stack_labels: Items<StackLabelRow>,
    pub(crate) continuations: Items<ContinuationRow>,
}

/// The fields of a procedure's record up to its sites, behind the procedure whose code has the address `before`, if there is one.
pub(crate) fn placed_procedure(
    reader: &mut Reader<'_>,
    bounds: &Bounds,
    before: Option<u64>,
) -> Result<PlacedProcedure, Unread>
    ensures { Sees fields_seen result ((procedure_with placed_variable bounds.now.code_length before).at reader.old.rest.now) reader.new.rest.now }
{
    let code = code_address(reader, bounds, before)?;
    let name = reader.name(Rule::ImageIsCut)?;
    let frame = frame_size(reader)?;
    let return_at = return_offset(reader, frame)?;
    let bounds = Bounds { frame, ..*bounds };
    let saved = read_rows8(reader, Rule::ImageIsCut, &bounds)?;
    let variables = variables(reader, &bounds)?;
    let stack_labels = read_rows16(reader, Rule::ImageIsCut, &bounds)?;
    let continuations = continuations(reader, &bounds, &variables)?;
    Ok(PlacedProcedure {
        code,
        name,
        frame,
        return_at,
        saved,
        variables,
        stack_labels,
        continuations,
    })
}

/// Variables, and apart from them their places.
pub(crate) fn rows_and_places(
    alloc: Global,
    variables: Items<PlacedVariable>,
) -> Result<(Items<VariableRow>, Items<VariablePlace>), AllocError>
    ensures { IfOk result (λ both. both ≡ (map (λ v. v.row) variables, row_places variables)) }
{
    let mut rows = Vec::new(alloc);
    let mut places = Vec::new(alloc);
    for variable in variables.into_vec() {
        let PlacedVariable { row, place } = variable;
        rows.push(row)?;
        places.push(place)?;
    }
    Ok((Items::from_vec(rows), Items::from_vec(places)))
}
