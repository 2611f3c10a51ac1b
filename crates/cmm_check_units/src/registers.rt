//! Global registers: those of one name are one register, of one width in all units.
#![tactic(auto, using(cmm_static_semantics::proofs::Shared::first_of_append))]

ghost use Rattle.std.specs.Prelude.{◌≡◌, ◌++◌, List, map, flat_map, Option, OnOk};
ghost use Rattle.cmm_words.specs.declared.width.Width.{Width};
ghost use Rattle.cmm_static_semantics.specs.Declarations.{Declared};
ghost use Rattle.cmm_static_semantics.specs.Judging.{if_ok};
ghost use Rattle.cmm_static_semantics.specs.Spots.{first_of};
ghost use Rattle.cmm_static_semantics.specs.Typing.{type_width};
ghost use Rattle.cmm_check_units.specs.inside.Flat.{register_spots_by, widths_by};
ghost use Rattle.cmm_check_units.specs.inside.Linked.{AreFound};
ghost use Rattle.cmm_linkage.specs.Registers.{register_shown};
ghost use Rattle.cmm_unit_scope.specs.Types.{senses_of};

use cmm_linkage::Register;
use cmm_static_semantics::Spot;
use cmm_symbols::Index;
use cmm_typing::{note_width, width_of};
use cmm_unit_scope::Types;
use cmm_words::Width;
use std::alloc::AllocError;

/// A register has the width of the first one of its name in earlier units: else rule 23.
fn note_register<'a>(
    types: &Types<'_, 'a>,
    register: Register<'a>,
    earlier: &Index<'_, Option<Width>>,
    best: &mut Option<Spot>,
)
    ensures { (before : List (Declared (Option Width))) → AreFound earlier.now before →
        best.new ≡ first_of best.old (register_spots_by before (λ t. if_ok (type_width (senses_of types.now) t)) (register_shown register.entry)) }
{
    match earlier.get(register.name.name.as_bytes()) {
        Some(first) => match first {
            Some(width) => note_width(
                width.bits(),
                register.of_type.token,
                width_of(types, register.of_type),
                best,
            ),
            None => {}
        },
        None => {}
    }
}

/// Notes registers of another width than in earlier units: rule 23.
pub(crate) fn note_registers<'a>(
    types: &Types<'_, 'a>,
    registers: &[Register<'a>],
    earlier: &Index<'_, Option<Width>>,
    best: &mut Option<Spot>,
)
    ensures { (before : List (Declared (Option Width))) → AreFound earlier.now before →
        best.new ≡ first_of best.old (flat_map (register_spots_by before (λ t. if_ok (type_width (senses_of types.now) t))) (map register_shown registers.now)) }
{
    for register in registers {
        note_register(types, *register, earlier, best);
    }
}

/// Adds the registers of a unit, with their widths, to those of earlier units.
pub(crate) fn add_registers<'a>(
    types: &Types<'_, 'a>,
    registers: &[Register<'a>],
    earlier: &mut Index<'a, Option<Width>>,
) -> Result<(), AllocError>
    ensures { OnOk result ((before : List (Declared (Option Width))) → AreFound earlier.old before →
        AreFound earlier.new (before ++ widths_by (λ t. if_ok (type_width (senses_of types.now) t)) (map register_shown registers.now))) }
{
    for register in registers {
        let width = width_of(types, register.of_type);
        earlier.add(register.name.name.as_bytes(), width)?;
    }
    Ok(())
}
