//! What the numbers of a record are measured by.

ghost use Rattle.std.specs.Prelude.{◌≡◌};
ghost use Rattle.cmm_image.specs.ImageFormat.{has_sites, may_have_sites, is_in_code, is_in_data, procedure_at};
ghost use Rattle.cmm_image.specs.inside.Wholes.{bounds_in};

use crate::rows::ProcRow;
use cmm_items::Items;
use rv_table::memory_map::{CODE_BASE, DATA_BASE};

/// What the numbers of a record are measured by.
#[derive(Clone, Copy)]
pub(crate) struct Bounds {
    /// In bytes.
    pub(crate) code_length: u64,
    /// In bytes.
    pub(crate) data_length: u64,
    /// The size of the frame of the procedure that the record is of.
    pub(crate) frame: u32,
    /// How many variables that procedure has.
    pub(crate) variables: usize,
    /// How many continuations it has.
    pub(crate) continuations: usize,
}

impl Bounds {
    /// Whether an address is that of an instruction of the code.
    pub(crate) fn is_in_code(&self, address: u64) -> bool
        ensures { result ≡ is_in_code self.now.code_length address }
    {
        is_code_address(self.code_length, address)
    }

    /// Whether an address lies in the data or is its end.
    pub(crate) fn is_in_data(&self, address: u64) -> bool
        ensures { result ≡ is_in_data self.now.data_length address }
    {
        DATA_BASE <= address && address - DATA_BASE <= self.data_length
    }
}

/// Whether an address is that of an instruction of code of this length, in bytes.
pub(crate) fn is_code_address(length: u64, address: u64) -> bool
    ensures { result ≡ is_in_code length address }
{
    CODE_BASE <= address && address - CODE_BASE < length && address % 4 == 0
}

/// Whether a procedure with this frame may have sites: 16 bytes of it, and the return address is saved.
pub(crate) fn can_have_sites(frame: u32, return_at: Option<u32>) -> bool
    ensures { result ≡ may_have_sites frame return_at }
{
    16 <= frame && return_at.is_some()
}

/// The procedures of an image, which its sites name.
#[derive(Drop)]
pub(crate) struct Procedures {
    pub(crate) bounds: Bounds,
    pub(crate) rows: Items<ProcRow>,
}

impl Procedures {
    /// Whether the procedure of this number is there and may have sites.
    pub(crate) fn has_sites(&self, number: u32) -> bool
        ensures { result ≡ has_sites self.now.rows number }
    {
        match self.rows.get(number as usize) {
            None => false,
            Some(row) => can_have_sites(row.frame, row.return_at),
        }
    }

    /// What the numbers of a site of this procedure are measured by.
    pub(crate) fn of(&self, number: u32) -> Bounds
        ensures { result ≡ bounds_in self.now.bounds (procedure_at self.now.rows number) }
    {
        match self.rows.get(number as usize) {
            None => Bounds {
                frame: 0,
                variables: 0,
                continuations: 0,
                ..self.bounds
            },
            Some(row) => Bounds {
                frame: row.frame,
                variables: row.variables.len(),
                continuations: row.continuations.len(),
                ..self.bounds
            },
        }
    }
}
