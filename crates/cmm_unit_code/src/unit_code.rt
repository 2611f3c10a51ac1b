//! The code of units.

use cmm_items::Items;
use rv_asm::CodeFix;

/// What code names and has no number for before units are joined. Each is meant by its number in the program.
#[derive(Clone, Copy)]
pub enum Reference {
    /// A global register, which stands for the offset of its word in the region, in bytes.
    Register(u32),
    /// A data label, which stands for its address.
    Label(u32),
    /// A procedure, which stands for the address of its code. It is reached from where the code stands that names it.
    Procedure(u32),
}

/// The code of a unit, which may stand anywhere: places in it are counted in bytes from its beginning.
#[derive(Drop)]
pub struct UnitCode {
    /// Its bytes, in which the numbers of symbols are 0.
    pub code: Items<u8>,
    /// What it names that is not in it: a symbol is a place in this list.
    pub references: Items<Reference>,
    /// Where the numbers of symbols are to be filled in.
    pub fixes: Items<CodeFix>,
    /// Where the code of each of its procedures begins.
    pub procedures: Items<u64>,
    /// Of each of its procedures, where a cut to each of its continuations lands.
    pub landings: Items<Items<u64>>,
    /// Of each of its procedures, where control comes back to each of its sites.
    pub sites: Items<Items<u64>>,
}

/// The code of a program before it is joined.
#[derive(Drop)]
pub struct ProgramCode {
    /// That with which a run begins, and then that of each unit.
    pub units: Items<UnitCode>,
    /// Where the call of `main` comes back, in bytes from the beginning.
    pub last: u64,
}
