//! The traps that stop a run.
ghost use Rattle.std.specs.Prelude.{◌≡◌};
ghost use Rattle.rv_table.specs.Traps.{trap_number};

/// Why an instruction stops the run.
#[derive(Clone, Copy, Debug, PartialEq, Eq)]
pub enum TrapKind {
    /// A word that is no instruction.
    NoInstruction,
    /// A jump or a taken branch to an address that is no multiple of 4, or a fetch outside the code.
    BadTarget,
    /// A load outside data and region, or at an address that is no multiple of its size.
    BadLoad,
    /// Such a store.
    BadStore,
    /// EBREAK.
    Breakpoint,
    /// An ECALL whose number means nothing.
    NoRequest,
}

impl TrapKind {
    /// The number of the kind, from 1 to 6 in the order above.
    pub fn number(self) -> u8
        ensures { result ≡ trap_number self }
    {
        match self {
            TrapKind::NoInstruction => 1,
            TrapKind::BadTarget => 2,
            TrapKind::BadLoad => 3,
            TrapKind::BadStore => 4,
            TrapKind::Breakpoint => 5,
            TrapKind::NoRequest => 6,
        }
    }
}

/// Why a run stopped at an instruction, and that instruction's address.
#[derive(Clone, Copy, Debug, PartialEq, Eq)]
pub struct Trap {
    pub kind: TrapKind,
    /// The address of the instruction that trapped.
    pub pc: u64,
}
