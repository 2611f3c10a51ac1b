//! What a step ends in.
use rv_table::{Request, Trap};

/// What one instruction ends in. After every event but `Next`, registers, pc and memory are as they were before the instruction:
/// whoever answers a request moves pc on by 4.
#[derive(Clone, Copy, Debug, PartialEq, Eq)]
pub enum Event {
    /// The instruction is done, and pc is the address of the one that comes next.
    Next,
    /// An ECALL asks for this.
    Asks(Request),
    /// The instruction trapped.
    Trap(Trap),
}
