//! Requests: the system calls of the target.
ghost use Rattle.std.specs.Prelude.{◌≡◌};
ghost use Rattle.rv_table.specs.Registers.{registers_of};
ghost use Rattle.rv_table.specs.Requests.{request_number, request_of};

use crate::registers::Regs;

/// The register that has the number of a request at its ECALL.
pub const REQUEST_NUMBER: u8 = 5;

/// The register of the value that goes with a request, and of what comes of one.
pub const REQUEST_VALUE: u8 = 10;

/// What an ECALL asks for. Its number stands in register `REQUEST_NUMBER`, and a value that goes with it in register `REQUEST_VALUE`.
#[derive(Clone, Copy, Debug, PartialEq, Eq)]
pub enum Request {
    /// 1: to write this byte, the low eight bits of the value.
    PutByte(u8),
    /// 2: to read a byte into register `REQUEST_VALUE`.
    GetByte,
    /// 3: to yield to the client.
    Yield,
    /// 4: to end the run, since the stack would pass its limit.
    StackLimit,
    /// 5: to end the run with this value as its result.
    End(u64),
}

impl Request {
    /// The number that asks for this.
    pub fn number(self) -> u64
        ensures { result ≡ request_number self }
    {
        match self {
            Request::PutByte(_) => 1,
            Request::GetByte => 2,
            Request::Yield => 3,
            Request::StackLimit => 4,
            Request::End(_) => 5,
        }
    }

    /// What an ECALL asks for at these registers; none where the number in register `REQUEST_NUMBER` means nothing.
    pub fn asked_by(r: &Regs) -> Option<Request>
        ensures { result ≡ request_of (registers_of r.now) }
    {
        match r.read(REQUEST_NUMBER) {
            1 => Some(Request::PutByte((r.read(REQUEST_VALUE) % 256) as u8)),
            2 => Some(Request::GetByte),
            3 => Some(Request::Yield),
            4 => Some(Request::StackLimit),
            5 => Some(Request::End(r.read(REQUEST_VALUE))),
            _ => None,
        }
    }
}
