//! The registers by their roles.

ghost use Rattle.std.specs.Prelude.{◌≡◌};
ghost use Rattle.cmm_abi.specs.Registers.{is_callee_saves as is_saved};

/// Always 0.
pub const ZERO: u8 = 0;

/// The return address.
pub const RETURN_ADDRESS: u8 = 1;

/// The address of the youngest frame: the stack pointer.
pub const FRAME: u8 = rv_table::FRAME;

/// The address of the region of argument area, global registers and stack.
pub const REGION: u8 = rv_table::REGION;

/// The first of the three scratch registers, which nothing keeps between two nodes: the first operand and the result.
pub const FIRST_SCRATCH: u8 = 5;

/// The second scratch register: what helps within a piece of code, and what a far jump goes through.
pub const HELPER: u8 = 6;

/// The third scratch register: the second operand, and an address that waits while values move.
pub const SECOND_SCRATCH: u8 = 7;

/// What has the number of a request at its ECALL.
pub const REQUEST_NUMBER: u8 = rv_table::REQUEST_NUMBER;

/// The value that goes with a request, and what comes of one.
pub const REQUEST_VALUE: u8 = rv_table::REQUEST_VALUE;

/// The first value of a call, a return, a cut or a yield. The next ones follow it.
pub const FIRST_VALUE: u8 = 10;

/// The registers s1 to s11, which a procedure gives back as it got them, in ascending order.
pub const CALLEE_SAVES: [u8; 11] = [9, 18, 19, 20, 21, 22, 23, 24, 25, 26, 27];

/// Whether a register is one of `CALLEE_SAVES`.
pub fn is_callee_saves(register: u8) -> bool
    ensures { result ≡ is_saved register }
{
    register == 9 || (18 <= register && register <= 27)
}
