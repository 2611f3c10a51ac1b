//! Where the values of a call, a return, a cut or a yield travel: the first ones in registers, the others in words of the argument area.

/// How many values travel in registers, from `FIRST_VALUE` on.
pub const IN_REGISTERS: u32 = 8;
