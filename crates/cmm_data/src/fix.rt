//! Places in data that wait for the address of a procedure, and how they get it.

ghost use Rattle.std.specs.Prelude.{◌≡◌, ◌+◌, ◌≤◌, length};
ghost use Rattle.cmm_data.specs.Filling.{fix_value, with_value};

/// Eight bytes of data that wait for the address of a procedure.
#[derive(Clone, Copy)]
pub struct Fix {
    /// Where the bytes begin, counted from the first byte of data.
    pub place: u32,
    /// The number of the procedure.
    pub procedure: u32,
    /// How many bytes past the procedure's address the value is, modulo 2^64.
    pub plus: u64,
}

/// Gives a fix its value, where its procedure's code has this address: into the eight bytes at its place, the lowest first.
pub fn fill(bytes: &mut Vec<u8>, fix: Fix, code: u64)
    requires { fix.place + 8 ≤ length bytes.old.items }
    ensures { bytes.new.items ≡ with_value (fix_value code fix) fix.place bytes.old.items }
{
    let place = fix.place as usize;
    let value = code.wrapping_add(fix.plus);
    bytes[place..place + 8].copy_from_slice(&value.to_le_bytes());
}
