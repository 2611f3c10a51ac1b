//! The two kinds of segment.

ghost use Rattle.std.specs.Prelude.{◌≡◌, ◌≤◌};
ghost use Rattle.cmm_elf.specs.ElfFormat.{address_of, data_offset as offset_of_data, flags_of, is_length_of};

use rv_table::memory_map::{CODE_BASE, CODE_LENGTH_LIMIT, DATA_BASE, DATA_LENGTH_LIMIT};

/// Where the code begins in a file.
pub(crate) const CODE_OFFSET: u64 = 4_096;

/// How many bytes of padding stand between the headers and the code.
pub(crate) const HEADER_PADDING: usize = 3_920;

/// What the offset and the address of a segment are multiples of, in bytes.
pub(crate) const ALIGNMENT: u64 = 4_096;

/// A kind of segment.
#[derive(Clone, Copy)]
pub(crate) enum SegmentKind {
    /// Code, which is read and executed.
    Code,
    /// Data, which is read and written.
    Data,
}

impl SegmentKind {
    /// What may be done with its bytes: 4 to read them, 2 to write them, 1 to execute them.
    pub(crate) fn flags(self) -> u32
        ensures { result ≡ flags_of self }
    {
        match self {
            SegmentKind::Code => 5,
            SegmentKind::Data => 6,
        }
    }

    /// The address of its first byte.
    pub(crate) fn address(self) -> u64
        ensures { result ≡ address_of self }
    {
        match self {
            SegmentKind::Code => CODE_BASE,
            SegmentKind::Data => DATA_BASE,
        }
    }

    /// Whether it may have this length, in bytes.
    pub(crate) fn may_have(self, length: u64) -> bool
        ensures { result ≡ is_length_of self length }
    {
        match self {
            SegmentKind::Code => 4 <= length && length <= CODE_LENGTH_LIMIT && length % 4 == 0,
            SegmentKind::Data => length <= DATA_LENGTH_LIMIT,
        }
    }
}

/// Where the data begins in a file with code of this length, in bytes.
pub(crate) fn data_offset(code_length: u64) -> u64
    requires { code_length ≤ CODE_LENGTH_LIMIT }
    ensures { result ≡ offset_of_data code_length }
{
    (CODE_OFFSET + code_length).next_multiple_of(ALIGNMENT)
}
