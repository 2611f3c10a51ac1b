//! Where everything lies in memory at run time. Addresses, offsets and sizes are in bytes.

/// The address of the code's first byte.
pub const CODE_BASE: u64 = 0x1_0000;

/// The most bytes that code may have. They end where the data begins.
pub const CODE_LENGTH_LIMIT: u64 = DATA_BASE - CODE_BASE;

/// The address of the data's first byte.
pub const DATA_BASE: u64 = 0x4000_0000;

/// The most bytes that data may have: 64 MiB.
pub const DATA_LENGTH_LIMIT: u64 = 0x400_0000;

/// The address of the first region of argument area, global registers and stack, which lie in a region in this order. Register `REGION` has
/// the address of the region in which code runs.
pub const REGION_BASE: u64 = 0x6000_0000;

/// How many words of eight bytes the argument area has. It begins at its region's address.
pub const ARGUMENT_WORDS: u64 = 56;

/// How far behind a region's address its global registers begin, a word each: right after the argument area.
pub const GLOBALS_OFFSET: u64 = 8 * ARGUMENT_WORDS;

/// The most global registers that there may be.
pub const GLOBAL_COUNT_LIMIT: u64 = 256;

/// How many bytes of a region lie below its stack.
pub const BELOW_STACK: u64 = 0x1000;

/// The lowest address of the first region's stack.
pub const STACK_BASE: u64 = REGION_BASE + BELOW_STACK;

/// The most bytes that a stack may have: 256 MiB.
pub const STACK_SIZE_LIMIT: u64 = 0x1000_0000;

// the data ends before the first region, the global registers before the stack, and the first stack within the addresses of 31 bits
const _: () = prove!(DATA_BASE + DATA_LENGTH_LIMIT <= REGION_BASE);

const _: () = prove!(GLOBALS_OFFSET + 8 * GLOBAL_COUNT_LIMIT <= BELOW_STACK);

const _: () = prove!(STACK_BASE + STACK_SIZE_LIMIT <= 0x7fff_0000);
