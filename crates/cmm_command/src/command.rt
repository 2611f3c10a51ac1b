//! What a user asks for.

use cmm_items::Items;

/// How many steps a run makes at most where it is not said.
pub const USUAL_STEPS: u64 = 1_000_000_000;

/// The size of the stack, in bytes, where it is not said.
pub const USUAL_STACK: u64 = 1 << 20;

/// How far a run may go.
#[derive(Clone, Copy, Debug)]
pub struct RunLimits {
    /// How many steps a run makes at most.
    pub steps: u64,
    /// The size of the stack, in bytes: a multiple of 16.
    pub stack: u64,
}

/// What a user asks for. Files are named by at most 4,095 bytes.
#[derive(Debug, Drop)]
pub enum Command<'a> {
    /// To compile units to an image.
    Build {
        /// The files of the units, one at least.
        units: Items<&'a str>,
        /// The file that is written.
        image: &'a str,
    },
    /// To run an image.
    Run {
        /// The file of the image.
        image: &'a str,
        /// The file of the client's script.
        client: Option<&'a str>,
        /// How far the run may go.
        limits: RunLimits,
        /// The file to which a stopped program is saved.
        save: Option<&'a str>,
    },
    /// To compile units and run them.
    Exec {
        /// The files of the units, one at least.
        units: Items<&'a str>,
        /// The file of the client's script.
        client: Option<&'a str>,
        /// How far the run may go.
        limits: RunLimits,
    },
    /// To walk the activations of a saved program.
    Walk {
        /// The file of the image.
        image: &'a str,
        /// The file to which the program was saved.
        snapshot: &'a str,
    },
    /// To write the program of a number.
    Generate {
        /// Which program: a number of nine digits at most.
        number: u64,
    },
    /// To write the ELF file of an image.
    Elf {
        /// The file of the image.
        image: &'a str,
        /// The file that is written.
        file: &'a str,
    },
    /// To write the bytes of version 2 of an image of version 1.
    Migrate {
        /// The file of the image.
        image: &'a str,
        /// The file that is written.
        file: &'a str,
    },
    /// To tell the segments of an ELF file.
    Segments {
        /// The ELF file.
        file: &'a str,
    },
}
