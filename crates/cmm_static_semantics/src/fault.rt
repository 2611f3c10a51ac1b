//! The fault that is named of units.

use cmm_rules::Rule;

/// A static rule that units break, and where.
#[derive(Clone, Copy, Debug)]
pub struct Fault {
    pub rule: Rule,
    /// The number of the unit, from 0.
    pub unit: u32,
    /// The line of the place, from 1.
    pub line: u32,
    /// The column of the place, in bytes from 1.
    pub column: u32,
}
