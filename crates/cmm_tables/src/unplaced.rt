//! The row of a site without addresses.

use cmm_image::{ContinuationNumber, VariablePlace};
use cmm_items::Items;
use cmm_words::{Constant, Width};

/// The row of a call site before code has addresses: continuations stand for their landings, and constants for the values of spans.
#[derive(Drop)]
pub struct UnplacedSite {
    /// The procedure that it is in, by its place in the program.
    pub procedure: u32,
    /// Its number in its procedure.
    pub number: u32,
    /// Whether it has `never returns`.
    pub never_returns: bool,
    /// Whether it has `also aborts`.
    pub aborts: bool,
    /// How many values it yields, if it is a yield or a checked operator.
    pub yield_values: Option<u8>,
    /// The widths of its results.
    pub results: Items<Width>,
    /// The continuations of its alternate exits.
    pub returns: Items<ContinuationNumber>,
    /// The continuations of its unwind exits.
    pub unwinds: Items<ContinuationNumber>,
    /// The continuations of its cut exits.
    pub cuts: Items<ContinuationNumber>,
    /// Where each variable of its procedure is kept.
    pub variables: Items<VariablePlace>,
    /// The token and the value of each span round it, in ascending order of tokens.
    pub spans: Items<(u64, Constant)>,
}
