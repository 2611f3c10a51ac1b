//! Units that break no static rule, with what the checks find out of them on the way.
//!
//! It stands between the pass that checks and the pass that lowers. Contracts see `Checked` as the trees of the units; of every value of it these are
//! accepted, and what it keeps is what the definitions of `cmm_static_semantics` say of them. So lowering looks nothing up again, and can't fail for a rule.
//!
//! - `unit`: `CheckedUnit`, one unit, laid flat, with what its names mean. `checked`: `Checked`, all of them, with what they know of each other.
#![tactic(auto)]

mod checked;
mod unit;

pub use checked::Checked;
pub use unit::CheckedUnit;
