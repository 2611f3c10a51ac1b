//! Why a change is refused.
ghost use Rattle.std.specs.Prelude.{◌≡◌};
ghost use Rattle.cmm_resume.specs.Answering.{refusal_number};

use cmm_rules::Rule;
use cmm_walk::Torn;

/// Why a change is refused. Nothing was changed.
#[derive(Clone, Copy)]
pub enum Refusal {
    /// This rule refuses it.
    ByRule(Rule),
    /// The chain of frames breaks here, before the activation that is looked for.
    Torn(Torn),
}

impl Refusal {
    /// The number of the rule; 0 where the chain of frames breaks.
    pub fn number(&self) -> u8
        ensures { result ≡ refusal_number self.now }
    {
        match self {
            Refusal::ByRule(rule) => rule.number(),
            Refusal::Torn(_) => 0,
        }
    }
}
