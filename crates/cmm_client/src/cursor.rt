//! The client's cursor.
ghost use Rattle.std.specs.Prelude.{◌≡◌};
ghost use Rattle.cmm_client.specs.inside.Replies.{standing_at};

use cmm_resume::Refusal;
use cmm_rules::Rule;
use cmm_walk::Activation;

/// What a client looks at.
#[derive(Clone, Copy)]
pub struct Cursor {
    /// The activation at which it stands, if there is one.
    pub activation: Option<Activation>,
}

/// The activation at the cursor. It is refused where there is none.
pub(crate) fn activation_at(cursor: Cursor) -> Result<Activation, Refusal>
    ensures { result ≡ standing_at cursor }
{
    cursor.activation.ok_or(Refusal::ByRule(Rule::NoActivation))
}
