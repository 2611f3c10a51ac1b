//! What names mean at a place.

ghost use Rattle.std.specs.Prelude.{◌≡◌};
ghost use Rattle.cmm_static_semantics.specs.Senses.{Senses};

use cmm_static_semantics::Sense;
use cmm_words::Name;

/// What names mean at a place, which contracts see as a function.
pub trait Names {
    ghost senses: { Self → Senses };

    /// What a name means, if anything.
    fn sense(&self, name: &Name) -> Option<Sense>
        ensures { result ≡ senses self.now name.now };
}
