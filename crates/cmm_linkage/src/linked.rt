//! What stands under link names, and numbers of registers.

ghost use Rattle.std.specs.Prelude.{◌≡◌};
ghost use Rattle.cmm_static_semantics.specs.Linking.{Program, imported, register_number};
ghost use Rattle.cmm_typing.specs.Fitting.{FitsSense};

use cmm_static_semantics::Sense;
use cmm_words::Name;

/// What units know of each other, which contracts see as the definition's record.
pub trait Linked {
    ghost program: { Self → Program };

    /// What is imported under a link name: a procedure of the host, or the address of what is exported under it. Some address where
    /// nothing is.
    fn imported(&self, link: &[u8]) -> Sense
        ensures value { result ≡ imported link.now (program self.now).exports }
        ensures fits { FitsSense (Some result) };

    /// The number of the register of a name, by which all units have it: 0 where there is none.
    fn register_number(&self, name: &Name) -> u32
        ensures { result ≡ register_number (program self.now) name.now };
}
