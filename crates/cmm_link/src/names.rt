//! Names that are copied, and their bytes.

ghost use Rattle.std.specs.Prelude.{◌≡◌, IfOk};
ghost use Rattle.cmm_format.specs.Formats.{AreBytes};

use cmm_words::Name;
use std::alloc::AllocError;

/// The elements of a slice of bytes are bytes.
pub(crate) fn know_bytes(bytes: &[u8])
    ensures { AreBytes bytes.now }
{}

/// The same name.
pub(crate) fn copy(name: &Name) -> Result<Name, AllocError>
    ensures same { IfOk result (λ made. made ≡ name.now) }
    ensures bytes { IfOk result AreBytes }
{
    know_bytes(name.as_bytes());
    name.clone()
}
