//! Names of the host.

ghost use Rattle.std.specs.Prelude.{◌≡◌};
ghost use Rattle.cmm_static_semantics.specs.Senses.{host_named, is_host};

use cmm_static_semantics::Host;

/// The procedure of the host that these bytes name, if any.
pub fn host_named(name: &[u8]) -> Option<Host>
    ensures { result ≡ host_named name.now }
{
    if name == b"yield".as_slice() {
        Some(Host::Yield)
    } else if name == b"cmm_putbyte".as_slice() {
        Some(Host::PutByte)
    } else if name == b"cmm_getbyte".as_slice() {
        Some(Host::GetByte)
    } else {
        None
    }
}

/// Whether these are the bytes of a name of the host.
pub fn is_host(name: &[u8]) -> bool
    ensures { result ≡ is_host name.now }
{
    match host_named(name) {
        Some(_) => true,
        None => false,
    }
}
