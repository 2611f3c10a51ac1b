//! The bytes of data, once each address of a procedure is in them.

ghost use Rattle.std.specs.Prelude.{◌≡◌, slice_index, length};
ghost use Rattle.cmm_data.specs.Filling.{AreApart, filled};
ghost use Rattle.cmm_format.specs.Formats.{AreBytes};

use crate::names::know_bytes;
use cmm_data::{DataImage, Fix, fill};
use cmm_items::Items;

/// The address that stands at a number; 0 for a number at which none stands.
pub(crate) fn address_of(addresses: &[u64], number: u32) -> u64
    ensures { result ≡ slice_index addresses.now number }
{
    match addresses.get(number as usize) {
        Some(address) => *address,
        None => 0,
    }
}

/// Fills each of some fixes, which have bytes of their own.
fn fill_all(bytes: &mut Vec<u8>, fixes: &[Fix], codes: &[u64])
    requires { AreApart 0 fixes.now (length bytes.old.items) }
    ensures bytes { bytes.new.items ≡ filled (λ q. slice_index codes.now q) fixes.now bytes.old.items }
    ensures length { length bytes.new.items ≡ length bytes.old.items }
{
    cmm_data::laws::fixes_in_turn();
    for fix in fixes {
        fill(bytes, *fix, address_of(codes, fix.procedure));
    }
}

/// The bytes of data, where the code of each procedure has this address.
pub(crate) fn filled_data(laid: DataImage, codes: &[u64]) -> Items<u8>
    requires { AreApart 0 laid.fixes (length laid.bytes) }
    ensures filled { result ≡ filled (λ q. slice_index codes.now q) laid.fixes laid.bytes }
    ensures length { length result ≡ length laid.bytes }
    ensures bytes { AreBytes result }
{
    let DataImage { bytes, fixes, .. } = laid;
    let mut bytes = bytes.into_vec();
    fill_all(&mut bytes, fixes.as_slice(), codes);
    know_bytes(bytes.as_slice());
    Items::from_vec(bytes)
}
