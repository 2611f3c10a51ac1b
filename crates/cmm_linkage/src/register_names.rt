//! The names of registers that units share, each once.

ghost use Rattle.std.specs.Prelude.{◌≡◌, ◌<◌, ◌^◌, [], ◌∷◌, bytes_eq, length, map, position, unwrap_or, OnOk};
ghost use Rattle.cmm_static_semantics.specs.Linking.{in_order};
ghost use Rattle.cmm_linkage.specs.inside.Linkages.{AreAdded, names_shown};

use crate::register::Register;
use indexmap::IndexSet;
use std::alloc::AllocError;

/// Adds a name, if it is not there.
fn add_name<'a>(name: &'a [u8], to: &mut IndexSet<&'a [u8]>) -> Result<(), AllocError>
    ensures names { OnOk result (AreAdded (name.now ∷ []) (names_shown to.old) (names_shown to.new)) }
    ensures fits { OnOk result (length to.new.keys < 2 ^ 32) }
{
    if to.len() >= u32::MAX as usize {
        return Err(AllocError);
    }
    to.insert_full(name)?;
    Ok(())
}

/// Adds the names of the registers of a unit that are not there.
pub(crate) fn add_names<'a>(
    registers: &[Register<'a>],
    to: &mut IndexSet<&'a [u8]>,
) -> Result<(), AllocError>
    requires { length to.old.keys < 2 ^ 32 }
    ensures names { OnOk result (AreAdded (map (λ r. r.name.now.name) registers.now) (names_shown to.old) (names_shown to.new)) }
    ensures fits { OnOk result (length to.new.keys < 2 ^ 32) }
{
    for register in registers {
        add_name(register.name.name.as_bytes(), to)?;
    }
    Ok(())
}

/// Puts names in ascending order by bytes.
pub(crate) fn put_in_order<'a>(names: &mut IndexSet<&'a [u8]>) -> Result<(), AllocError>
    ensures names { OnOk result (names_shown names.new ≡ in_order (names_shown names.old)) }
    ensures count { length names.new.keys ≡ length names.old.keys }
{
    names.sort()?;
    Ok(())
}

/// The number of a name, by where it stands: 0 where it is not there.
pub(crate) fn number_of<'a>(names: &IndexSet<&'a [u8]>, name: &[u8]) -> u32
    requires { length names.now.keys < 2 ^ 32 }
    ensures { result ≡ unwrap_or (position (bytes_eq name.now) (names_shown names.now)) 0 }
{
    match names.get_index_of(name) {
        Some(number) => number as u32,
        None => 0,
    }
}
