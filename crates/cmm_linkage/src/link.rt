//! The names under which units import and export.

ghost use Rattle.std.specs.Prelude.{◌≡◌};
ghost use Rattle.cmm_static_semantics.specs.Declarations.{link_name};
ghost use Rattle.cmm_static_semantics.specs.Linking.{export_link};

use cmm_ast::{Export, Ident, Import, Text};

/// A text in place of a name, where there is one.
fn link_name<'a>(text: &'a Option<Text>, name: &'a Ident) -> &'a [u8]
    ensures { result.now ≡ link_name text.now name.now }
{
    match text {
        Some(text) => text.bytes.as_slice(),
        None => name.name.as_bytes(),
    }
}

/// The name under which a unit exports what is imported.
pub fn import_link(import: &Import) -> &[u8]
    ensures { result.now ≡ link_name import.now.link import.now.name }
{
    link_name(&import.link, &import.name)
}

/// The name under which something is exported.
pub fn export_link(export: &Export) -> &[u8]
    ensures { result.now ≡ export_link export.now }
{
    link_name(&export.link, &export.name)
}
