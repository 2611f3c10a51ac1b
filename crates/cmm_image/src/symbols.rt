//! The records of exported data labels and of global registers.

ghost use Rattle.std.specs.Prelude.{◌≡◌, option_copied};
ghost use Rattle.std.specs.Option.{option_map};
ghost use Rattle.cmm_image.specs.ImageFormat.{label, global, is_after};

use crate::bounds::Bounds;
use crate::rows::{GlobalRow, LabelRow};
use crate::widths::read_width;
use cmm_format::{Read, Reader, Unread, require};
use cmm_rules::Rule;
use cmm_words::Name;

impl Read<Bounds> for LabelRow {
    ghost at = { λ bounds previous. (label bounds.data_length previous).at };

    fn read(
        reader: &mut Reader<'_>,
        bounds: &Bounds,
        previous: Option<&LabelRow>,
    ) -> Result<LabelRow, Unread> {
        let field = reader.left();
        let name = reader.name(Rule::ImageIsCut)?;
        require(is_label_after(previous, &name), Rule::BadImageField, field)?;
        let field = reader.left();
        let address = reader.u64(Rule::ImageIsCut)?;
        require(bounds.is_in_data(address), Rule::ImageOutOfRange, field)?;
        Ok(LabelRow { name, address })
    }
}

/// Whether a link name is after that of the label before, if there is one.
fn is_label_after(previous: Option<&LabelRow>, name: &Name) -> bool
    ensures { result ≡ is_after (option_map (λ l. l.name) (option_copied previous.entry)) name.now }
{
    match previous {
        None => true,
        Some(row) => row.name.cmp(name).is_lt(),
    }
}

impl Read<Bounds> for GlobalRow {
    ghost at = { λ bounds previous. (global previous).at };

    fn read(
        reader: &mut Reader<'_>,
        _bounds: &Bounds,
        previous: Option<&GlobalRow>,
    ) -> Result<GlobalRow, Unread> {
        let width = read_width(reader)?;
        let field = reader.left();
        let name = reader.name(Rule::ImageIsCut)?;
        require(is_global_after(previous, &name), Rule::BadImageField, field)?;
        Ok(GlobalRow { width, name })
    }
}

/// Whether a name is after that of the global register before, if there is one.
fn is_global_after(previous: Option<&GlobalRow>, name: &Name) -> bool
    ensures { result ≡ is_after (option_map (λ g. g.name) (option_copied previous.entry)) name.now }
{
    match previous {
        None => true,
        Some(row) => row.name.cmp(name).is_lt(),
    }
}
