//! Widths as they are read.

ghost use Rattle.cmm_format.specs.Reading.{Reads};
ghost use Rattle.cmm_image.specs.ImageFormat.{width};

use crate::bounds::Bounds;
use cmm_format::{Read, Reader, Unread, broken};
use cmm_rules::Rule;
use cmm_words::Width;

/// A width at the front of the bytes.
pub(crate) fn read_width(reader: &mut Reader<'_>) -> Result<Width, Unread>
    ensures { Reads result (width.at reader.old.rest.now) reader.new.rest.now }
{
    let field = reader.left();
    match reader.u8(Rule::ImageIsCut)? {
        8 => Ok(Width::W8),
        16 => Ok(Width::W16),
        32 => Ok(Width::W32),
        64 => Ok(Width::W64),
        _ => Err(broken(Rule::BadImageField, field)),
    }
}

impl Read<Bounds> for Width {
    ghost at = { λ bounds previous. width.at };

    fn read(
        reader: &mut Reader<'_>,
        _bounds: &Bounds,
        _previous: Option<&Width>,
    ) -> Result<Width, Unread> {
        read_width(reader)
    }
}
