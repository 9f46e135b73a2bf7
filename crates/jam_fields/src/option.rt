// Values that may be absent.
ghost use Rattle.std.specs.Prelude.{◌≡◌, ◌++◌, OnOk, OnErr};
ghost use Rattle.std.specs.Io.{StartsWith};
ghost use Rattle.jam_codec.specs.Lists.{option_of};
ghost use Rattle.jam_codec.specs.FormatLaws.{option_laws};
ghost use Rattle.jam_codec.specs.Reading.{Reads};
ghost use Rattle.jam_codec.specs.Refusal.{place_of};

use crate::field::{Field, Spell};
use jam_codec::{Cursor, FileRefusal, push_fixed};
use std::alloc::{AllocError, Global};

impl<T: Field> Field for Option<T> {
    ghost format = { option_of T.format };

    fn read(alloc: Global, cursor: &mut Cursor<'_>) -> Result<Option<T>, FileRefusal> {
        let mut ahead = cursor.ahead();
        let value = if ahead.option_tag()? {
            Some(T::read(alloc, &mut ahead)?)
        } else {
            None
        };
        *cursor = ahead;
        Ok(value)
    }

    ghost is_format = { option_laws T.format T.is_format };
}

impl<T: Spell> Spell for Option<T> {
    fn write(&self, out: &mut Vec<u8>) -> Result<(), AllocError> {
        match self {
            None => push_fixed(out, 1, 0),
            Some(value) => {
                push_fixed(out, 1, 1)?;
                value.write(out)
            }
        }
    }
}
