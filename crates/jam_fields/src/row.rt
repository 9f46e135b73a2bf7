// Rows: values whose format the one before them decides.
ghost use Rattle.std.specs.Prelude.{◌≡◌, ◌+◌, ◌<◌, ◌^◌, length, OnErr, Option, None};
ghost use Rattle.std.specs.Option.{option_copied, option_map};
ghost use Rattle.jam_codec.specs.Format.{Format, any, items_at};
ghost use Rattle.jam_codec.specs.Lists.{list_of, map_entry};
ghost use Rattle.jam_codec.specs.Laws.{IsFormat};
ghost use Rattle.jam_codec.specs.FormatLaws.{entry_laws};
ghost use Rattle.jam_codec.specs.Reading.{Reads};
ghost use Rattle.jam_codec.specs.Refusal.{place_of};

use crate::field::Field;
use jam_codec::{Cursor, FileRefusal};
use std::alloc::Global;

/// A value whose format the one before it decides, as that of a key that must stand above it.
pub trait Row: Drop {
    ghost after: { Option Self → Format Self };

    /// The value at the cursor, which stands after it then.
    ///
    /// # Errors
    /// `Malformed` at the first field that does not spell; `NoMemory`. The cursor stays where it
    /// was then.
    fn read_after(
        alloc: Global,
        cursor: &mut Cursor<'_>,
        last: Option<&Self>,
    ) -> Result<Self, FileRefusal>
        ensures exact { Reads place_of (λ x. x) result cursor.new ((after (option_copied last.entry)).read cursor.old) }
        ensures err { OnErr result (cursor.new ≡ cursor.old) };

    ghost is_format_after: { (last : Option Self) → IsFormat (after last) };
}

// An entry of a map: its key decides the format of the next key.
impl<K: Row, V: Field> Row for (K, V) {
    ghost after = { map_entry K.after V.format };

    fn read_after(
        alloc: Global,
        cursor: &mut Cursor<'_>,
        last: Option<&(K, V)>,
    ) -> Result<(K, V), FileRefusal> {
        let last_key = match last {
            None => None,
            Some((key, _)) => Some(key),
        };
        let mut ahead = cursor.ahead();
        let key = K::read_after(alloc, &mut ahead, last_key)?;
        let value = V::read(alloc, &mut ahead)?;
        *cursor = ahead;
        Ok((key, value))
    }

    ghost is_format_after = { entry_laws K.after V.format K.is_format_after V.is_format };
}

fn read_times<T: Row>(
    alloc: Global,
    cursor: &mut Cursor<'_>,
    count: u64,
) -> Result<Vec<T>, FileRefusal>
    ensures exact { Reads place_of (λ rows. rows.items) result cursor.new (items_at T.after count None cursor.old) }
{
    let mut rows = Vec::new(alloc);
    for _ in 0..count {
        let row = T::read_after(alloc, cursor, rows.last())?;
        rows.push(row)?;
    }
    Ok(rows)
}

/// A count, and so many rows. Room is made for each row as it is read. The bytes that were read and
/// those that are left are fewer than 2^64.
///
/// # Errors
/// `Malformed` at the first field that does not spell; `NoMemory`. The cursor stays where it was
/// then.
pub fn read_rows<T: Row>(alloc: Global, cursor: &mut Cursor<'_>) -> Result<Vec<T>, FileRefusal>
    ensures exact { Reads place_of (λ rows. rows.items) result cursor.new ((list_of any T.after).read cursor.old) }
    ensures bound { cursor.old.place + length cursor.old.rest < 2 ^ 64 }
    ensures err { OnErr result (cursor.new ≡ cursor.old) }
{
    let mut ahead = cursor.ahead();
    let count = ahead.natural()?;
    let rows = read_times(alloc, &mut ahead, count)?;
    *cursor = ahead;
    Ok(rows)
}
