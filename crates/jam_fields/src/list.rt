// Counted lists of fields.
ghost use Rattle.std.specs.Prelude.{◌≡◌, ◌++◌, OnOk, OnErr, IfOk, None, length, ◌≤◌};
ghost use Rattle.std.specs.Io.{StartsWith};
ghost use Rattle.jam_codec.specs.Format.{items_at, items_spelled, items_fit};
ghost use Rattle.jam_codec.specs.Lists.{list_of, up_to};
ghost use Rattle.jam_codec.specs.Reading.{Reads};
ghost use Rattle.jam_codec.specs.Refusal.{place_of};

use crate::field::{Field, Spell};
use crate::number::read_natural;
use jam_codec::{Cursor, FileRefusal, push_natural};
use std::alloc::{AllocError, Global};

fn read_items<T: Field>(
    alloc: Global,
    cursor: &mut Cursor<'_>,
    count: u64,
) -> Result<Vec<T>, FileRefusal>
    ensures exact { Reads place_of (λ items. items.items) result cursor.new (items_at (λ _. T.format) count None cursor.old) }
{
    let mut items = Vec::new(alloc);
    for _ in 0..count {
        items.push(T::read(alloc, cursor)?)?;
    }
    Ok(items)
}

/// A count up to a limit, and so many values. Room is made for each value as it is read.
///
/// # Errors
/// `Malformed` at the first field that does not spell; `NoMemory`. The cursor stays where it was
/// then.
pub fn read_list<T: Field>(
    alloc: Global,
    cursor: &mut Cursor<'_>,
    limit: u64,
) -> Result<Vec<T>, FileRefusal>
    ensures exact { Reads place_of (λ items. items.items) result cursor.new ((list_of (up_to limit) (λ _. T.format)).read cursor.old) }
    ensures within { IfOk result (λ items. length items.items ≤ limit) }
    ensures err { OnErr result (cursor.new ≡ cursor.old) }
{
    let mut ahead = cursor.ahead();
    let count = read_natural(&mut ahead, limit)?;
    let items = read_items(alloc, &mut ahead, count)?;
    *cursor = ahead;
    Ok(items)
}

/// Adds the values, with no count before them.
///
/// # Errors
/// Want of memory; then a part may stand behind the bytes that were there.
pub fn write_items<T: Spell>(items: &[T], out: &mut Vec<u8>) -> Result<(), AllocError>
    ensures ok { OnOk result (out.new.items ≡ out.old.items ++ items_spelled (λ _. T.format) None items.now) }
    ensures fits { OnOk result (items_fit (λ _. T.format) (length items.now) None items.now) }
    ensures kept { OnErr result (StartsWith out.new.items out.old.items) }
{
    for item in items {
        item.write(out)?;
    }
    Ok(())
}

/// Adds the count of the values, and the values.
///
/// # Errors
/// Want of memory; then a part may stand behind the bytes that were there.
pub fn write_list<T: Spell>(items: &[T], limit: u64, out: &mut Vec<u8>) -> Result<(), AllocError>
    requires { length items.now ≤ limit }
    ensures ok { OnOk result (out.new.items ≡ out.old.items ++ (list_of (up_to limit) (λ _. T.format)).spell items.now) }
    ensures fits { OnOk result ((list_of (up_to limit) (λ _. T.format)).Fits items.now) }
    ensures kept { OnErr result (StartsWith out.new.items out.old.items) }
{
    push_natural(out, items.len() as u64)?;
    write_items(items, out)
}
