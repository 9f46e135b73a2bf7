// Files of one value, and of one whose last part may be missing.
ghost use Rattle.std.specs.Prelude.{◌≡◌, ◌<◌, [], length, IfOk, IfErr, OnOk};
ghost use Rattle.jam_codec.specs.Format.{whole, from, Spells};
ghost use Rattle.jam_codec.specs.Lists.{behind_one, tail_at, with_tail};
ghost use Rattle.jam_codec.specs.Laws.{Longest, SpellsNone};
ghost use Rattle.jam_codec.specs.Reading.{Reads, ReadsWhole};
ghost use Rattle.jam_codec.specs.Refusal.{place_of, IfMalformed};
ghost use Rattle.jam_codec.specs.declared.refusal.FileRefusal.TheVariants.{Malformed};

use crate::field::{Field, Spell};
use jam_codec::{Cursor, FileRefusal};
use std::alloc::{AllocError, Global};

// Bytes that are left do not spell.
fn end(cursor: &Cursor<'_>) -> Result<(), FileRefusal>
    ensures ok { OnOk result (cursor.now.rest ≡ []) }
    ensures left { IfErr result (λ e. (e ≡ Malformed cursor.now.place) × (0 < length cursor.now.rest)) }
{
    if !cursor.at_end() {
        return Err(FileRefusal::Malformed {
            place: cursor.place(),
        });
    }
    Ok(())
}

fn read_whole<T: Field>(alloc: Global, bytes: &[u8]) -> Result<T, FileRefusal>
    ensures { ReadsWhole place_of result (whole T.format bytes.now) }
{
    let mut cursor = Cursor::new(bytes);
    let value = T::read(alloc, &mut cursor)?;
    end(&cursor)?;
    Ok(value)
}

/// The value that all the bytes spell.
///
/// # Errors
/// `Malformed` where they spell none: at the first field that does not spell, or after the value
/// where bytes are left. `NoMemory`.
pub fn read_file<T: Field>(alloc: Global, bytes: &[u8]) -> Result<T, FileRefusal>
    ensures found { IfOk result (λ value. Spells T.format value bytes.now) }
    ensures refused { IfMalformed result (λ place. SpellsNone T.format bytes.now) }
    ensures place { IfMalformed result (λ place. Longest T.format.Run (from 0 bytes.now) place) }
{
    let value = read_whole(alloc, bytes);
    value
}

fn read_tail<T: Field>(alloc: Global, cursor: &mut Cursor<'_>) -> Result<Option<T>, FileRefusal>
    ensures exact { Reads place_of (λ tail. tail) result cursor.new (tail_at (behind_one T.format) cursor.old) }
{
    if cursor.at_end() {
        return Ok(None);
    }
    let place = cursor.place();
    if cursor.fixed(1)? != 1 {
        return Err(FileRefusal::Malformed { place });
    }
    Ok(Some(T::read(alloc, cursor)?))
}

fn read_parts<T: Field, U: Field>(
    alloc: Global,
    bytes: &[u8],
) -> Result<(T, Option<U>), FileRefusal>
    ensures { ReadsWhole place_of result (whole (with_tail T.format (behind_one U.format)) bytes.now) }
{
    let mut cursor = Cursor::new(bytes);
    let value = T::read(alloc, &mut cursor)?;
    let tail = read_tail(alloc, &mut cursor)?;
    end(&cursor)?;
    Ok((value, tail))
}

/// The value that the bytes spell, and the value behind it, before which a byte 1 stands; none
/// where no byte is left.
///
/// # Errors
/// `Malformed` where they spell no such values: at the first field that does not spell, or after
/// both values where bytes are left. `NoMemory`.
pub fn read_file_with_tail<T: Field, U: Field>(
    alloc: Global,
    bytes: &[u8],
) -> Result<(T, Option<U>), FileRefusal>
    ensures found { IfOk result (λ parts. Spells (with_tail T.format (behind_one U.format)) parts bytes.now) }
    ensures refused { IfMalformed result (λ place. SpellsNone (with_tail T.format (behind_one U.format)) bytes.now) }
    ensures place { IfMalformed result (λ place. Longest (with_tail T.format (behind_one U.format)).Run (from 0 bytes.now) place) }
{
    let parts = read_parts(alloc, bytes);
    parts
}

/// The bytes that spell the value.
///
/// # Errors
/// Want of memory.
pub fn write_file<T: Spell>(alloc: Global, value: &T) -> Result<Vec<u8>, AllocError>
    ensures { IfOk result (λ bytes. Spells T.format value.now bytes.items) }
{
    let mut out = Vec::new(alloc);
    value.write(&mut out)?;
    Ok(out)
}
