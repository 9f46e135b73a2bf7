// The fields of a blob, in its bytes.
ghost use Rattle.std.specs.Prelude.{◌≡◌, ◌*◌, ◌≤◌, ◌++◌, IfOk, OnOk, MatchResult, Ok, Err, Some, length};
ghost use Rattle.byte_numbers.specs.Numbers.{little_number, numbers, AreBytes};
ghost use Rattle.jam_codec.specs.Spelling.{binary_digits};
ghost use Rattle.jam_codec.specs.Reading.{Reads};
ghost use Rattle.jam_codec.specs.Format.{numbers_of, whole};
ghost use Rattle.blob_decode.specs.Program.{program_blob};
ghost use Rattle.blob_decode.specs.Kept.{program_of, AreParts};
ghost use Rattle.blob_decode.specs.Parts.{lists};

use jam_codec::{Cursor, Malformed};
use std::alloc::AllocError;

// The fields of a program blob: the count of the jumps and their width, and the bytes of the
// jumps, the code and the mask.
#[derive(Clone, Copy)]
pub struct Parts<'a> {
    pub count: u64,
    pub width: u8,
    pub table: &'a [u8],
    pub code: &'a [u8],
    pub mask: &'a [u8],
}

// The bytes of so many jumps; where some are missing, the place is that of the first jump
// that is not whole.
fn read_table<'a>(cursor: &mut Cursor<'a>, count: u64, width: u8) -> Result<&'a [u8], Malformed>
    ensures exact { Reads (λ e. Some e.place) (λ table. numbers width count table.now) result cursor.new ((numbers_of width count).read cursor.old) }
    ensures whole { IfOk result (λ table. length table.now ≡ count * width) }
{
    let left = cursor.remaining();
    let width = u64::from(width);
    match count.checked_mul(width) {
        Some(size) if size <= left => cursor.bytes(size),
        _ => Err(Malformed {
            place: cursor.place() + left / width * width,
        }),
    }
}

// The jumps, the code and the mask.
fn read_lists<'a>(
    cursor: &mut Cursor<'a>,
    count: u64,
    width: u8,
    size: u64,
) -> Result<Parts<'a>, Malformed>
    requires { width ≤ 8 }
    ensures exact { Reads (λ e. Some e.place) (λ p. (numbers p.width p.count p.table.now, (p.code.now, binary_digits (length p.code.now) (little_number p.mask.now)))) result cursor.new ((lists count width size).read cursor.old) }
    ensures keeps { IfOk result (λ p. AreParts p.count p.width p.table.now p.code.now p.mask.now) }
    ensures same { IfOk result (λ p. (p.count ≡ count) × (p.width ≡ width) × (length p.code.now ≡ size)) }
{
    let table = read_table(cursor, count, width)?;
    let code = cursor.bytes(size)?;
    let mask = cursor.bits(size)?;
    Ok(Parts {
        count,
        width,
        table,
        code,
        mask,
    })
}

// All the fields.
fn read_parts<'a>(cursor: &mut Cursor<'a>) -> Result<Parts<'a>, Malformed>
    ensures exact { Reads (λ e. Some e.place) (λ p. program_of p.count p.width p.table.now p.code.now p.mask.now) result cursor.new (program_blob.read cursor.old) }
    ensures keeps { IfOk result (λ p. AreParts p.count p.width p.table.now p.code.now p.mask.now) }
{
    let count = cursor.natural()?;
    let place = cursor.place();
    let width = cursor.fixed(1)?;
    if width > 8 {
        return Err(Malformed { place });
    }
    let size = cursor.natural()?;
    read_lists(cursor, count, width as u8, size)
}

// Adds the bytes of the jumps, the code and the mask, or some of them.
pub fn push_lists(
    out: &mut Vec<u8>,
    table: &[u8],
    code: &[u8],
    mask: &[u8],
) -> Result<(), AllocError>
    ensures ok { OnOk result (out.new.items ≡ out.old.items ++ (table.now ++ (code.now ++ mask.now))) }
    ensures bytes { OnOk result (AreBytes table.now) }
{
    out.extend_from_slice(table)?;
    out.extend_from_slice(code)?;
    out.extend_from_slice(mask)
}

// The fields, where the bytes are a program blob; else the place of the first that does not spell.
pub fn parts_of(bytes: &[u8]) -> Result<Parts<'_>, Malformed>
    ensures exact { MatchResult result (λ p. whole program_blob bytes.now ≡ Ok (program_of p.count p.width p.table.now p.code.now p.mask.now)) (λ e. whole program_blob bytes.now ≡ Err e.place) }
    ensures keeps { IfOk result (λ p. AreParts p.count p.width p.table.now p.code.now p.mask.now) }
{
    let mut cursor = Cursor::new(bytes);
    let parts = read_parts(&mut cursor)?;
    if !cursor.at_end() {
        return Err(Malformed {
            place: cursor.place(),
        });
    }
    Ok(parts)
}
