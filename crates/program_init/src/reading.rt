// The parts of a standard program, in its bytes.
ghost use Rattle.std.specs.Prelude.{◌≡◌, length, Some, Ok, Err, MatchResult, IfOk, IfErr};
ghost use Rattle.jam_codec.specs.Format.{Spells, from, whole};
ghost use Rattle.jam_codec.specs.Laws.{Longest, SpellsNone};
ghost use Rattle.jam_codec.specs.Reading.{Reads};
ghost use Rattle.blob_decode.specs.Program.{program_blob};
ghost use Rattle.program_init.specs.Standard.{head, outer, standard_program};
ghost use Rattle.program_init.specs.Read.{plain_head, plain_parts, coded};

use crate::head::Head;
use crate::parts::Parts;
use crate::refusal::NotStandard;
use jam_codec::{Cursor, Malformed};

// All fields before the code.
fn read_head<'a>(cursor: &mut Cursor<'a>) -> Result<Head<'a>, Malformed>
    ensures { Reads (λ e. Some e.place) plain_head result cursor.new (head.read cursor.old) }
{
    let read_only = cursor.fixed(3)?;
    let writable = cursor.fixed(3)?;
    let heap_pages = cursor.fixed(2)?;
    let stack = cursor.fixed(3)?;
    let read_only = cursor.bytes(read_only)?;
    let writable = cursor.bytes(writable)?;
    let code_size = cursor.fixed(4)?;
    Ok(Head {
        read_only,
        writable,
        heap_pages,
        stack,
        code_size,
    })
}

/// The parts that stand at the front, and the place where the code begins.
pub fn read_parts<'a>(cursor: &mut Cursor<'a>) -> Result<(Parts<'a>, u64), Malformed>
    ensures exact { Reads (λ e. Some e.place) (λ p. plain_parts p.0) result cursor.new (outer.read cursor.old) }
    ensures found { IfOk result (λ p. standard_program.read cursor.old ≡ coded (plain_parts p.0) p.1 cursor.new (whole program_blob p.0.code.now)) }
    ensures refused { IfErr result (λ e. standard_program.read cursor.old ≡ Err e.place) }
{
    let head = read_head(cursor)?;
    let place = cursor.place();
    let code = cursor.bytes(head.code_size)?;
    Ok((
        Parts {
            ro: head.read_only,
            rw: head.writable,
            code,
            heap_pages: head.heap_pages as u32,
            stack: head.stack as u32,
        },
        place,
    ))
}

fn split_whole(standard: &[u8]) -> Result<Parts<'_>, NotStandard>
    ensures { MatchResult result (λ p. whole outer standard.now ≡ Ok (plain_parts p)) (λ e. whole outer standard.now ≡ Err e.place) }
{
    let mut cursor = Cursor::new(standard);
    let (parts, _place) = read_parts(&mut cursor)?;
    if !cursor.at_end() {
        return Err(NotStandard {
            place: cursor.place(),
        });
    }
    Ok(parts)
}

/// The parts of a standard program, by its outer fields. The code need not be a program.
///
/// # Errors
/// `NotStandard` exactly where the outer fields do not spell: at the first that does not, or after them where bytes are
/// left. It takes no memory.
pub fn split(standard: &[u8]) -> Result<Parts<'_>, NotStandard>
    ensures found { IfOk result (λ p. Spells outer (plain_parts p) standard.now) }
    ensures refused { IfErr result (λ e. SpellsNone outer standard.now) }
    ensures place { IfErr result (λ e. Longest outer.Run (from 0 standard.now) e.place) }
{
    split_whole(standard)
}
