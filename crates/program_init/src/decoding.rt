// Standard programs in files.
ghost use Rattle.std.specs.Prelude.{◌≡◌, IfOk, IfErr, Ok, Err, MatchResult, ℕ};
ghost use Rattle.jam_codec.specs.Format.{Spells, from, whole};
ghost use Rattle.jam_codec.specs.Laws.{Longest, SpellsNone};
ghost use Rattle.jam_codec.specs.Refusal.{IfMalformed};
ghost use Rattle.blob_decode.specs.Program.{program_blob};
ghost use Rattle.program_init.specs.Standard.{standard_program};
ghost use Rattle.program_init.specs.StandardLaws.{standard_laws};

use crate::reading::read_parts;
use crate::standard::StandardProgram;
use blob_decode::{Program, ProgramRefusal};
use jam_codec::{Cursor, FileRefusal};
use jam_fields::{Field, read_file};
use std::alloc::Global;
use std::rc::Rc;

// The program that the bytes of the code spell; they begin at the place.
#[tactic(auto, using(crate::proofs::Programs::program_read, crate::proofs::Programs::program_refused))]
fn program_at(alloc: Global, code: &[u8], place: u64) -> Result<Program, FileRefusal>
    ensures found { IfOk result (λ program. whole program_blob code.now ≡ Ok program) }
    ensures refused { IfMalformed result (λ at. (at ≡ place) × ((inner : ℕ) × (whole program_blob code.now ≡ Err inner))) }
{
    match Program::deblob(alloc, code) {
        Ok(program) => Ok(program),
        Err(ProgramRefusal::NotProgram { .. }) => Err(FileRefusal::Malformed { place }),
        Err(ProgramRefusal::NoMemory) => Err(FileRefusal::NoMemory),
    }
}

impl Field for StandardProgram {
    ghost format = { standard_program };

    fn read(alloc: Global, cursor: &mut Cursor<'_>) -> Result<StandardProgram, FileRefusal> {
        let mut ahead = cursor.ahead();
        let (parts, place) = read_parts(&mut ahead)?;
        let program = program_at(alloc, parts.code, place)?;
        let standard = StandardProgram {
            read_only: Vec::from_slice(alloc, parts.ro)?,
            writable: Vec::from_slice(alloc, parts.rw)?,
            heap_pages: parts.heap_pages,
            stack: parts.stack,
            program: Rc::new(alloc, program)?,
        };
        *cursor = ahead;
        Ok(standard)
    }

    ghost is_format = { standard_laws };
}

/// The standard program that all the bytes spell.
///
/// # Errors
/// `Malformed` where they spell none: at the first field that does not spell, of which the code is one, or after the value
/// where bytes are left. `NoMemory`.
pub fn read_standard(alloc: Global, bytes: &[u8]) -> Result<StandardProgram, FileRefusal>
    ensures found { IfOk result (λ standard. Spells standard_program standard bytes.now) }
    ensures refused { IfMalformed result (λ place. SpellsNone standard_program bytes.now) }
    ensures place { IfMalformed result (λ place. Longest standard_program.Run (from 0 bytes.now) place) }
{
    read_file(alloc, bytes)
}
