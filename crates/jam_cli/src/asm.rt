// The work of `asm`.
ghost use Rattle.std.specs.Prelude.{◌≡◌, IfOk, Ok};
ghost use Rattle.jam_cli.specs.Command.{assembled, asm_work};
ghost use Rattle.jam_cli.specs.Parts.{plain_work, ComesTo};

use crate::refusal::Refusal;
use crate::work::{Entry, Work};
use blake2b_core::digest;
use pvm_asm::{AsmRefusal, assemble};
use std::alloc::{AllocError, Global};
use trace_text::{Line, spell_lines};

// Prints the size and the digest of bytes, and stores them.
fn assembled<'a>(alloc: Global, bytes: Vec<u8>, name: &'a str) -> Result<Work<'a>, AllocError>
    ensures { IfOk result (λ work. plain_work work ≡ assembled name.now (Ok bytes.items)) }
{
    let line = Line::Size {
        bytes: bytes.len() as u64,
        digest: digest(&bytes),
    };
    let text = spell_lines(alloc, &[line])?;
    let entry = Some(Entry { name, bytes });
    Ok(Work { text, entry })
}

/// Stores what a text is assembled to, and prints its size and digest.
///
/// # Errors
/// `BadLine` exactly for the first line of the text that is refused; want of memory.
pub fn asm<'a>(alloc: Global, text: &str, name: &'a str) -> Result<Work<'a>, Refusal>
    ensures { ComesTo (asm_work text.now name.now) result }
{
    match assemble(alloc, text) {
        Ok(bytes) => Ok(assembled(alloc, bytes, name)?),
        Err(AsmRefusal::BadLine { line, kind }) => Err(Refusal::BadLine { line, kind }),
        Err(AsmRefusal::NoMemory) => Err(Refusal::NoMemory),
    }
}
