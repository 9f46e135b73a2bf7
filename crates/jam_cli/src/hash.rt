// The work of `hash`.
ghost use Rattle.std.specs.Prelude.{◌≡◌, [], ◌∷◌, IfOk};
ghost use Rattle.trace_text.specs.declared.line.Line.TheVariants as of;
ghost use Rattle.jam_cli.specs.Command.{prints};
ghost use Rattle.jam_cli.specs.Parts.{plain_work};

use crate::work::Work;
use std::alloc::{AllocError, Global};
use trace_text::{Line, spell_lines};

/// Prints the digest of a file.
pub fn hash(alloc: Global, digest: [u8; 32]) -> Result<Work<'static>, AllocError>
    ensures { IfOk result (λ work. plain_work work ≡ prints (of.Digest digest ∷ [])) }
{
    let text = spell_lines(alloc, &[Line::Digest(digest)])?;
    Ok(Work { text, entry: None })
}
