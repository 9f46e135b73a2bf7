// The work of `disasm`.
ghost use Rattle.std.specs.Prelude.{◌≡◌, IfOk};
ghost use Rattle.jam_cli.specs.Command.{disasm_work};
ghost use Rattle.jam_cli.specs.Parts.{plain_work};

use crate::work::Work;
use blob_decode::Program;
use pvm_disasm::list_program;
use std::alloc::{AllocError, Global};

/// Prints the listing of a program.
pub fn disasm(alloc: Global, program: &Program) -> Result<Work<'static>, AllocError>
    ensures { IfOk result (λ work. plain_work work ≡ disasm_work program.now) }
{
    let text = list_program(alloc, program)?.into_bytes();
    Ok(Work { text, entry: None })
}
