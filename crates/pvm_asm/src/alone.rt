// What a line gives that stands alone.
ghost use Rattle.std.specs.Prelude.{◌≡◌, [], Some, None, IfOk, if◌then◌else◌};
ghost use Rattle.pvm_asm.specs.Words.{operands_of};
ghost use Rattle.pvm_asm.specs.Statements.{instruction_statement};
ghost use Rattle.pvm_asm.specs.Alone.{statement_code};

use crate::encode::push_instruction;
use crate::fits::{instruction_fits, is_known};
use crate::instruction::Instruction;
use crate::labels::Labels;
use crate::line::{Statement, instruction_statement};
use crate::words::Operands;
use pvm_isa::Op;
use std::alloc::{AllocError, Global};

// Adds the bytes of an instruction that fits at a place and names no label; false where it does not.
fn instruction_code(
    alloc: Global,
    place: u64,
    instruction: &Instruction<'_>,
    out: &mut Vec<u8>,
) -> Result<bool, AllocError>
    requires { out.old.items ≡ [] }
    ensures { IfOk result (λ given. (if given then Some out.new.items else None) ≡ statement_code place (Statement.Instruction instruction.now)) }
{
    let labels = Labels::new(alloc);
    if !instruction_fits(place, instruction) || !is_known(&labels, &instruction.target) {
        return Ok(false);
    }
    push_instruction(out, &labels, place, instruction)?;
    Ok(true)
}

fn statement_code(
    alloc: Global,
    place: u64,
    statement: &Statement<'_>,
    out: &mut Vec<u8>,
) -> Result<bool, AllocError>
    requires { out.old.items ≡ [] }
    ensures { IfOk result (λ given. (if given then Some out.new.items else None) ≡ statement_code place statement.now) }
{
    match statement {
        Statement::Unit(bytes) => {
            bytes.push_to(out)?;
            Ok(true)
        }
        Statement::Instruction(instruction) => instruction_code(alloc, place, instruction, out),
        _ => Ok(false),
    }
}

/// The bytes of code that a line gives at a place which is the name of an opcode and these operands, in place of those that
/// `out` held. False where it gives none, or names a label.
///
/// # Errors
/// Want of memory.
pub fn operands_code(
    alloc: Global,
    place: u64,
    op: Op,
    operands: &[u8],
    out: &mut Vec<u8>,
) -> Result<bool, AllocError>
    ensures { IfOk result (λ given. (if given then Some out.new.items else None) ≡ statement_code place (instruction_statement op (operands_of operands.now))) }
{
    out.clear();
    statement_code(
        alloc,
        place,
        &instruction_statement(op, Operands::new(operands)),
        out,
    )
}
