// The lines of an outcome.
ghost use Rattle.std.specs.Prelude.{◌≡◌, ◌<◌, ◌++◌, length, OnOk, IfOk};
ghost use Rattle.trace_text.specs.Transcript.{block, register_lines};

use crate::front::Front;
use crate::line::Line;
use pvm_invoke::Outcome;
use std::alloc::{AllocError, Global};

fn push_registers(lines: &mut Vec<Line>, registers: &[u64]) -> Result<(), AllocError>
    requires { length registers.now < 256 }
    ensures { OnOk result (lines.new.items ≡ lines.old.items ++ register_lines 0 registers.now) }
{
    for k in 0..registers.len() {
        lines.push(Line::Register {
            index: k as u8,
            value: registers[k],
        })?;
    }
    Ok(())
}

/// The block of an outcome.
///
/// # Errors
/// Want of memory.
#[tactic(auto, unfolding(crate::specs::Transcript::block))]
pub fn outcome_lines(alloc: Global, outcome: &Outcome) -> Result<Vec<Line>, AllocError>
    ensures { IfOk result (λ lines. lines.items ≡ block outcome.now) }
{
    let mut lines = Vec::new(alloc);
    lines.push(Line::Exit(outcome.exit))?;
    lines.push(Line::Pc(outcome.pc))?;
    lines.push(Line::Gas(outcome.left))?;
    push_registers(&mut lines, &outcome.registers)?;
    let length = outcome.output.len() as u64;
    let front = Front::of(alloc, &outcome.output)?;
    lines.push(Line::Output { length, front })?;
    Ok(lines)
}
