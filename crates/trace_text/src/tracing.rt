// The lines of a run's last instructions.
ghost use Rattle.std.specs.Prelude.{◌≡◌, ◌≤◌, None, Some, IfOk, OnOk, ◌++◌, map, List};
ghost use Rattle.circular_buffer.specs.Buffer.{keep_last};
ghost use Rattle.pvm_step.specs.declared.watcher.PaidInstruction.{PaidInstruction};
ghost use Rattle.pvm_step.specs.History.{answer};
ghost use Rattle.pvm_step.specs.Machine.{moment};
ghost use Rattle.trace_text.specs.Traces.{most_lines, kept_line, trace_lines};

use crate::last::{KeptInstruction, LastInstructions};
use crate::line::Line;
use blob_decode::Program;
use pvm_step::{Exit, Machine};
use std::alloc::{AllocError, Global};

/// How a run ended, and the lines of its last instructions, in their order.
#[derive(Drop)]
pub struct TraceOutcome {
    pub exit: Exit,
    pub steps: Vec<Line>,
}

fn kept_line(program: &Program, kept: KeptInstruction) -> Line
    ensures { result ≡ kept_line program.now kept }
{
    Line::Step {
        number: kept.number,
        pc: kept.pc,
        op: program.op_at(kept.pc),
        gas: kept.gas,
    }
}

// The lines of instructions.
fn step_lines(
    alloc: Global,
    program: &Program,
    instructions: &[KeptInstruction],
) -> Result<Vec<Line>, AllocError>
    ensures { IfOk result (λ lines. lines.items ≡ map (kept_line program.now) instructions.now) }
{
    let mut lines = Vec::new(alloc);
    for k in 0..instructions.len() {
        lines.push(kept_line(program, instructions[k]))?;
    }
    Ok(lines)
}

// How many instructions are kept where so few are asked for, so that they stay near the processor; and at the most.
const FEW_LINES: usize = 100;

const MOST_LINES: usize = 1000;

// The same as `trace`, with so much room for instructions.
fn last_steps<const ROOM: usize>(
    alloc: Global,
    machine: &mut Machine,
    last: usize,
) -> Result<TraceOutcome, AllocError>
    requires some { 1 ≤ last }
    requires most { last ≤ ROOM }
    ensures exit { IfOk result (λ traced. moment machine.new (Some traced.exit) ≡ answer machine.old.program (moment machine.old None)) }
    ensures steps { IfOk result (λ traced. traced.steps.items ≡ trace_lines last machine.old.program (moment machine.old None)) }
    ensures program { machine.new.program ≡ machine.old.program }
{
    let mut watcher = LastInstructions::<ROOM>::new(alloc)?;
    let exit = machine.run_to_end(&mut watcher)?;
    let kept = watcher.last(alloc, last)?;
    let steps = step_lines(alloc, &machine.program, &kept)?;
    Ok(TraceOutcome { exit, steps })
}

/// Runs a machine to its end, and gives the lines of its last instructions, at most so many: of each the number, counted
/// from 1, its place, the opcode that acts, and the gas after its charge. An attempt without the gas for it has no line.
///
/// # Errors
/// Want of memory.
pub fn trace(alloc: Global, machine: &mut Machine, last: usize) -> Result<TraceOutcome, AllocError>
    requires some { 1 ≤ last }
    requires most { last ≤ most_lines }
    ensures exit { IfOk result (λ traced. moment machine.new (Some traced.exit) ≡ answer machine.old.program (moment machine.old None)) }
    ensures steps { IfOk result (λ traced. traced.steps.items ≡ trace_lines last machine.old.program (moment machine.old None)) }
    ensures program { machine.new.program ≡ machine.old.program }
{
    if last <= FEW_LINES {
        last_steps::<FEW_LINES>(alloc, machine, last)
    } else {
        last_steps::<MOST_LINES>(alloc, machine, last)
    }
}
