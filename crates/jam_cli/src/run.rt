// The work of `run`.
ghost use Rattle.std.specs.Prelude.{◌≡◌, Some, IfOk};
ghost use Rattle.pvm_step.specs.History.{answer, raw, output_of};
ghost use Rattle.pvm_step.specs.Machine.{moment};
ghost use Rattle.jam_cli.specs.Command.{outcome_by, run_work};
ghost use Rattle.jam_cli.specs.Parts.{plain_work};

use crate::number::Small;
use crate::work::Work;
use blob_decode::Program;
use pvm_invoke::Outcome;
use pvm_step::{Exit, Machine, Progress, run_laws};
use std::alloc::{AllocError, Global};
use std::rc::Rc;
use trace_text::{outcome_lines, spell_lines};

// A program's machine at the end of its run from place 0, and how it ended.
fn ended_machine(alloc: Global, program: Program, gas: Small) -> Result<(Machine, Exit), AllocError>
    ensures { IfOk result (λ ended. moment ended.0 (Some ended.1) ≡ answer program (raw 0 gas.value)) }
{
    run_laws();
    let mut machine = Machine::raw(alloc, Rc::new(alloc, program)?, 0, gas.value);
    // One attempt more than the gas pays for is the end.
    match machine.run(gas.value + 1)? {
        Progress::Ended(exit) => Ok((machine, exit)),
        Progress::Paused => unreachable!(),
    }
}

// The output of a machine that ended so; of one that did not halt it is empty.
fn output_of(alloc: Global, machine: &Machine, exit: Exit) -> Result<Vec<u8>, AllocError>
    ensures { IfOk result (λ bytes. bytes.items ≡ output_of (moment machine.now (Some exit))) }
{
    match exit {
        Exit::Halt => machine.output(),
        Exit::Panic | Exit::OutOfGas | Exit::Fault(_) | Exit::Host(_) => Ok(Vec::new(alloc)),
    }
}

/// What the run of a machine with so much gas came to, where it ended so.
pub fn outcome_of(
    alloc: Global,
    machine: &Machine,
    exit: Exit,
    gas: u64,
) -> Result<Outcome, AllocError>
    ensures { IfOk result (λ outcome. outcome ≡ outcome_by gas (moment machine.now (Some exit)) exit) }
{
    let output = output_of(alloc, machine, exit)?;
    let left = machine.ledger.left();
    Ok(Outcome {
        exit,
        used: gas.saturating_sub(left),
        left,
        pc: machine.pc,
        registers: machine.registers,
        output,
    })
}

/// Runs a program from place 0 with so much gas, and prints the block of the outcome.
pub fn run(alloc: Global, program: Program, gas: Small) -> Result<Work<'static>, AllocError>
    ensures { IfOk result (λ work. plain_work work ≡ run_work program gas.value) }
{
    let (machine, exit) = ended_machine(alloc, program, gas)?;
    let outcome = outcome_of(alloc, &machine, exit, gas.value)?;
    let lines = outcome_lines(alloc, &outcome)?;
    let text = spell_lines(alloc, &lines)?;
    Ok(Work { text, entry: None })
}
