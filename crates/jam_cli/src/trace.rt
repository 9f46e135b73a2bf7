// The work of `trace`.
ghost use Rattle.std.specs.Prelude.{◌≡◌, IfOk};
ghost use Rattle.pvm_step.specs.History.{answer};
ghost use Rattle.pvm_step.specs.Machine.{moment};
ghost use Rattle.program_init.specs.FirstState.{first_machine};
ghost use Rattle.jam_cli.specs.Command.{trace_work};
ghost use Rattle.jam_cli.specs.Parts.{plain_work};

use crate::number::{ArgumentBytes, LineCount, Small};
use crate::run::outcome_of;
use crate::work::Work;
use program_init::{StandardProgram, StartRefusal};
use pvm_step::Machine;
use std::alloc::{AllocError, Global};
use trace_text::{outcome_lines, spell_lines};

// The first machine of a standard program.
fn first_machine(
    alloc: Global,
    program: &StandardProgram,
    entry: u64,
    gas: Small,
    args: &ArgumentBytes,
) -> Result<Machine, AllocError>
    ensures { IfOk result (λ machine. machine ≡ first_machine program.now entry gas.value args.now.bytes.items) }
{
    match program.start(alloc, entry, gas.value, &args.bytes) {
        Ok(machine) => Ok(machine),
        Err(StartRefusal::NoMemory) => Err(AllocError),
        Err(StartRefusal::NotStandard { .. }) => unreachable!(),
        Err(StartRefusal::ArgsTooLong) => unreachable!(),
    }
}

/// Runs a standard program from the entry, and prints the lines of its last instructions and the block of the outcome.
pub fn trace(
    alloc: Global,
    program: &StandardProgram,
    entry: u64,
    gas: Small,
    args: &ArgumentBytes,
    last: LineCount,
) -> Result<Work<'static>, AllocError>
    ensures { IfOk result (λ work. plain_work work ≡ trace_work program.now entry gas.value args.now.bytes.items last.value) }
{
    let mut machine = first_machine(alloc, program, entry, gas, args)?;
    let traced = trace_text::trace(alloc, &mut machine, last.value as usize)?;
    let outcome = outcome_of(alloc, &machine, traced.exit, gas.value)?;
    let mut lines = traced.steps;
    lines.append(&mut outcome_lines(alloc, &outcome)?)?;
    let text = spell_lines(alloc, &lines)?;
    Ok(Work { text, entry: None })
}
