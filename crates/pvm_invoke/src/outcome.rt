// What a run comes to.
ghost use Rattle.std.specs.Prelude.{◌≡◌, Some, IfOk};
ghost use Rattle.pvm_step.specs.History.{output_of};
ghost use Rattle.pvm_step.specs.Machine.{moment};
ghost use Rattle.pvm_invoke.specs.Outcome.{outcome_at};

use pvm_step::{Exit, Machine};
use std::alloc::AllocError;
use std::marker::Model;

/// What a run comes to.
#[derive(Drop)]
pub struct Outcome {
    pub exit: Exit,
    /// The gas that the run took.
    pub used: u64,
    /// The gas that is left.
    pub left: u64,
    pub pc: u64,
    pub registers: [u64; 13],
    /// The bytes that a run that halted hands out; of another none.
    pub output: Vec<u8>,
}

impl Model for Outcome {
    ghost use Rattle.pvm_invoke.specs.Outcome.{Outcome};

    ghost Value = { Outcome };

    ghost view = { λ o. record { exit = o.exit; used = o.used; left = o.left; pc = o.pc; registers = o.registers; output = o.output.items } };
}

// The bytes that a machine hands out that ended so.
#[tactic(auto, unfolding(paged_memory::specs::PageMap::bytes_from))]
fn handed_out(machine: &Machine, exit: Exit) -> Result<Vec<u8>, AllocError>
    ensures { IfOk result (λ bytes. bytes.items ≡ output_of (moment machine.now (Some exit))) }
{
    match exit {
        Exit::Halt => machine.output(),
        Exit::Panic | Exit::OutOfGas | Exit::Fault(_) | Exit::Host(_) => {
            machine.memory.copied(0, 0)
        }
    }
}

impl Outcome {
    /// What the run of a machine that was given so much gas came to, where it ended so.
    ///
    /// # Errors
    /// Want of memory.
    pub fn of(machine: &Machine, exit: Exit, given: u64) -> Result<Outcome, AllocError>
        ensures { IfOk result (λ outcome. outcome ≡ outcome_at given machine.now exit) }
    {
        let output = handed_out(machine, exit)?;
        let left = machine.ledger.left();
        Ok(Outcome {
            exit,
            used: given.saturating_sub(left),
            left,
            pc: machine.pc,
            registers: machine.registers,
            output,
        })
    }
}
