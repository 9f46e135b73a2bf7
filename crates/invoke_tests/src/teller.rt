//! A host that counts its calls.
ghost use Rattle.std.specs.Prelude.{◌≡◌, ◌%◌, ◌^◌, IfOk, false, nat_lt};
ghost use Rattle.invoke_tests.specs.Teller.{tells};

use blob_decode::{Program, ProgramRefusal};
use pvm_invoke::{Host, Invocation};
use pvm_step::{Exit, HostStep, Machine};
use std::alloc::{AllocError, Global};
use std::rc::Rc;

/// Call 1 ends in a panic, 2 out of gas, 3 is never paid, and 4 finds no memory. Any other goes on, with the number of
/// calls so far in register 7.
#[derive(Drop)]
pub struct Teller {
    pub calls: u64,
}

impl Host for Teller {
    ghost use Rattle.invoke_tests.specs.Teller.{teller_holds, tells};
    ghost use Rattle.invoke_tests.specs.TellerLaws.{tells-lawful};

    ghost held = { λ t. teller_holds t.calls };

    ghost effect = { tells };

    ghost lawful = { tells-lawful };

    #[tactic(auto, unfolding(crate::specs::Teller::tells))]
    fn call(&mut self, number: u64, machine: &mut Machine) -> Result<HostStep, AllocError> {
        if !machine.ledger.charge(10) {
            machine.ledger.exhaust();
            return Ok(HostStep::Unpaid);
        }
        if number == 4 {
            return Err(AllocError);
        }
        if number == 3 {
            machine.ledger.exhaust();
            return Ok(HostStep::Unpaid);
        }
        self.calls = self.calls.wrapping_add(1);
        if number == 1 {
            return Ok(HostStep::End(Exit::Panic));
        }
        if number == 2 {
            machine.ledger.exhaust();
            return Ok(HostStep::End(Exit::OutOfGas));
        }
        machine.registers[7] = self.calls;
        Ok(HostStep::Go)
    }
}

fn shared(alloc: Global, program: Program) -> Result<Rc<Program>, AllocError> {
    let shared = Rc::new(alloc, program)?;
    Ok(shared)
}

pub fn machine(alloc: Global, blob: &[u8], gas: u64) -> Result<Machine, ProgramRefusal> {
    let program = Program::deblob(alloc, blob)?;
    let program = shared(alloc, program)?;
    Ok(Machine::raw(alloc, program, 0, gas))
}

/// The raw machine of a blob at place 0 with so much gas, and a new host.
pub fn invocation(
    alloc: Global,
    blob: &[u8],
    gas: u64,
) -> Result<Invocation<Teller>, ProgramRefusal> {
    let machine = machine(alloc, blob, gas)?;
    Ok(Invocation::new(machine, Teller { calls: 0 }))
}
