// Hosts.
ghost use Rattle.std.specs.Prelude.{◌≡◌, ℕ, IfOk};
ghost use Rattle.pvm_invoke.specs.Held.{Held};
ghost use Rattle.pvm_invoke.specs.HostCall.{HostEffect, IsHostEffect};

use pvm_step::{HostStep, Machine};
use std::alloc::AllocError;

/// What answers the host calls of a run.
pub trait Host {
    /// What it holds.
    ghost held: { Self → Held };

    /// What a call leaves, as a function of what it holds, the number of the call and the machine.
    ghost effect: { HostEffect };

    /// Does the call of a number, for the machine that stands at its ecalli. It takes 10 gas by itself.
    ///
    /// # Errors
    /// Want of memory. Nothing is said then of what it holds and of the machine.
    fn call(&mut self, number: u64, machine: &mut Machine) -> Result<HostStep, AllocError>
        ensures met { IfOk result (λ step. effect (held self.old) number machine.old ≡ record { answer = step; held = held self.new; machine = machine.new }) };

    /// A call leaves the machine's program, place, heap and schedule. Unpaid means that no gas is left and nothing else was
    /// done. Go and End leave less gas than there was. A run ends by it in a panic or out of gas.
    ghost lawful: { IsHostEffect effect };
}
