// Runs to the end.
ghost use Rattle.std.specs.Prelude.{◌≡◌, ◌+◌, ◌<◌, ◌^◌, ℕ, true, None, Some, IfOk, OnErr};
ghost use Rattle.pvm_step.specs.Effect.{act_at};
ghost use Rattle.pvm_step.specs.History.{reached, answer, history, states};
ghost use Rattle.pvm_step.specs.Machine.{state_of, moment};
ghost use Rattle.pvm_step.specs.Named.{changes_memory};
ghost use Rattle.pvm_step.specs.Watched.{paid_instructions, WasTold};

use crate::exit::{Exit, Progress};
use crate::machine::Machine;
use crate::watcher::Watcher;
use std::alloc::AllocError;

impl Machine {
    /// Runs to the end, and tells the watcher of each instruction that is paid, in their order and numbered from 1.
    ///
    /// # Errors
    /// Want of memory, only where the instruction at hand changes memory; the machine then stands after the instructions
    /// made before, and they are paid. The watcher was told also of the one at hand.
    pub fn run_to_end<W: Watcher>(&mut self, watcher: &mut W) -> Result<Exit, AllocError>
        ensures answer { IfOk result (λ exit. moment self.new (Some exit) ≡ answer self.old.program (moment self.old None)) }
        ensures told { IfOk result (λ _. WasTold W.HasSeen watcher.old watcher.new (paid_instructions 1 self.old.program (history self.old.program (moment self.old None)))) }
        ensures program { self.new.program ≡ self.old.program }
        ensures err { OnErr result ((n : ℕ) × (n < 2 ^ 64) × (moment self.new None ≡ reached n self.old.program (moment self.old None))
            × WasTold W.HasSeen watcher.old watcher.new (paid_instructions 1 self.old.program (states (n + 1) self.old.program (moment self.old None)))) }
        ensures wants { OnErr result (changes_memory (act_at self.new.program (state_of self.new)) ≡ true) }
    {
        match self.run_watched(u64::MAX, watcher)? {
            Progress::Ended(exit) => Ok(exit),
            // So many instructions cost all the gas that there can be.
            Progress::Paused => Ok(Exit::OutOfGas),
        }
    }
}
