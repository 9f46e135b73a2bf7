// A machine with a host.
ghost use Rattle.std.specs.Prelude.{◌≡◌, ◌+◌, ◌≤◌, ◌↔◌, false, true, IfOk, OnOk, OnErr, length, drop};
ghost use Rattle.pvm_step.specs.Machine.{exit_in};
ghost use Rattle.pvm_invoke.specs.Turns.{stands, exit_at, has_ended, advanced, units, unit_list, last_standing, left_by};
ghost use Rattle.pvm_invoke.specs.Outcome.{run_outcome};

use crate::advance::Advance;
use crate::host::Host;
use crate::outcome::Outcome;
use crate::stage::Stage;
use crate::turns::{has_ended, make_units};
use pvm_step::{Machine, Progress};
use std::alloc::AllocError;
use std::marker::Model;

/// A machine whose host calls are answered, in turns of so many units each. A unit is an instruction or a host call.
#[derive(Drop)]
pub struct Invocation<H: Host> {
    machine: Machine,
    host: H,
    stage: Stage,
    given: u64,
    is_spent: bool,
}

impl<H: Host> Model for Invocation<H> {
    ghost use Rattle.pvm_invoke.specs.Turns.{stands};
    ghost use Rattle.pvm_invoke.specs.Invocation.{Invocation, IsKeptRun};
    ghost use Rattle.pvm_invoke.specs.Coded.{coded_invocation};

    ghost Value = { Invocation };

    ghost coded = { coded_invocation };

    ghost view = { λ v. record { run = stands v.machine (H.held v.host) v.stage; given = v.given; is_spent = v.is_spent } };

    ghost invariant = { λ v. IsKeptRun v.machine v.stage v.is_spent };
}

// What the run has come to, in words of a machine's run.
fn progress_at(stage: Stage) -> Progress
    ensures { exit_in result ≡ exit_at stage }
{
    match stage {
        Stage::Runs | Stage::Awaits(_) => Progress::Paused,
        Stage::Ended(exit) => Progress::Ended(exit),
    }
}

impl<H: Host> Invocation<H> {
    /// A machine at the start of its run.
    pub fn new(machine: Machine, host: H) -> Invocation<H>
        ensures { result ≡ record { run = stands machine (H.held host) Stage.Runs; given = machine.gas; is_spent = false } }
    {
        let given = machine.ledger.left();
        Invocation {
            machine,
            host,
            stage: Stage::Runs,
            given,
            is_spent: false,
        }
    }

    /// A turn: makes units, at most so many, up to the end of the run. It pauses exactly where all were made and none
    /// ended it. A unit whose cost cannot be paid is not made, and the run is then out of gas.
    ///
    /// # Errors
    /// Want of memory. The run is lost then, and each further turn answers the same.
    pub fn advance(&mut self, fuel: u64) -> Result<Advance, AllocError>
        ensures after { OnOk result (self.new ≡ record self.old { run = advanced fuel H.effect self.old.run }) }
        ensures units { IfOk result (λ turn. turn.units ≡ length (units fuel H.effect self.old.run)) }
        ensures progress { IfOk result (λ turn. exit_in turn.progress ≡ exit_at self.new.run.stage) }
        ensures paused { IfOk result (λ turn. (turn.progress ≡ Progress.Paused) ↔ ((turn.units ≡ fuel) × (has_ended (last_standing self.old.run (units fuel H.effect self.old.run)).stage ≡ false))) }
        ensures bounded { IfOk result (λ turn. turn.units + self.new.run.machine.gas ≤ self.old.run.machine.gas) }
        ensures list { OnOk result (unit_list H.effect self.new.run ≡ drop fuel (unit_list H.effect self.old.run)) }
        ensures leaves { OnOk result (left_by H.effect self.new.run ≡ left_by H.effect self.old.run) }
        ensures not_spent { OnOk result (self.old.is_spent ≡ false) }
        ensures spent { OnErr result (self.new.is_spent ≡ true) }
        ensures going { OnErr result (has_ended self.new.run.stage ≡ false) }
    {
        if self.is_spent {
            return Err(AllocError);
        }
        match make_units(&mut self.machine, &mut self.host, &mut self.stage, fuel) {
            Ok(units) => Ok(Advance {
                units,
                progress: progress_at(self.stage),
            }),
            Err(error) => {
                self.is_spent = true;
                self.stage = Stage::Runs;
                Err(error)
            }
        }
    }

    /// The gas that is left, and the place. Between an ecalli and its host call it is the ecalli's.
    pub fn view(&self) -> (u64, u64)
        ensures gas { result.0 ≡ self.now.run.machine.gas }
        ensures place { result.1 ≡ self.now.run.machine.pc }
    {
        (self.machine.ledger.left(), self.machine.pc)
    }

    /// Whether the run has ended. A run that was lost has not.
    pub fn has_ended(&self) -> bool
        ensures { result ≡ has_ended self.now.run.stage }
    {
        has_ended(self.stage)
    }
}

impl<H: Host + Drop> Invocation<H> {
    /// What the run came to, and the host.
    ///
    /// # Errors
    /// Want of memory; the machine and the host are gone then.
    pub fn finish(self) -> Result<(Outcome, H), AllocError>
        requires { has_ended self.run.stage ≡ true }
        ensures outcome { IfOk result (λ left. left.0 ≡ run_outcome self.given self.run) }
        ensures held { IfOk result (λ left. H.held left.1 ≡ self.run.held) }
    {
        let Invocation {
            machine,
            host,
            stage,
            given,
            is_spent: _,
        } = self;
        let Stage::Ended(exit) = stage else {
            unreachable!()
        };
        let outcome = Outcome::of(&machine, exit, given)?;
        Ok((outcome, host))
    }
}
