// A machine that runs a program.
ghost use Rattle.std.specs.Prelude.{◌≡◌, ◌<◌, ◌≤◌, ◌+◌, ◌^◌, ℕ, true, false, None, Some, length, replicate, IfOk, IfSome, IfNone, OnErr};
ghost use Rattle.std.specs.FinMap as fin;
ghost use Rattle.gas_ledger.specs.Schedule.{IsSchedule, plain};
ghost use Rattle.pvm_isa.specs.declared.op.Op.TheVariants.{Ecalli};
ghost use Rattle.blob_decode.specs.Program.{op_at, next};
ghost use Rattle.blob_decode.specs.Fetched.{IsFetched};
ghost use Rattle.pvm_step.specs.Effect.{effect, act_at};
ghost use Rattle.pvm_step.specs.History.{cost_of, step, reached, states, output};
ghost use Rattle.pvm_step.specs.Machine.{ChangesStateAlone, state_of, after_of, moment, with_gas, exit_in, exit_after, is_done};
ghost use Rattle.pvm_step.specs.Named.{on_registers, changes_memory};
ghost use Rattle.pvm_step.specs.Watched.{paid_at, paid_instructions, WasTold};
ghost use Rattle.pvm_step.specs.declared.attempt.Attempt.TheVariants.{Next};
ghost use Rattle.pvm_step.specs.declared.exit.Exit.TheVariants.{OutOfGas};

use crate::attempt::Attempt;
use crate::exit::{Exit, Progress};
use crate::form::number_of_form;
use crate::heap::Heap;
use crate::watcher::{Blind, PaidInstruction, Watcher};
use blob_decode::{Fetched, Program};
use gas_ledger::{Ledger, Schedule};
use paged_memory::Memory;
use pvm_isa::{Op, form_of};
use std::alloc::{AllocError, Global};
use std::marker::Model;
use std::rc::Rc;

/// A program with a place in it, registers, a memory, a heap, gas, and what instructions cost.
#[derive(Drop)]
pub struct Machine {
    pub program: Rc<Program>,
    pub pc: u64,
    pub registers: [u64; 13],
    pub memory: Memory,
    pub heap: Heap,
    pub ledger: Ledger,
    pub costs: Schedule,
}

impl Model for Machine {
    ghost use Rattle.pvm_step.specs.Machine.{Machine, coded_machine};

    ghost Value = { Machine };

    ghost coded = { coded_machine };

    ghost view = { λ m. record { program = m.program.value; pc = m.pc; registers = m.registers; memory = m.memory; heap = m.heap; gas = m.ledger; costs = m.costs } };
}

// The exit where the gas does not pay. It is out of the way, so that the compiler expects the loop of a run to go on.
#[cold]
#[inline(never)]
fn out_of_gas() -> Exit
    ensures { result ≡ OutOfGas }
{
    Exit::OutOfGas
}

impl Machine {
    /// A machine at a place, with registers 0, a memory without rights, no heap, and the plain
    /// schedule.
    pub fn raw(alloc: Global, program: Rc<Program>, pc: u64, gas: u64) -> Machine
        ensures { result ≡ record { program = program.value; pc = pc; registers = replicate 13 0; memory = fin.empty; heap = record { next = 0; end = 0 }; gas = gas; costs = plain } }
    {
        Machine {
            program,
            pc,
            registers: [0; 13],
            memory: Memory::new(alloc),
            heap: Heap::new(0, 0),
            ledger: Ledger::new(gas),
            costs: Schedule::plain(),
        }
    }

    /// Sets what instructions cost.
    pub fn set_costs(&mut self, costs: Schedule)
        ensures { self.new ≡ record self.old { costs = costs } }
    {
        self.costs = costs;
    }

    // The instruction at the pc; none past the code.
    #[inline(always)]
    fn look(&self, pc: u64) -> Option<Fetched>
        requires { pc ≡ self.now.pc }
        ensures past { IfNone result (length self.now.program.code ≤ self.now.pc) }
        ensures found { IfSome result (IsFetched self.now.program self.now.pc) }
    {
        self.program.fetch(pc)
    }

    // The instruction, where it works on the registers alone, or is a load or a store that is allowed. Else nothing.
    #[inline(always)]
    #[tactic(auto, unfolding(crate::specs::Effect::effect))]
    fn attempt<const PLAIN: bool, W: Watcher>(&mut self, at: Fetched) -> Attempt
        requires { IsFetched self.old.program self.old.pc at }
        ensures made { is_done result ≡ true → after_of self.new (exit_after result) ≡ effect self.old.program (state_of self.old) }
        ensures next { result ≡ Next → self.new.pc ≡ at.next }
        ensures same { result ≡ Attempt.Beyond → self.new ≡ self.old }
        ensures beyond { result ≡ Attempt.Beyond → on_registers at.op ≡ false }
        ensures rest { ChangesStateAlone self.old self.new }
    {
        self.act_on_registers::<PLAIN, W>(
            at.op, at.pc, at.next, at.skip, at.bytes, at.a, at.b, at.x,
        )
    }

    // Another instruction.
    #[inline(always)]
    #[tactic(auto, unfolding(crate::specs::Effect::effect))]
    fn go_beyond(&mut self, at: Fetched) -> Result<Option<Exit>, AllocError>
        requires at { IsFetched self.old.program self.old.pc at }
        requires beyond { on_registers at.op ≡ false }
        ensures effect { IfOk result (λ exit. after_of self.new exit ≡ effect self.old.program (state_of self.old)) }
        ensures rest { ChangesStateAlone self.old self.new }
        ensures err { OnErr result (self.new ≡ self.old) }
        ensures wants { OnErr result (changes_memory (act_at self.old.program (state_of self.old)) ≡ true) }
    {
        self.act_beyond(at.op, at.pc, at.next, at.skip, at.bytes)
    }

    // What an instruction of an opcode costs.
    #[inline(always)]
    #[tactic(auto, unfolding(crate::specs::History::cost_of))]
    fn cost<const PLAIN: bool>(&self, op: Op) -> u64
        requires { PLAIN ≡ true → self.now.costs.forms ≡ plain.forms }
        ensures { result ≡ cost_of self.now.costs op }
    {
        if PLAIN {
            1
        } else {
            self.costs.form_cost(number_of_form(form_of(op)))
        }
    }

    // What is left of the gas at a place past the code, and the exit there. The watcher is told, where the gas pays.
    #[cold]
    #[inline(never)]
    fn trap_past_code<const PLAIN: bool, W: Watcher>(
        &self,
        number: u64,
        left: u64,
        watcher: &mut W,
    ) -> (u64, Exit)
        requires past { length self.now.program.code ≤ self.now.pc }
        requires plain { PLAIN ≡ true → self.now.costs.forms ≡ plain.forms }
        ensures step { with_gas self.now result.0 (Some result.1) ≡ step self.now.program (with_gas self.now left None) }
        ensures told { WasTold W.HasSeen watcher.old watcher.new (paid_at number self.now.program (with_gas self.now left None)) }
        ensures gas { result.0 ≤ left }
    {
        let cost = self.cost::<PLAIN>(Op::Trap);
        if left < cost {
            return (0, Exit::OutOfGas);
        }
        watcher.see(PaidInstruction {
            number,
            pc: self.pc,
            op: Op::Trap,
            gas: left - cost,
        });
        (left - cost, Exit::Panic)
    }

    // Makes so many instructions, or fewer where the run ends before, and takes no gas for them. It answers how much
    // gas they leave, and the exit of the last, if it ended the run. A schedule in which each form costs 1 is not asked.
    fn go<const PLAIN: bool, W: Watcher>(
        &mut self,
        fuel: u64,
        watcher: &mut W,
    ) -> (u64, Result<Option<Exit>, AllocError>)
        requires { PLAIN ≡ true → self.old.costs.forms ≡ plain.forms }
        ensures reached { IfOk result.1 (λ exit. with_gas self.new result.0 exit ≡ reached fuel self.old.program (moment self.old None)) }
        ensures told { IfOk result.1 (λ _. WasTold W.HasSeen watcher.old watcher.new (paid_instructions 1 self.old.program (states fuel self.old.program (moment self.old None)))) }
        ensures err { OnErr result.1 ((n : ℕ) × (n < fuel) × (with_gas self.new result.0 None ≡ reached n self.old.program (moment self.old None))) }
        ensures told_err { OnErr result.1 ((n : ℕ) × (n < fuel) × (with_gas self.new result.0 None ≡ reached n self.old.program (moment self.old None))
            × WasTold W.HasSeen watcher.old watcher.new (paid_instructions 1 self.old.program (states (n + 1) self.old.program (moment self.old None)))) }
        ensures wants { OnErr result.1 (changes_memory (act_at self.new.program (state_of self.new)) ≡ true) }
        ensures gas { result.0 ≤ self.old.gas }
        ensures rest { ChangesStateAlone self.old self.new }
    {
        let mut left = self.ledger.left();
        // The pc is kept here too, so that the next instruction need not wait for the store of it.
        let mut pc = self.pc;
        'steps: for made in 0..fuel {
            let Some(at) = self.look(pc) else {
                let (left, exit) = self.trap_past_code::<PLAIN, W>(made + 1, left, watcher);
                return (left, Ok(Some(exit)));
            };
            let cost = self.cost::<PLAIN>(at.op);
            if left < cost {
                return (0, Ok(Some(out_of_gas())));
            }
            watcher.see(PaidInstruction {
                number: made + 1,
                pc: at.pc,
                op: at.op,
                gas: left - cost,
            });
            match self.attempt::<PLAIN, W>(at) {
                Attempt::Next => pc = at.next,
                Attempt::Jumped => pc = self.pc,
                Attempt::Panics => return (left - cost, Ok(Some(Exit::Panic))),
                Attempt::Beyond => match self.go_beyond(at) {
                    Ok(None) => pc = self.pc,
                    Ok(Some(exit)) => return (left - cost, Ok(Some(exit))),
                    Err(error) => return (left, Err(error)),
                },
            }
            left -= cost;
        }
        (left, Ok(None))
    }

    // The same, by the schedule that the machine has.
    fn go_on_schedule<W: Watcher>(
        &mut self,
        fuel: u64,
        watcher: &mut W,
    ) -> (u64, Result<Option<Exit>, AllocError>)
        ensures reached { IfOk result.1 (λ exit. with_gas self.new result.0 exit ≡ reached fuel self.old.program (moment self.old None)) }
        ensures told { IfOk result.1 (λ _. WasTold W.HasSeen watcher.old watcher.new (paid_instructions 1 self.old.program (states fuel self.old.program (moment self.old None)))) }
        ensures err { OnErr result.1 ((n : ℕ) × (n < fuel) × (with_gas self.new result.0 None ≡ reached n self.old.program (moment self.old None))) }
        ensures told_err { OnErr result.1 ((n : ℕ) × (n < fuel) × (with_gas self.new result.0 None ≡ reached n self.old.program (moment self.old None))
            × WasTold W.HasSeen watcher.old watcher.new (paid_instructions 1 self.old.program (states (n + 1) self.old.program (moment self.old None)))) }
        ensures wants { OnErr result.1 (changes_memory (act_at self.new.program (state_of self.new)) ≡ true) }
        ensures gas { result.0 ≤ self.old.gas }
        ensures rest { ChangesStateAlone self.old self.new }
        ensures schedule { IsSchedule self.old.costs }
    {
        if self.costs.has_plain_forms() {
            self.go::<true, W>(fuel, watcher)
        } else {
            self.go::<false, W>(fuel, watcher)
        }
    }

    // Takes gas, so that so much is left.
    fn pay(&mut self, left: u64)
        requires { left ≤ self.old.gas }
        ensures paid { self.new ≡ record self.old { gas = left } }
        ensures gas { self.old.gas < 2 ^ 64 }
    {
        let gas = self.ledger.left();
        let _paid = self.ledger.charge(gas - left);
    }

    /// One instruction, which costs what the schedule has for its form; with less gas, the exit
    /// `OutOfGas`, and no gas is left.
    ///
    /// # Errors
    /// Want of memory, only where the instruction changes memory; the machine is then as before.
    pub fn step(&mut self) -> Result<Option<Exit>, AllocError>
        ensures step { IfOk result (λ exit. moment self.new exit ≡ step self.old.program (moment self.old None)) }
        ensures program { self.new.program ≡ self.old.program }
        ensures err { OnErr result (self.new ≡ self.old) }
        ensures wants { OnErr result (changes_memory (act_at self.old.program (state_of self.old)) ≡ true) }
    {
        let (left, exit) = self.go_on_schedule(1, &mut Blind);
        self.pay(left);
        exit
    }

    /// Makes so many instructions, or fewer where the run ends before. It pauses exactly where all
    /// were made and none ended it.
    ///
    /// # Errors
    /// Want of memory, only where the instruction at hand changes memory; the machine then stands
    /// after the instructions made before, and they are paid.
    pub fn run(&mut self, fuel: u64) -> Result<Progress, AllocError>
        ensures reached { IfOk result (λ progress. moment self.new (exit_in progress) ≡ reached fuel self.old.program (moment self.old None)) }
        ensures program { self.new.program ≡ self.old.program }
        ensures err { OnErr result ((n : ℕ) × (n < fuel) × (moment self.new None ≡ reached n self.old.program (moment self.old None))) }
        ensures wants { OnErr result (changes_memory (act_at self.new.program (state_of self.new)) ≡ true) }
    {
        let (left, exit) = self.go_on_schedule(fuel, &mut Blind);
        self.pay(left);
        match exit? {
            Some(exit) => Ok(Progress::Ended(exit)),
            None => Ok(Progress::Paused),
        }
    }

    /// The same, and the watcher is told of each instruction, in their order: of each of the first `fuel` states of
    /// the history that has no exit and whose gas pays its cost, numbered from 1.
    ///
    /// # Errors
    /// Want of memory as for `run`; the watcher was told also of the instruction at hand, which is paid for only where
    /// it is made.
    pub fn run_watched<W: Watcher>(
        &mut self,
        fuel: u64,
        watcher: &mut W,
    ) -> Result<Progress, AllocError>
        ensures reached { IfOk result (λ progress. moment self.new (exit_in progress) ≡ reached fuel self.old.program (moment self.old None)) }
        ensures told { IfOk result (λ _. WasTold W.HasSeen watcher.old watcher.new (paid_instructions 1 self.old.program (states fuel self.old.program (moment self.old None)))) }
        ensures program { self.new.program ≡ self.old.program }
        ensures err { OnErr result ((n : ℕ) × (n < fuel) × (moment self.new None ≡ reached n self.old.program (moment self.old None))
            × WasTold W.HasSeen watcher.old watcher.new (paid_instructions 1 self.old.program (states (n + 1) self.old.program (moment self.old None)))) }
        ensures wants { OnErr result (changes_memory (act_at self.new.program (state_of self.new)) ≡ true) }
        ensures schedule { IsSchedule self.old.costs }
        ensures gas { self.old.gas < 2 ^ 64 }
    {
        let (left, exit) = self.go_on_schedule(fuel, watcher);
        self.pay(left);
        match exit? {
            Some(exit) => Ok(Progress::Ended(exit)),
            None => Ok(Progress::Paused),
        }
    }

    /// Goes to the instruction after a host call.
    pub fn pass_ecalli(&mut self)
        requires { op_at self.old.program self.old.pc ≡ Ecalli }
        ensures { self.new ≡ record self.old { pc = next self.old.program self.old.pc } }
    {
        // The code is shorter than 2^63.
        let _code = self.program.code();
        let skip = self.program.skip(self.pc);
        let next = self.pc + 1 + u64::from(skip);
        self.go_on(next);
    }

    /// The r8 bytes at r7, where they may all be read; else nothing.
    ///
    /// # Errors
    /// Want of memory.
    #[tactic(auto, unfolding(crate::specs::History::output))]
    pub fn output(&self) -> Result<Vec<u8>, AllocError>
        ensures { IfOk result (λ bytes. bytes.items ≡ output (state_of self.now)) }
    {
        self.memory.copied(self.registers[7], self.registers[8])
    }
}
