// Effects, over values that are read already.
ghost use Rattle.std.specs.Prelude.{◌≡◌, ◌<◌, ◌≤◌, ◌+◌, ◌^◌, IsTrue, true, None, set, IfOk, OnOk, OnErr};
ghost use Rattle.blob_decode.specs.Program as blob;
ghost use Rattle.blob_decode.specs.Program.{jump_to, jump_through};
ghost use Rattle.paged_memory.specs.PageMap.{is_width};
ghost use Rattle.pvm_alu.specs.Alu as alu;
ghost use Rattle.pvm_step.specs.Effect.{Sets, Loads, Stores, Branches, Moves, Grows, after, lands, grown, value_in, exit_of};
ghost use Rattle.pvm_step.specs.declared.attempt.Attempt.TheVariants.{Next};
ghost use Rattle.pvm_step.specs.Machine.{ChangesStateAlone, state_of, after_of, exit_after, is_done};

use crate::attempt::Attempt;
use crate::exit::Exit;
use crate::heap::Heap;
use crate::machine::Machine;
use paged_memory::{Access, StoreRefusal};
use pvm_alu::widen;
use pvm_isa::Op;
use std::alloc::AllocError;

const HALT_ADDRESS: u64 = 4_294_901_760;

#[inline(always)]
fn exit_of(access: Access) -> Exit
    ensures { result ≡ exit_of access }
{
    match access {
        Access::Low => Exit::Panic,
        Access::Fault(page) => Exit::Fault(page),
    }
}

impl Machine {
    /// The value of a register.
    #[inline(always)]
    pub(crate) fn value(&self, register: u8) -> u64
        requires { register < 13 }
        ensures { result ≡ value_in (state_of self.now) register }
    {
        self.registers[usize::from(register)]
    }

    /// Goes to the next instruction.
    #[inline(always)]
    pub(crate) fn go_on(&mut self, next: u64)
        requires next { next ≡ blob.next self.old.program self.old.pc }
        ensures { self.new ≡ record self.old { pc = blob.next self.old.program self.old.pc } }
    {
        self.pc = next;
    }

    /// Sets a register, and goes to the next instruction.
    #[inline(always)]
    #[tactic(auto, unfolding(crate::specs::Effect::after))]
    pub(crate) fn set_and_go_on(&mut self, register: u8, value: u64, next: u64)
        requires register { register < 13 }
        requires next { next ≡ blob.next self.old.program self.old.pc }
        ensures acts { after_of self.new None ≡ after self.old.program (state_of self.old) (Sets register value) }
        ensures next { self.new.pc ≡ blob.next self.old.program self.old.pc }
        ensures rest { ChangesStateAlone self.old self.new }
    {
        self.registers[usize::from(register)] = value;
        self.go_on(next);
    }

    /// Sets a register where the test holds, and goes to the next instruction.
    #[inline(always)]
    #[tactic(auto, unfolding(crate::specs::Effect::after))]
    pub(crate) fn move_where(&mut self, holds: bool, register: u8, value: u64, next: u64)
        requires register { register < 13 }
        requires next { next ≡ blob.next self.old.program self.old.pc }
        ensures acts { after_of self.new None ≡ after self.old.program (state_of self.old) (Moves holds register value) }
        ensures next { self.new.pc ≡ blob.next self.old.program self.old.pc }
        ensures rest { ChangesStateAlone self.old self.new }
    {
        if holds {
            self.registers[usize::from(register)] = value;
        }
        self.go_on(next);
    }

    /// Sets a register to the bytes at an address.
    #[inline]
    #[tactic(auto, unfolding(crate::specs::Effect::after))]
    pub(crate) fn load(
        &mut self,
        register: u8,
        op: Op,
        width: u8,
        from: u32,
        next: u64,
    ) -> Option<Exit>
        requires register { register < 13 }
        requires loads { IsTrue (alu.is_load op) }
        requires width { alu.loaded_bytes op ≡ width }
        requires size { IsTrue (is_width width) }
        requires next { next ≡ blob.next self.old.program self.old.pc }
        ensures acts { after_of self.new result ≡ after self.old.program (state_of self.old) (Loads register op from) }
        ensures rest { ChangesStateAlone self.old self.new }
    {
        match self.memory.load(from, width) {
            Ok(raw) => {
                self.set_and_go_on(register, widen(op, raw), next);
                None
            }
            Err(access) => Some(exit_of(access)),
        }
    }

    /// Sets a register to the bytes at an address, where they may be read; else nothing.
    #[inline(always)]
    #[tactic(auto, unfolding(crate::specs::Effect::after))]
    pub(crate) fn try_load(
        &mut self,
        register: u8,
        op: Op,
        width: u8,
        from: u32,
        next: u64,
    ) -> Attempt
        requires register { register < 13 }
        requires loads { IsTrue (alu.is_load op) }
        requires width { alu.loaded_bytes op ≡ width }
        requires size { IsTrue (is_width width) }
        requires next { next ≡ blob.next self.old.program self.old.pc }
        ensures acts { is_done result ≡ true → after_of self.new (exit_after result) ≡ after self.old.program (state_of self.old) (Loads register op from) }
        ensures next { result ≡ Next → self.new.pc ≡ blob.next self.old.program self.old.pc }
        ensures same { result ≡ Attempt.Beyond → self.new ≡ self.old }
        ensures rest { ChangesStateAlone self.old self.new }
    {
        match self.memory.load(from, width) {
            Ok(raw) => {
                self.set_and_go_on(register, widen(op, raw), next);
                Attempt::Next
            }
            Err(_) => Attempt::Beyond,
        }
    }

    /// Stores the low bytes of a number at an address, where they may be written and no memory is wanted; else nothing.
    #[inline(always)]
    #[tactic(auto, unfolding(crate::specs::Effect::after))]
    pub(crate) fn try_store(&mut self, width: u8, to: u32, number: u64, next: u64) -> Attempt
        requires size { IsTrue (is_width width) }
        requires next { next ≡ blob.next self.old.program self.old.pc }
        ensures acts { is_done result ≡ true → after_of self.new (exit_after result) ≡ after self.old.program (state_of self.old) (Stores width to number) }
        ensures next { result ≡ Next → self.new.pc ≡ blob.next self.old.program self.old.pc }
        ensures same { result ≡ Attempt.Beyond → self.new ≡ self.old }
        ensures rest { ChangesStateAlone self.old self.new }
    {
        match self.memory.store(to, width, number) {
            Ok(()) => {
                self.go_on(next);
                Attempt::Next
            }
            Err(_) => Attempt::Beyond,
        }
    }

    /// Stores the low bytes of a value at an address.
    #[inline]
    #[tactic(auto, unfolding(crate::specs::Effect::after))]
    pub(crate) fn store(
        &mut self,
        width: u8,
        to: u32,
        value: u64,
        next: u64,
    ) -> Result<Option<Exit>, AllocError>
        requires size { IsTrue (is_width width) }
        requires next { next ≡ blob.next self.old.program self.old.pc }
        ensures acts { IfOk result (λ exit. after_of self.new exit ≡ after self.old.program (state_of self.old) (Stores width to value)) }
        ensures rest { ChangesStateAlone self.old self.new }
        ensures err { OnErr result (self.new ≡ self.old) }
    {
        match self.memory.store(to, width, value) {
            Ok(()) => {
                self.go_on(next);
                Ok(None)
            }
            Err(StoreRefusal::Access(access)) => Ok(Some(exit_of(access))),
            Err(StoreRefusal::NoMemory) => Err(AllocError),
        }
    }

    /// Jumps to a target, where a block begins there.
    #[inline(always)]
    pub(crate) fn jump(&mut self, target: Option<u64>) -> Attempt
        ensures landed { after_of self.new (exit_after result) ≡ lands (state_of self.old) (jump_to self.old.program target) }
        ensures done { is_done result ≡ true }
        ensures next { result ≡ Next → self.new.pc ≡ blob.next self.old.program self.old.pc }
        ensures rest { ChangesStateAlone self.old self.new }
    {
        match target {
            Some(place) if self.program.is_start(place) => {
                self.pc = place;
                Attempt::Jumped
            }
            _ => Attempt::Panics,
        }
    }

    /// Jumps through the jump table.
    #[inline]
    pub(crate) fn jump_through(&mut self, address: u32) -> Option<Exit>
        ensures landed { after_of self.new result ≡ lands (state_of self.old) (jump_through self.old.program address) }
        ensures rest { ChangesStateAlone self.old self.new }
    {
        if u64::from(address) == HALT_ADDRESS {
            return Some(Exit::Halt);
        }
        if address == 0 || address % 2 == 1 {
            return Some(Exit::Panic);
        }
        let target = self.program.jump_at(u64::from(address) / 2 - 1);
        match self.jump(target) {
            Attempt::Panics => Some(Exit::Panic),
            _ => None,
        }
    }

    /// Jumps to a target where the test holds.
    #[inline(always)]
    #[tactic(auto, unfolding(crate::specs::Effect::after))]
    pub(crate) fn branch(&mut self, taken: bool, target: Option<u64>, next: u64) -> Attempt
        requires next { next ≡ blob.next self.old.program self.old.pc }
        ensures acts { after_of self.new (exit_after result) ≡ after self.old.program (state_of self.old) (Branches taken target) }
        ensures done { is_done result ≡ true }
        ensures next { result ≡ Next → self.new.pc ≡ blob.next self.old.program self.old.pc }
        ensures rest { ChangesStateAlone self.old self.new }
    {
        if taken {
            return self.jump(target);
        }
        self.go_on(next);
        Attempt::Next
    }

    /// Sets a register.
    #[inline(always)]
    pub(crate) fn set(&mut self, register: u8, value: u64)
        requires { register < 13 }
        ensures { self.new ≡ record self.old { registers = set self.old.registers register value } }
    {
        self.registers[usize::from(register)] = value;
    }

    /// Raises the next byte of the heap, and lifts the pages up to there.
    fn lift(&mut self, amount: u64) -> Result<(), AllocError>
        requires some { 0 < amount }
        requires room { self.old.heap.next + amount ≤ self.old.heap.end }
        ensures grown { OnOk result (state_of self.new ≡ grown (state_of self.old) amount) }
        ensures rest { ChangesStateAlone self.old self.new }
        ensures err { OnErr result (self.new ≡ self.old) }
    {
        let next = self.heap.next();
        let end = self.heap.end();
        let past = next + amount;
        let first = next / 4096;
        let count = past.div_ceil(4096) - first;
        self.memory.lift_pages(first as u32, count as u32)?;
        self.heap = Heap::new(past, end);
        Ok(())
    }

    /// Grows the heap by an amount, and sets a register to where its next byte was.
    #[tactic(auto, unfolding(crate::specs::Effect::after))]
    pub(crate) fn grow(&mut self, register: u8, amount: u64, next: u64) -> Result<(), AllocError>
        requires register { register < 13 }
        requires next { next ≡ blob.next self.old.program self.old.pc }
        ensures acts { OnOk result (after_of self.new None ≡ after self.old.program (state_of self.old) (Grows register amount)) }
        ensures rest { ChangesStateAlone self.old self.new }
        ensures err { OnErr result (self.new ≡ self.old) }
    {
        let from = self.heap.next();
        let room = self.heap.end() - from;
        if amount == 0 {
            self.set_and_go_on(register, from, next);
        } else if amount > room {
            self.set_and_go_on(register, 0, next);
        } else {
            self.lift(amount)?;
            self.set_and_go_on(register, from, next);
        }
        Ok(())
    }
}
