// Instructions that load, store, and grow the heap.
ghost use Rattle.std.specs.Prelude.{◌≡◌, IsTrue, true, IfOk, IsOk, OnErr};
ghost use Rattle.pvm_isa.specs.Arguments.{arguments};
ghost use Rattle.pvm_isa.specs.Opcodes.{form_of};
ghost use Rattle.blob_decode.specs.Program as blob;
ghost use Rattle.pvm_isa.specs.declared.form.Form.TheVariants.{F4, F6, F7, F9, F10};
ghost use Rattle.paged_memory.specs.PageMap.{is_width};
ghost use Rattle.pvm_alu.specs.Alu as alu;
ghost use Rattle.pvm_step.specs.Effect.{Grows, loads_at_x, loads_at_b_x, stores_y_at_x, stores_a_at_x, stores_y_at_a_x, stores_a_at_b_x, value_in, after, line, outcome};
ghost use Rattle.pvm_step.specs.declared.attempt.Attempt.TheVariants.{Next};
ghost use Rattle.pvm_step.specs.Machine.{IsAt, AreArguments, ChangesStateAlone, state_of, after_of, exit_after, is_done};

use crate::address::{address, address_from};
use crate::attempt::Attempt;
use crate::exit::Exit;
use crate::machine::Machine;
use pvm_isa::{
    Op, register_and_immediate_in, register_and_two_immediates, two_immediates,
    two_registers_and_immediate_in, two_registers_in,
};
use std::alloc::AllocError;

impl Machine {
    /// A load at an immediate address, where it is not refused; else nothing.
    #[inline(never)]
    pub(crate) fn try_load_at_x(
        &mut self,
        op: Op,
        width: u8,
        a: u8,
        b: u8,
        x: u64,
        next: u64,
    ) -> Attempt
        requires line { line op ≡ loads_at_x op }
        requires form { form_of op ≡ F6 }
        requires loads { IsTrue (alu.is_load op) }
        requires width { alu.loaded_bytes op ≡ width }
        requires size { IsTrue (is_width width) }
        requires read { AreArguments a b x next self.old }
        ensures acts { is_done result ≡ true → after_of self.new (exit_after result) ≡ outcome op self.old.program (state_of self.old) }
        ensures next { result ≡ Next → self.new.pc ≡ blob.next self.old.program self.old.pc }
        ensures same { result ≡ Attempt.Beyond → self.new ≡ self.old }
        ensures rest { ChangesStateAlone self.old self.new }
    {
        self.try_load(a, op, width, address(x), next)
    }

    /// A load at an address in a register, with an offset, where it is not refused; else nothing.
    #[inline(always)]
    pub(crate) fn try_load_at_b_x(
        &mut self,
        op: Op,
        width: u8,
        a: u8,
        b: u8,
        x: u64,
        next: u64,
    ) -> Attempt
        requires line { line op ≡ loads_at_b_x op }
        requires form { form_of op ≡ F10 }
        requires loads { IsTrue (alu.is_load op) }
        requires width { alu.loaded_bytes op ≡ width }
        requires size { IsTrue (is_width width) }
        requires read { AreArguments a b x next self.old }
        ensures acts { is_done result ≡ true → after_of self.new (exit_after result) ≡ outcome op self.old.program (state_of self.old) }
        ensures next { result ≡ Next → self.new.pc ≡ blob.next self.old.program self.old.pc }
        ensures same { result ≡ Attempt.Beyond → self.new ≡ self.old }
        ensures rest { ChangesStateAlone self.old self.new }
    {
        let from = address_from(self.value(b), x);
        self.try_load(a, op, width, from, next)
    }

    /// A store of a register at an immediate address, where it is neither refused nor wants memory; else nothing.
    #[inline(never)]
    pub(crate) fn try_store_a_at_x(
        &mut self,
        op: Op,
        width: u8,
        a: u8,
        b: u8,
        x: u64,
        next: u64,
    ) -> Attempt
        requires line { line op ≡ stores_a_at_x width }
        requires form { form_of op ≡ F6 }
        requires size { IsTrue (is_width width) }
        requires read { AreArguments a b x next self.old }
        ensures acts { is_done result ≡ true → after_of self.new (exit_after result) ≡ outcome op self.old.program (state_of self.old) }
        ensures next { result ≡ Next → self.new.pc ≡ blob.next self.old.program self.old.pc }
        ensures same { result ≡ Attempt.Beyond → self.new ≡ self.old }
        ensures rest { ChangesStateAlone self.old self.new }
    {
        let value = self.value(a);
        self.try_store(width, address(x), value, next)
    }

    /// A store of a register at an address in another, with an offset, where it is neither refused nor wants memory;
    /// else nothing.
    #[inline(always)]
    pub(crate) fn try_store_a_at_b_x(
        &mut self,
        op: Op,
        width: u8,
        a: u8,
        b: u8,
        x: u64,
        next: u64,
    ) -> Attempt
        requires line { line op ≡ stores_a_at_b_x width }
        requires form { form_of op ≡ F10 }
        requires size { IsTrue (is_width width) }
        requires read { AreArguments a b x next self.old }
        ensures acts { is_done result ≡ true → after_of self.new (exit_after result) ≡ outcome op self.old.program (state_of self.old) }
        ensures next { result ≡ Next → self.new.pc ≡ blob.next self.old.program self.old.pc }
        ensures same { result ≡ Attempt.Beyond → self.new ≡ self.old }
        ensures rest { ChangesStateAlone self.old self.new }
    {
        let to = address_from(self.value(b), x);
        let value = self.value(a);
        self.try_store(width, to, value, next)
    }

    /// A load at an immediate address.
    #[inline(never)]
    pub(crate) fn load_at_x(
        &mut self,
        op: Op,
        width: u8,
        pc: u64,
        next: u64,
        skip: u8,
        bytes: u64,
    ) -> Result<Option<Exit>, AllocError>
        requires loads { IsTrue (alu.is_load op) }
        requires width { alu.loaded_bytes op ≡ width }
        requires size { IsTrue (is_width width) }
        requires at { IsAt pc next skip bytes self.old }
        ensures acts { IfOk result (λ exit. after_of self.new exit ≡ after self.old.program (state_of self.old) (loads_at_x op (arguments F6 self.old.program.code self.old.pc skip) (state_of self.old))) }
        ensures made { IsOk result }
        ensures rest { ChangesStateAlone self.old self.new }
    {
        let args = register_and_immediate_in(bytes, skip);
        Ok(self.load(args.a, op, width, address(args.x), next))
    }

    /// A load at an address in a register, with an offset.
    #[inline(never)]
    pub(crate) fn load_at_b_x(
        &mut self,
        op: Op,
        width: u8,
        pc: u64,
        next: u64,
        skip: u8,
        bytes: u64,
    ) -> Result<Option<Exit>, AllocError>
        requires loads { IsTrue (alu.is_load op) }
        requires width { alu.loaded_bytes op ≡ width }
        requires size { IsTrue (is_width width) }
        requires at { IsAt pc next skip bytes self.old }
        ensures acts { IfOk result (λ exit. after_of self.new exit ≡ after self.old.program (state_of self.old) (loads_at_b_x op (arguments F10 self.old.program.code self.old.pc skip) (state_of self.old))) }
        ensures made { IsOk result }
        ensures rest { ChangesStateAlone self.old self.new }
    {
        let args = two_registers_and_immediate_in(bytes, skip);
        let from = address_from(self.value(args.b), args.x);
        Ok(self.load(args.a, op, width, from, next))
    }

    /// A store of an immediate at an immediate address.
    #[inline(never)]
    pub(crate) fn store_y_at_x(
        &mut self,
        width: u8,
        pc: u64,
        next: u64,
        skip: u8,
        bytes: u64,
    ) -> Result<Option<Exit>, AllocError>
        requires size { IsTrue (is_width width) }
        requires at { IsAt pc next skip bytes self.old }
        ensures acts { IfOk result (λ exit. after_of self.new exit ≡ after self.old.program (state_of self.old) (stores_y_at_x width (arguments F4 self.old.program.code self.old.pc skip) (state_of self.old))) }
        ensures rest { ChangesStateAlone self.old self.new }
        ensures err { OnErr result (self.new ≡ self.old) }
    {
        let args = two_immediates(self.program.code(), pc, skip);
        self.store(width, address(args.x), args.y, next)
    }

    /// A store of a register at an immediate address.
    #[inline(never)]
    pub(crate) fn store_a_at_x(
        &mut self,
        width: u8,
        pc: u64,
        next: u64,
        skip: u8,
        bytes: u64,
    ) -> Result<Option<Exit>, AllocError>
        requires size { IsTrue (is_width width) }
        requires at { IsAt pc next skip bytes self.old }
        ensures acts { IfOk result (λ exit. after_of self.new exit ≡ after self.old.program (state_of self.old) (stores_a_at_x width (arguments F6 self.old.program.code self.old.pc skip) (state_of self.old))) }
        ensures rest { ChangesStateAlone self.old self.new }
        ensures err { OnErr result (self.new ≡ self.old) }
    {
        let args = register_and_immediate_in(bytes, skip);
        let value = self.value(args.a);
        self.store(width, address(args.x), value, next)
    }

    /// A store of an immediate at an address in a register, with an offset.
    #[inline(never)]
    pub(crate) fn store_y_at_a_x(
        &mut self,
        width: u8,
        pc: u64,
        next: u64,
        skip: u8,
        bytes: u64,
    ) -> Result<Option<Exit>, AllocError>
        requires size { IsTrue (is_width width) }
        requires at { IsAt pc next skip bytes self.old }
        ensures acts { IfOk result (λ exit. after_of self.new exit ≡ after self.old.program (state_of self.old) (stores_y_at_a_x width (arguments F7 self.old.program.code self.old.pc skip) (state_of self.old))) }
        ensures rest { ChangesStateAlone self.old self.new }
        ensures err { OnErr result (self.new ≡ self.old) }
    {
        let args = register_and_two_immediates(self.program.code(), pc, skip);
        let to = address_from(self.value(args.a), args.x);
        self.store(width, to, args.y, next)
    }

    /// A store of a register at an address in another, with an offset.
    #[inline(never)]
    pub(crate) fn store_a_at_b_x(
        &mut self,
        width: u8,
        pc: u64,
        next: u64,
        skip: u8,
        bytes: u64,
    ) -> Result<Option<Exit>, AllocError>
        requires size { IsTrue (is_width width) }
        requires at { IsAt pc next skip bytes self.old }
        ensures acts { IfOk result (λ exit. after_of self.new exit ≡ after self.old.program (state_of self.old) (stores_a_at_b_x width (arguments F10 self.old.program.code self.old.pc skip) (state_of self.old))) }
        ensures rest { ChangesStateAlone self.old self.new }
        ensures err { OnErr result (self.new ≡ self.old) }
    {
        let args = two_registers_and_immediate_in(bytes, skip);
        let to = address_from(self.value(args.b), args.x);
        let value = self.value(args.a);
        self.store(width, to, value, next)
    }

    /// More heap.
    #[inline(never)]
    pub(crate) fn sbrk(
        &mut self,
        pc: u64,
        next: u64,
        skip: u8,
        bytes: u64,
    ) -> Result<Option<Exit>, AllocError>
        requires at { IsAt pc next skip bytes self.old }
        ensures acts { IfOk result (λ exit. after_of self.new exit ≡ after self.old.program (state_of self.old) (Grows (arguments F9 self.old.program.code self.old.pc skip).d (value_in (state_of self.old) (arguments F9 self.old.program.code self.old.pc skip).a))) }
        ensures rest { ChangesStateAlone self.old self.new }
        ensures err { OnErr result (self.new ≡ self.old) }
    {
        let args = two_registers_in(bytes);
        let amount = self.value(args.a);
        self.grow(args.d, amount, next)?;
        Ok(None)
    }
}
