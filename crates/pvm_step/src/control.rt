// Instructions that jump, branch, call the host, or do nothing.
ghost use Rattle.std.specs.Prelude.{◌≡◌, ◌<◌, ◌+◌, length, IsTrue, true, IfOk, IsOk};
ghost use Rattle.pvm_isa.specs.Arguments.{arguments};
ghost use Rattle.pvm_isa.specs.Opcodes.{form_of};
ghost use Rattle.pvm_isa.specs.declared.form.Form.TheVariants.{F2, F6, F8, F10, F11, F12};
ghost use Rattle.pvm_isa.specs.declared.op.Op.TheVariants.{Fallthrough, Jump, JumpInd, LoadImmJump};
ghost use Rattle.blob_decode.specs.Program as blob;
ghost use Rattle.pvm_alu.specs.Alu as alu;
ghost use Rattle.pvm_step.specs.declared.exit.Exit.TheVariants.{Host};
ghost use Rattle.pvm_step.specs.Effect.{Exits, JumpsThrough, SetsAndJumpsThrough, branches_on_a_x, branches_on_a_b, line, after, address, value_in, outcome, lands};
ghost use Rattle.pvm_step.specs.declared.attempt.Attempt.TheVariants.{Next};
ghost use Rattle.pvm_step.specs.Machine.{IsAt, AreArguments, ChangesStateAlone, state_of, after_of, exit_after, is_done};

use crate::address::address_from;
use crate::attempt::Attempt;
use crate::exit::Exit;
use crate::machine::Machine;
use pvm_alu::test;
use pvm_isa::{
    Op, at_distance, immediate_before_offset_in, one_immediate, register_and_immediate_in,
    register_immediate_and_offset, register_immediate_and_offset_in, target_of_offset_in,
    two_registers_and_two_immediates,
};
use std::alloc::AllocError;

impl Machine {
    /// Nothing.
    #[inline(always)]
    #[tactic(auto, unfolding(crate::specs::Effect::outcome, crate::specs::Effect::line, crate::specs::Effect::after, pvm_isa::specs::Opcodes::entry))]
    pub(crate) fn fall_through(&mut self, pc: u64, next: u64, skip: u8, bytes: u64) -> Attempt
        requires at { IsAt pc next skip bytes self.old }
        ensures acts { after_of self.new (exit_after result) ≡ outcome Fallthrough self.old.program (state_of self.old) }
        ensures next { result ≡ Next → self.new.pc ≡ blob.next self.old.program self.old.pc }
        ensures done { is_done result ≡ true }
        ensures rest { ChangesStateAlone self.old self.new }
    {
        let _code = self.program.code();
        self.go_on(next);
        Attempt::Next
    }

    /// A host call.
    #[inline(always)]
    #[tactic(auto, unfolding(crate::specs::Effect::after))]
    pub(crate) fn call_host(&mut self, pc: u64, next: u64, skip: u8, bytes: u64) -> Option<Exit>
        requires at { IsAt pc next skip bytes self.old }
        ensures acts { after_of self.new result ≡ after self.old.program (state_of self.old) (Exits (Host (arguments F2 self.old.program.code self.old.pc skip).x)) }
        ensures rest { ChangesStateAlone self.old self.new }
    {
        let args = one_immediate(self.program.code(), pc, skip);
        Some(Exit::Host(args.x))
    }

    /// A jump.
    #[inline(always)]
    #[tactic(auto, unfolding(crate::specs::Effect::outcome, crate::specs::Effect::line, crate::specs::Effect::after, pvm_isa::specs::Opcodes::entry))]
    pub(crate) fn jump_on(&mut self, pc: u64, next: u64, skip: u8, bytes: u64) -> Attempt
        requires at { IsAt pc next skip bytes self.old }
        ensures acts { after_of self.new (exit_after result) ≡ outcome Jump self.old.program (state_of self.old) }
        ensures next { result ≡ Next → self.new.pc ≡ blob.next self.old.program self.old.pc }
        ensures done { is_done result ≡ true }
        ensures rest { ChangesStateAlone self.old self.new }
    {
        // The code is shorter than 2^63.
        let _code = self.program.code();
        self.jump(target_of_offset_in(bytes, pc, skip))
    }

    /// A jump through the jump table, where it does not halt; else nothing.
    #[inline(never)]
    #[tactic(auto, unfolding(crate::specs::Effect::outcome, crate::specs::Effect::line, crate::specs::Effect::after, pvm_isa::specs::Opcodes::entry, pvm_isa::specs::Arguments::arguments))]
    pub(crate) fn try_jump_ind(&mut self, a: u8, b: u8, x: u64, next: u64) -> Attempt
        requires { AreArguments a b x next self.old }
        ensures acts { is_done result ≡ true → after_of self.new (exit_after result) ≡ outcome JumpInd self.old.program (state_of self.old) }
        ensures next { result ≡ Next → self.new.pc ≡ blob.next self.old.program self.old.pc }
        ensures same { result ≡ Attempt.Beyond → self.new ≡ self.old }
        ensures rest { ChangesStateAlone self.old self.new }
    {
        let through = address_from(self.value(a), x);
        match self.jump_through(through) {
            None => Attempt::Jumped,
            Some(Exit::Panic) => Attempt::Panics,
            Some(_) => Attempt::Beyond,
        }
    }

    /// A jump through the jump table.
    #[inline(never)]
    #[tactic(auto, unfolding(crate::specs::Effect::after))]
    pub(crate) fn jump_ind(
        &mut self,
        pc: u64,
        next: u64,
        skip: u8,
        bytes: u64,
    ) -> Result<Option<Exit>, AllocError>
        requires at { IsAt pc next skip bytes self.old }
        ensures acts { IfOk result (λ exit. after_of self.new exit ≡ after self.old.program (state_of self.old) (JumpsThrough (address ((value_in (state_of self.old) (arguments F6 self.old.program.code self.old.pc skip).a) + (arguments F6 self.old.program.code self.old.pc skip).x)))) }
        ensures made { IsOk result }
        ensures rest { ChangesStateAlone self.old self.new }
    {
        let args = register_and_immediate_in(bytes, skip);
        let through = address_from(self.value(args.a), args.x);
        Ok(self.jump_through(through))
    }

    /// A jump, after a register got an immediate.
    #[inline(never)]
    #[tactic(auto, unfolding(crate::specs::Effect::outcome, crate::specs::Effect::line, crate::specs::Effect::after, pvm_isa::specs::Opcodes::entry))]
    pub(crate) fn load_imm_jump(&mut self, pc: u64, next: u64, skip: u8, bytes: u64) -> Attempt
        requires at { IsAt pc next skip bytes self.old }
        ensures acts { after_of self.new (exit_after result) ≡ outcome LoadImmJump self.old.program (state_of self.old) }
        ensures next { result ≡ Next → self.new.pc ≡ blob.next self.old.program self.old.pc }
        ensures done { is_done result ≡ true }
        ensures rest { ChangesStateAlone self.old self.new }
    {
        let args = register_immediate_and_offset(self.program.code(), pc, skip);
        let target = args.target;
        self.set(args.a, args.x);
        self.jump(target)
    }

    /// A jump through the jump table by a register's old value, after a register got an immediate.
    #[inline(never)]
    #[tactic(auto, unfolding(crate::specs::Effect::after))]
    pub(crate) fn load_imm_jump_ind(
        &mut self,
        pc: u64,
        next: u64,
        skip: u8,
        bytes: u64,
    ) -> Result<Option<Exit>, AllocError>
        requires at { IsAt pc next skip bytes self.old }
        ensures acts { IfOk result (λ exit. after_of self.new exit ≡ after self.old.program (state_of self.old) (SetsAndJumpsThrough (arguments F12 self.old.program.code self.old.pc skip).a (arguments F12 self.old.program.code self.old.pc skip).x (address ((value_in (state_of self.old) (arguments F12 self.old.program.code self.old.pc skip).b) + (arguments F12 self.old.program.code self.old.pc skip).y)))) }
        ensures made { IsOk result }
        ensures rest { ChangesStateAlone self.old self.new }
    {
        let args = two_registers_and_two_immediates(self.program.code(), pc, skip);
        let by = address_from(self.value(args.b), args.y);
        self.set(args.a, args.x);
        Ok(self.jump_through(by))
    }

    // A jump to the target of an instruction of a register, an immediate and an offset.
    #[inline(never)]
    fn jump_by_offset(&mut self, pc: u64, next: u64, skip: u8, bytes: u64) -> Attempt
        requires at { IsAt pc next skip bytes self.old }
        ensures landed { after_of self.new (exit_after result) ≡ lands (state_of self.old) (blob.jump_to self.old.program (arguments F8 self.old.program.code self.old.pc skip).target) }
        ensures next { result ≡ Next → self.new.pc ≡ blob.next self.old.program self.old.pc }
        ensures done { is_done result ≡ true }
        ensures rest { ChangesStateAlone self.old self.new }
    {
        let args = register_immediate_and_offset_in(self.program.code(), bytes, pc, skip);
        self.jump(args.target)
    }

    /// A branch on the value of a register and an immediate.
    #[inline(always)]
    pub(crate) fn branch_on_a_x(
        &mut self,
        op: Op,
        a: u8,
        pc: u64,
        next: u64,
        skip: u8,
        bytes: u64,
    ) -> Attempt
        requires line { line op ≡ branches_on_a_x op }
        requires form { form_of op ≡ F8 }
        requires operation { IsTrue (alu.is_test op) }
        requires at { IsAt pc next skip bytes self.old }
        requires first { a ≡ (arguments F10 self.old.program.code self.old.pc (blob.skip self.old.program self.old.pc)).a }
        requires low { a < 13 }
        ensures acts { after_of self.new (exit_after result) ≡ outcome op self.old.program (state_of self.old) }
        ensures next { result ≡ Next → self.new.pc ≡ blob.next self.old.program self.old.pc }
        ensures done { is_done result ≡ true }
        ensures rest { ChangesStateAlone self.old self.new }
    {
        if test(op, self.value(a), immediate_before_offset_in(bytes)) {
            return self.jump_by_offset(pc, next, skip, bytes);
        }
        self.go_on(next);
        Attempt::Next
    }

    /// A branch on the values of two registers.
    #[inline(always)]
    pub(crate) fn branch_on_a_b(
        &mut self,
        op: Op,
        a: u8,
        b: u8,
        x: u64,
        pc: u64,
        next: u64,
    ) -> Attempt
        requires line { line op ≡ branches_on_a_b op }
        requires form { form_of op ≡ F11 }
        requires operation { IsTrue (alu.is_test op) }
        requires here { pc ≡ self.old.pc }
        requires within { self.old.pc < length self.old.program.code }
        requires read { AreArguments a b x next self.old }
        ensures acts { after_of self.new (exit_after result) ≡ outcome op self.old.program (state_of self.old) }
        ensures next { result ≡ Next → self.new.pc ≡ blob.next self.old.program self.old.pc }
        ensures done { is_done result ≡ true }
        ensures rest { ChangesStateAlone self.old self.new }
    {
        // The code is shorter than 2^63.
        let _code = self.program.code();
        let taken = test(op, self.value(a), self.value(b));
        self.branch(taken, at_distance(pc, x), next)
    }
}
