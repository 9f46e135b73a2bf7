// Instructions that give a register a value computed from registers and immediates. They are inlined in the loop of a
// run, but for those that would take it past the size up to which the compiler heeds the hint.
ghost use Rattle.std.specs.Prelude.{◌≡◌, IsTrue, true};
ghost use Rattle.pvm_isa.specs.Arguments.{IsWindow};
ghost use Rattle.pvm_isa.specs.Opcodes.{form_of};
ghost use Rattle.pvm_isa.specs.declared.form.Form.TheVariants.{F9, F10, F13};
ghost use Rattle.pvm_isa.specs.declared.op.Op.TheVariants.{LoadImm64, LoadImm, MoveReg, CmovIzImm, CmovNzImm, CmovIz, CmovNz};
ghost use Rattle.blob_decode.specs.Program as blob;
ghost use Rattle.pvm_alu.specs.Alu as alu;
ghost use Rattle.pvm_step.specs.Effect.{sets_of_a, sets_of_a_b, sets_of_b_x, line, outcome};
ghost use Rattle.pvm_step.specs.declared.attempt.Attempt.TheVariants.{Next};
ghost use Rattle.pvm_step.specs.Machine.{IsAt, AreArguments, ChangesStateAlone, state_of, after_of, exit_after, is_done};

use crate::attempt::Attempt;
use crate::machine::Machine;
use pvm_alu::{binary, unary};
use pvm_isa::{Op, register_and_wide_immediate, third_register_in};

impl Machine {
    /// An operation with the values of two registers.
    #[inline(always)]
    pub(crate) fn set_of_a_b(
        &mut self,
        op: Op,
        a: u8,
        b: u8,
        x: u64,
        next: u64,
        bytes: u64,
    ) -> Attempt
        requires line { line op ≡ sets_of_a_b op }
        requires form { form_of op ≡ F13 }
        requires operation { IsTrue (alu.is_binary op) }
        requires read { AreArguments a b x next self.old }
        requires window { IsWindow self.old.program.code self.old.pc bytes }
        ensures acts { after_of self.new (exit_after result) ≡ outcome op self.old.program (state_of self.old) }
        ensures next { result ≡ Next → self.new.pc ≡ blob.next self.old.program self.old.pc }
        ensures done { is_done result ≡ true }
        ensures rest { ChangesStateAlone self.old self.new }
    {
        let value = binary(op, self.value(a), self.value(b));
        self.set_and_go_on(third_register_in(bytes), value, next);
        Attempt::Next
    }

    /// An operation with the value of a register and an immediate.
    #[inline(always)]
    pub(crate) fn set_of_b_x(&mut self, op: Op, a: u8, b: u8, x: u64, next: u64) -> Attempt
        requires line { line op ≡ sets_of_b_x op }
        requires form { form_of op ≡ F10 }
        requires operation { IsTrue (alu.is_binary op) }
        requires read { AreArguments a b x next self.old }
        ensures acts { after_of self.new (exit_after result) ≡ outcome op self.old.program (state_of self.old) }
        ensures next { result ≡ Next → self.new.pc ≡ blob.next self.old.program self.old.pc }
        ensures done { is_done result ≡ true }
        ensures rest { ChangesStateAlone self.old self.new }
    {
        let value = binary(op, self.value(b), x);
        self.set_and_go_on(a, value, next);
        Attempt::Next
    }

    /// An operation with the value of a register.
    #[inline(always)]
    pub(crate) fn set_of_a(&mut self, op: Op, a: u8, b: u8, x: u64, next: u64) -> Attempt
        requires line { line op ≡ sets_of_a op }
        requires form { form_of op ≡ F9 }
        requires operation { IsTrue (alu.is_unary op) }
        requires read { AreArguments a b x next self.old }
        ensures acts { after_of self.new (exit_after result) ≡ outcome op self.old.program (state_of self.old) }
        ensures next { result ≡ Next → self.new.pc ≡ blob.next self.old.program self.old.pc }
        ensures done { is_done result ≡ true }
        ensures rest { ChangesStateAlone self.old self.new }
    {
        let value = unary(op, self.value(b));
        self.set_and_go_on(a, value, next);
        Attempt::Next
    }

    /// An immediate of 64 bits.
    #[inline(never)]
    #[tactic(auto, unfolding(crate::specs::Effect::outcome, crate::specs::Effect::line, pvm_isa::specs::Opcodes::entry))]
    pub(crate) fn load_imm_64(&mut self, pc: u64, next: u64, skip: u8, bytes: u64) -> Attempt
        requires at { IsAt pc next skip bytes self.old }
        ensures acts { after_of self.new (exit_after result) ≡ outcome LoadImm64 self.old.program (state_of self.old) }
        ensures next { result ≡ Next → self.new.pc ≡ blob.next self.old.program self.old.pc }
        ensures done { is_done result ≡ true }
        ensures rest { ChangesStateAlone self.old self.new }
    {
        let args = register_and_wide_immediate(self.program.code(), pc);
        self.set_and_go_on(args.a, args.x, next);
        Attempt::Next
    }

    /// An immediate.
    #[inline(always)]
    #[tactic(auto, unfolding(crate::specs::Effect::outcome, crate::specs::Effect::line, pvm_isa::specs::Opcodes::entry, pvm_isa::specs::Arguments::arguments))]
    pub(crate) fn load_imm(&mut self, a: u8, b: u8, x: u64, next: u64) -> Attempt
        requires { AreArguments a b x next self.old }
        ensures acts { after_of self.new (exit_after result) ≡ outcome LoadImm self.old.program (state_of self.old) }
        ensures next { result ≡ Next → self.new.pc ≡ blob.next self.old.program self.old.pc }
        ensures done { is_done result ≡ true }
        ensures rest { ChangesStateAlone self.old self.new }
    {
        self.set_and_go_on(a, x, next);
        Attempt::Next
    }

    /// A register's value.
    #[inline(always)]
    #[tactic(auto, unfolding(crate::specs::Effect::outcome, crate::specs::Effect::line, pvm_isa::specs::Opcodes::entry, pvm_isa::specs::Arguments::arguments))]
    pub(crate) fn move_reg(&mut self, a: u8, b: u8, x: u64, next: u64) -> Attempt
        requires { AreArguments a b x next self.old }
        ensures acts { after_of self.new (exit_after result) ≡ outcome MoveReg self.old.program (state_of self.old) }
        ensures next { result ≡ Next → self.new.pc ≡ blob.next self.old.program self.old.pc }
        ensures done { is_done result ≡ true }
        ensures rest { ChangesStateAlone self.old self.new }
    {
        let value = self.value(b);
        self.set_and_go_on(a, value, next);
        Attempt::Next
    }

    /// An immediate where a register is 0.
    #[inline(never)]
    #[tactic(auto, unfolding(crate::specs::Effect::outcome, crate::specs::Effect::line, pvm_isa::specs::Opcodes::entry, pvm_isa::specs::Arguments::arguments))]
    pub(crate) fn cmov_iz_imm(&mut self, a: u8, b: u8, x: u64, next: u64) -> Attempt
        requires { AreArguments a b x next self.old }
        ensures acts { after_of self.new (exit_after result) ≡ outcome CmovIzImm self.old.program (state_of self.old) }
        ensures next { result ≡ Next → self.new.pc ≡ blob.next self.old.program self.old.pc }
        ensures done { is_done result ≡ true }
        ensures rest { ChangesStateAlone self.old self.new }
    {
        let holds = self.value(b) == 0;
        self.move_where(holds, a, x, next);
        Attempt::Next
    }

    /// An immediate where a register is not 0.
    #[inline(never)]
    #[tactic(auto, unfolding(crate::specs::Effect::outcome, crate::specs::Effect::line, pvm_isa::specs::Opcodes::entry, pvm_isa::specs::Arguments::arguments))]
    pub(crate) fn cmov_nz_imm(&mut self, a: u8, b: u8, x: u64, next: u64) -> Attempt
        requires { AreArguments a b x next self.old }
        ensures acts { after_of self.new (exit_after result) ≡ outcome CmovNzImm self.old.program (state_of self.old) }
        ensures next { result ≡ Next → self.new.pc ≡ blob.next self.old.program self.old.pc }
        ensures done { is_done result ≡ true }
        ensures rest { ChangesStateAlone self.old self.new }
    {
        let holds = self.value(b) != 0;
        self.move_where(holds, a, x, next);
        Attempt::Next
    }

    /// A register's value where another is 0.
    #[inline(always)]
    #[tactic(auto, unfolding(crate::specs::Effect::outcome, crate::specs::Effect::line, pvm_isa::specs::Opcodes::entry, pvm_isa::specs::Arguments::arguments))]
    pub(crate) fn cmov_iz(&mut self, a: u8, b: u8, x: u64, next: u64, bytes: u64) -> Attempt
        requires read { AreArguments a b x next self.old }
        requires window { IsWindow self.old.program.code self.old.pc bytes }
        ensures acts { after_of self.new (exit_after result) ≡ outcome CmovIz self.old.program (state_of self.old) }
        ensures next { result ≡ Next → self.new.pc ≡ blob.next self.old.program self.old.pc }
        ensures done { is_done result ≡ true }
        ensures rest { ChangesStateAlone self.old self.new }
    {
        let holds = self.value(b) == 0;
        let value = self.value(a);
        self.move_where(holds, third_register_in(bytes), value, next);
        Attempt::Next
    }

    /// A register's value where another is not 0.
    #[inline(always)]
    #[tactic(auto, unfolding(crate::specs::Effect::outcome, crate::specs::Effect::line, pvm_isa::specs::Opcodes::entry, pvm_isa::specs::Arguments::arguments))]
    pub(crate) fn cmov_nz(&mut self, a: u8, b: u8, x: u64, next: u64, bytes: u64) -> Attempt
        requires read { AreArguments a b x next self.old }
        requires window { IsWindow self.old.program.code self.old.pc bytes }
        ensures acts { after_of self.new (exit_after result) ≡ outcome CmovNz self.old.program (state_of self.old) }
        ensures next { result ≡ Next → self.new.pc ≡ blob.next self.old.program self.old.pc }
        ensures done { is_done result ≡ true }
        ensures rest { ChangesStateAlone self.old self.new }
    {
        let holds = self.value(b) != 0;
        let value = self.value(a);
        self.move_where(holds, third_register_in(bytes), value, next);
        Attempt::Next
    }
}
