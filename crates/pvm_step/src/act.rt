// What each opcode does. Each arm names its opcode, so that only the work of that one is left in it.
ghost use Rattle.std.specs.Prelude.{◌≡◌, true, false, IfOk, OnErr};
ghost use Rattle.blob_decode.specs.Program as blob;
ghost use Rattle.pvm_step.specs.Effect.{outcome, act_of};
ghost use Rattle.pvm_step.specs.declared.attempt.Attempt.TheVariants.{Next};
ghost use Rattle.pvm_step.specs.Machine.{IsAt, AreArguments, ChangesStateAlone, state_of, after_of, exit_after, is_done};
ghost use Rattle.pvm_step.specs.Named.{on_registers, changes_memory};

use crate::attempt::Attempt;
use crate::exit::Exit;
use crate::machine::Machine;
use crate::watcher::Watcher;
use pvm_isa::Op;
use std::alloc::AllocError;

impl Machine {
    /// Does the instruction of an opcode that works on the registers alone, and of one that loads or stores a register,
    /// where it is not refused and wants no memory; else nothing. There is one for each loop of a run, since the compiler
    /// takes it into the loop only where nothing else calls it.
    #[inline(always)]
    #[tactic(auto, unfolding(crate::specs::Effect::line, crate::specs::Named::on_registers, pvm_isa::specs::Opcodes::entry, pvm_alu::specs::Alu::binary_line, pvm_alu::specs::Alu::unary_line, pvm_alu::specs::Alu::test_line, pvm_alu::specs::Alu::widen_line, pvm_alu::specs::Alu::loaded_bytes))]
    pub(crate) fn act_on_registers<const PLAIN: bool, W: Watcher>(
        &mut self,
        op: Op,
        pc: u64,
        next: u64,
        skip: u8,
        bytes: u64,
        a: u8,
        b: u8,
        x: u64,
    ) -> Attempt
        requires at { IsAt pc next skip bytes self.old }
        requires read { AreArguments a b x next self.old }
        ensures acts { is_done result ≡ true → after_of self.new (exit_after result) ≡ outcome op self.old.program (state_of self.old) }
        ensures next { result ≡ Next → self.new.pc ≡ blob.next self.old.program self.old.pc }
        ensures done { on_registers op ≡ true → is_done result ≡ true }
        ensures same { result ≡ Attempt.Beyond → self.new ≡ self.old }
        ensures rest { ChangesStateAlone self.old self.new }
    {
        match op {
            Op::Trap => Attempt::Panics,
            Op::Fallthrough => self.fall_through(pc, next, skip, bytes),
            Op::LoadImm64 => self.load_imm_64(pc, next, skip, bytes),
            Op::Jump => self.jump_on(pc, next, skip, bytes),
            Op::JumpInd => self.try_jump_ind(a, b, x, next),
            Op::LoadImm => self.load_imm(a, b, x, next),
            Op::LoadImmJump => self.load_imm_jump(pc, next, skip, bytes),
            Op::BranchEqImm => self.branch_on_a_x(Op::BranchEqImm, a, pc, next, skip, bytes),
            Op::BranchNeImm => self.branch_on_a_x(Op::BranchNeImm, a, pc, next, skip, bytes),
            Op::BranchLtUImm => self.branch_on_a_x(Op::BranchLtUImm, a, pc, next, skip, bytes),
            Op::BranchLeUImm => self.branch_on_a_x(Op::BranchLeUImm, a, pc, next, skip, bytes),
            Op::BranchGeUImm => self.branch_on_a_x(Op::BranchGeUImm, a, pc, next, skip, bytes),
            Op::BranchGtUImm => self.branch_on_a_x(Op::BranchGtUImm, a, pc, next, skip, bytes),
            Op::BranchLtSImm => self.branch_on_a_x(Op::BranchLtSImm, a, pc, next, skip, bytes),
            Op::BranchLeSImm => self.branch_on_a_x(Op::BranchLeSImm, a, pc, next, skip, bytes),
            Op::BranchGeSImm => self.branch_on_a_x(Op::BranchGeSImm, a, pc, next, skip, bytes),
            Op::BranchGtSImm => self.branch_on_a_x(Op::BranchGtSImm, a, pc, next, skip, bytes),
            Op::MoveReg => self.move_reg(a, b, x, next),
            Op::CountSetBits64 => self.set_of_a(Op::CountSetBits64, a, b, x, next),
            Op::CountSetBits32 => self.set_of_a(Op::CountSetBits32, a, b, x, next),
            Op::LeadingZeroBits64 => self.set_of_a(Op::LeadingZeroBits64, a, b, x, next),
            Op::LeadingZeroBits32 => self.set_of_a(Op::LeadingZeroBits32, a, b, x, next),
            Op::TrailingZeroBits64 => self.set_of_a(Op::TrailingZeroBits64, a, b, x, next),
            Op::TrailingZeroBits32 => self.set_of_a(Op::TrailingZeroBits32, a, b, x, next),
            Op::SignExtend8 => self.set_of_a(Op::SignExtend8, a, b, x, next),
            Op::SignExtend16 => self.set_of_a(Op::SignExtend16, a, b, x, next),
            Op::ZeroExtend16 => self.set_of_a(Op::ZeroExtend16, a, b, x, next),
            Op::ReverseBytes => self.set_of_a(Op::ReverseBytes, a, b, x, next),
            Op::AddImm32 => self.set_of_b_x(Op::AddImm32, a, b, x, next),
            Op::AndImm => self.set_of_b_x(Op::AndImm, a, b, x, next),
            Op::XorImm => self.set_of_b_x(Op::XorImm, a, b, x, next),
            Op::OrImm => self.set_of_b_x(Op::OrImm, a, b, x, next),
            Op::MulImm32 => self.set_of_b_x(Op::MulImm32, a, b, x, next),
            Op::SetLtUImm => self.set_of_b_x(Op::SetLtUImm, a, b, x, next),
            Op::SetLtSImm => self.set_of_b_x(Op::SetLtSImm, a, b, x, next),
            Op::ShloLImm32 => self.set_of_b_x(Op::ShloLImm32, a, b, x, next),
            Op::ShloRImm32 => self.set_of_b_x(Op::ShloRImm32, a, b, x, next),
            Op::SharRImm32 => self.set_of_b_x(Op::SharRImm32, a, b, x, next),
            Op::NegAddImm32 => self.set_of_b_x(Op::NegAddImm32, a, b, x, next),
            Op::SetGtUImm => self.set_of_b_x(Op::SetGtUImm, a, b, x, next),
            Op::SetGtSImm => self.set_of_b_x(Op::SetGtSImm, a, b, x, next),
            Op::ShloLImmAlt32 => self.set_of_b_x(Op::ShloLImmAlt32, a, b, x, next),
            Op::ShloRImmAlt32 => self.set_of_b_x(Op::ShloRImmAlt32, a, b, x, next),
            Op::SharRImmAlt32 => self.set_of_b_x(Op::SharRImmAlt32, a, b, x, next),
            Op::CmovIzImm => self.cmov_iz_imm(a, b, x, next),
            Op::CmovNzImm => self.cmov_nz_imm(a, b, x, next),
            Op::AddImm64 => self.set_of_b_x(Op::AddImm64, a, b, x, next),
            Op::MulImm64 => self.set_of_b_x(Op::MulImm64, a, b, x, next),
            Op::ShloLImm64 => self.set_of_b_x(Op::ShloLImm64, a, b, x, next),
            Op::ShloRImm64 => self.set_of_b_x(Op::ShloRImm64, a, b, x, next),
            Op::SharRImm64 => self.set_of_b_x(Op::SharRImm64, a, b, x, next),
            Op::NegAddImm64 => self.set_of_b_x(Op::NegAddImm64, a, b, x, next),
            Op::ShloLImmAlt64 => self.set_of_b_x(Op::ShloLImmAlt64, a, b, x, next),
            Op::ShloRImmAlt64 => self.set_of_b_x(Op::ShloRImmAlt64, a, b, x, next),
            Op::SharRImmAlt64 => self.set_of_b_x(Op::SharRImmAlt64, a, b, x, next),
            Op::RotR64Imm => self.set_of_b_x(Op::RotR64Imm, a, b, x, next),
            Op::RotR64ImmAlt => self.set_of_b_x(Op::RotR64ImmAlt, a, b, x, next),
            Op::RotR32Imm => self.set_of_b_x(Op::RotR32Imm, a, b, x, next),
            Op::RotR32ImmAlt => self.set_of_b_x(Op::RotR32ImmAlt, a, b, x, next),
            Op::BranchEq => self.branch_on_a_b(Op::BranchEq, a, b, x, pc, next),
            Op::BranchNe => self.branch_on_a_b(Op::BranchNe, a, b, x, pc, next),
            Op::BranchLtU => self.branch_on_a_b(Op::BranchLtU, a, b, x, pc, next),
            Op::BranchLtS => self.branch_on_a_b(Op::BranchLtS, a, b, x, pc, next),
            Op::BranchGeU => self.branch_on_a_b(Op::BranchGeU, a, b, x, pc, next),
            Op::BranchGeS => self.branch_on_a_b(Op::BranchGeS, a, b, x, pc, next),
            Op::Add32 => self.set_of_a_b(Op::Add32, a, b, x, next, bytes),
            Op::Sub32 => self.set_of_a_b(Op::Sub32, a, b, x, next, bytes),
            Op::Mul32 => self.set_of_a_b(Op::Mul32, a, b, x, next, bytes),
            Op::DivU32 => self.set_of_a_b(Op::DivU32, a, b, x, next, bytes),
            Op::DivS32 => self.set_of_a_b(Op::DivS32, a, b, x, next, bytes),
            Op::RemU32 => self.set_of_a_b(Op::RemU32, a, b, x, next, bytes),
            Op::RemS32 => self.set_of_a_b(Op::RemS32, a, b, x, next, bytes),
            Op::ShloL32 => self.set_of_a_b(Op::ShloL32, a, b, x, next, bytes),
            Op::ShloR32 => self.set_of_a_b(Op::ShloR32, a, b, x, next, bytes),
            Op::SharR32 => self.set_of_a_b(Op::SharR32, a, b, x, next, bytes),
            Op::Add64 => self.set_of_a_b(Op::Add64, a, b, x, next, bytes),
            Op::Sub64 => self.set_of_a_b(Op::Sub64, a, b, x, next, bytes),
            Op::Mul64 => self.set_of_a_b(Op::Mul64, a, b, x, next, bytes),
            Op::DivU64 => self.set_of_a_b(Op::DivU64, a, b, x, next, bytes),
            Op::DivS64 => self.set_of_a_b(Op::DivS64, a, b, x, next, bytes),
            Op::RemU64 => self.set_of_a_b(Op::RemU64, a, b, x, next, bytes),
            Op::RemS64 => self.set_of_a_b(Op::RemS64, a, b, x, next, bytes),
            Op::ShloL64 => self.set_of_a_b(Op::ShloL64, a, b, x, next, bytes),
            Op::ShloR64 => self.set_of_a_b(Op::ShloR64, a, b, x, next, bytes),
            Op::SharR64 => self.set_of_a_b(Op::SharR64, a, b, x, next, bytes),
            Op::And => self.set_of_a_b(Op::And, a, b, x, next, bytes),
            Op::Xor => self.set_of_a_b(Op::Xor, a, b, x, next, bytes),
            Op::Or => self.set_of_a_b(Op::Or, a, b, x, next, bytes),
            Op::MulUpperSS => self.set_of_a_b(Op::MulUpperSS, a, b, x, next, bytes),
            Op::MulUpperUU => self.set_of_a_b(Op::MulUpperUU, a, b, x, next, bytes),
            Op::MulUpperSU => self.set_of_a_b(Op::MulUpperSU, a, b, x, next, bytes),
            Op::SetLtU => self.set_of_a_b(Op::SetLtU, a, b, x, next, bytes),
            Op::SetLtS => self.set_of_a_b(Op::SetLtS, a, b, x, next, bytes),
            Op::CmovIz => self.cmov_iz(a, b, x, next, bytes),
            Op::CmovNz => self.cmov_nz(a, b, x, next, bytes),
            Op::RotL64 => self.set_of_a_b(Op::RotL64, a, b, x, next, bytes),
            Op::RotL32 => self.set_of_a_b(Op::RotL32, a, b, x, next, bytes),
            Op::RotR64 => self.set_of_a_b(Op::RotR64, a, b, x, next, bytes),
            Op::RotR32 => self.set_of_a_b(Op::RotR32, a, b, x, next, bytes),
            Op::AndInv => self.set_of_a_b(Op::AndInv, a, b, x, next, bytes),
            Op::OrInv => self.set_of_a_b(Op::OrInv, a, b, x, next, bytes),
            Op::Xnor => self.set_of_a_b(Op::Xnor, a, b, x, next, bytes),
            Op::Max => self.set_of_a_b(Op::Max, a, b, x, next, bytes),
            Op::MaxU => self.set_of_a_b(Op::MaxU, a, b, x, next, bytes),
            Op::Min => self.set_of_a_b(Op::Min, a, b, x, next, bytes),
            Op::MinU => self.set_of_a_b(Op::MinU, a, b, x, next, bytes),
            Op::LoadU8 => self.try_load_at_x(Op::LoadU8, 1, a, b, x, next),
            Op::LoadI8 => self.try_load_at_x(Op::LoadI8, 1, a, b, x, next),
            Op::LoadU16 => self.try_load_at_x(Op::LoadU16, 2, a, b, x, next),
            Op::LoadI16 => self.try_load_at_x(Op::LoadI16, 2, a, b, x, next),
            Op::LoadU32 => self.try_load_at_x(Op::LoadU32, 4, a, b, x, next),
            Op::LoadI32 => self.try_load_at_x(Op::LoadI32, 4, a, b, x, next),
            Op::LoadU64 => self.try_load_at_x(Op::LoadU64, 8, a, b, x, next),
            Op::LoadIndU8 => self.try_load_at_b_x(Op::LoadIndU8, 1, a, b, x, next),
            Op::LoadIndI8 => self.try_load_at_b_x(Op::LoadIndI8, 1, a, b, x, next),
            Op::LoadIndU16 => self.try_load_at_b_x(Op::LoadIndU16, 2, a, b, x, next),
            Op::LoadIndI16 => self.try_load_at_b_x(Op::LoadIndI16, 2, a, b, x, next),
            Op::LoadIndU32 => self.try_load_at_b_x(Op::LoadIndU32, 4, a, b, x, next),
            Op::LoadIndI32 => self.try_load_at_b_x(Op::LoadIndI32, 4, a, b, x, next),
            Op::LoadIndU64 => self.try_load_at_b_x(Op::LoadIndU64, 8, a, b, x, next),
            Op::StoreU8 => self.try_store_a_at_x(Op::StoreU8, 1, a, b, x, next),
            Op::StoreU16 => self.try_store_a_at_x(Op::StoreU16, 2, a, b, x, next),
            Op::StoreU32 => self.try_store_a_at_x(Op::StoreU32, 4, a, b, x, next),
            Op::StoreU64 => self.try_store_a_at_x(Op::StoreU64, 8, a, b, x, next),
            Op::StoreIndU8 => self.try_store_a_at_b_x(Op::StoreIndU8, 1, a, b, x, next),
            Op::StoreIndU16 => self.try_store_a_at_b_x(Op::StoreIndU16, 2, a, b, x, next),
            Op::StoreIndU32 => self.try_store_a_at_b_x(Op::StoreIndU32, 4, a, b, x, next),
            Op::StoreIndU64 => self.try_store_a_at_b_x(Op::StoreIndU64, 8, a, b, x, next),
            _ => Attempt::Beyond,
        }
    }

    /// What another opcode does at the pc.
    #[inline(never)]
    #[tactic(auto, unfolding(crate::specs::Effect::outcome, crate::specs::Effect::line, crate::specs::Effect::after, crate::specs::Named::on_registers, pvm_isa::specs::Opcodes::entry, pvm_alu::specs::Alu::widen_line, pvm_alu::specs::Alu::loaded_bytes))]
    pub(crate) fn act_beyond(
        &mut self,
        op: Op,
        pc: u64,
        next: u64,
        skip: u8,
        bytes: u64,
    ) -> Result<Option<Exit>, AllocError>
        requires at { IsAt pc next skip bytes self.old }
        requires kind { on_registers op ≡ false }
        ensures acts { IfOk result (λ exit. after_of self.new exit ≡ outcome op self.old.program (state_of self.old)) }
        ensures rest { ChangesStateAlone self.old self.new }
        ensures err { OnErr result (self.new ≡ self.old) }
        ensures wants { OnErr result (changes_memory (act_of op self.old.program (state_of self.old)) ≡ true) }
    {
        match op {
            Op::Ecalli => Ok(self.call_host(pc, next, skip, bytes)),
            Op::StoreImmU8 => self.store_y_at_x(1, pc, next, skip, bytes),
            Op::StoreImmU16 => self.store_y_at_x(2, pc, next, skip, bytes),
            Op::StoreImmU32 => self.store_y_at_x(4, pc, next, skip, bytes),
            Op::StoreImmU64 => self.store_y_at_x(8, pc, next, skip, bytes),
            Op::JumpInd => self.jump_ind(pc, next, skip, bytes),
            Op::LoadU8 => self.load_at_x(Op::LoadU8, 1, pc, next, skip, bytes),
            Op::LoadI8 => self.load_at_x(Op::LoadI8, 1, pc, next, skip, bytes),
            Op::LoadU16 => self.load_at_x(Op::LoadU16, 2, pc, next, skip, bytes),
            Op::LoadI16 => self.load_at_x(Op::LoadI16, 2, pc, next, skip, bytes),
            Op::LoadU32 => self.load_at_x(Op::LoadU32, 4, pc, next, skip, bytes),
            Op::LoadI32 => self.load_at_x(Op::LoadI32, 4, pc, next, skip, bytes),
            Op::LoadU64 => self.load_at_x(Op::LoadU64, 8, pc, next, skip, bytes),
            Op::StoreU8 => self.store_a_at_x(1, pc, next, skip, bytes),
            Op::StoreU16 => self.store_a_at_x(2, pc, next, skip, bytes),
            Op::StoreU32 => self.store_a_at_x(4, pc, next, skip, bytes),
            Op::StoreU64 => self.store_a_at_x(8, pc, next, skip, bytes),
            Op::StoreImmIndU8 => self.store_y_at_a_x(1, pc, next, skip, bytes),
            Op::StoreImmIndU16 => self.store_y_at_a_x(2, pc, next, skip, bytes),
            Op::StoreImmIndU32 => self.store_y_at_a_x(4, pc, next, skip, bytes),
            Op::StoreImmIndU64 => self.store_y_at_a_x(8, pc, next, skip, bytes),
            Op::Sbrk => self.sbrk(pc, next, skip, bytes),
            Op::StoreIndU8 => self.store_a_at_b_x(1, pc, next, skip, bytes),
            Op::StoreIndU16 => self.store_a_at_b_x(2, pc, next, skip, bytes),
            Op::StoreIndU32 => self.store_a_at_b_x(4, pc, next, skip, bytes),
            Op::StoreIndU64 => self.store_a_at_b_x(8, pc, next, skip, bytes),
            Op::LoadIndU8 => self.load_at_b_x(Op::LoadIndU8, 1, pc, next, skip, bytes),
            Op::LoadIndI8 => self.load_at_b_x(Op::LoadIndI8, 1, pc, next, skip, bytes),
            Op::LoadIndU16 => self.load_at_b_x(Op::LoadIndU16, 2, pc, next, skip, bytes),
            Op::LoadIndI16 => self.load_at_b_x(Op::LoadIndI16, 2, pc, next, skip, bytes),
            Op::LoadIndU32 => self.load_at_b_x(Op::LoadIndU32, 4, pc, next, skip, bytes),
            Op::LoadIndI32 => self.load_at_b_x(Op::LoadIndI32, 4, pc, next, skip, bytes),
            Op::LoadIndU64 => self.load_at_b_x(Op::LoadIndU64, 8, pc, next, skip, bytes),
            Op::LoadImmJumpInd => self.load_imm_jump_ind(pc, next, skip, bytes),
            _ => unreachable!(),
        }
    }
}
