// The table of opcodes.
ghost use Rattle.std.specs.Prelude.{◌≡◌, ◌≢◌, MatchOption, unwrap_or};
ghost use Rattle.pvm_isa.specs.declared.op.Op.{Op};
ghost use Rattle.pvm_isa.specs.declared.op.Op.TheVariants.{Trap};
ghost use Rattle.pvm_isa.specs.Opcodes.{number_of, name_of, form_of, op_numbered};
ghost use Rattle.pvm_isa.specs.Terminators.{is_terminator};

use crate::form::Form;
use crate::op::Op;

// Numbers that are not defined act as trap.
const UNDEFINED: (Op, Form) = (Op::Trap, Form::F1);

// The opcode of each number, and its form.
static OPCODES: [(Op, Form); 256] = [
    (Op::Trap, Form::F1),
    (Op::Fallthrough, Form::F1),
    UNDEFINED,
    UNDEFINED,
    UNDEFINED,
    UNDEFINED,
    UNDEFINED,
    UNDEFINED,
    UNDEFINED,
    UNDEFINED,
    (Op::Ecalli, Form::F2),
    UNDEFINED,
    UNDEFINED,
    UNDEFINED,
    UNDEFINED,
    UNDEFINED,
    UNDEFINED,
    UNDEFINED,
    UNDEFINED,
    UNDEFINED,
    (Op::LoadImm64, Form::F3),
    UNDEFINED,
    UNDEFINED,
    UNDEFINED,
    UNDEFINED,
    UNDEFINED,
    UNDEFINED,
    UNDEFINED,
    UNDEFINED,
    UNDEFINED,
    (Op::StoreImmU8, Form::F4),
    (Op::StoreImmU16, Form::F4),
    (Op::StoreImmU32, Form::F4),
    (Op::StoreImmU64, Form::F4),
    UNDEFINED,
    UNDEFINED,
    UNDEFINED,
    UNDEFINED,
    UNDEFINED,
    UNDEFINED,
    (Op::Jump, Form::F5),
    UNDEFINED,
    UNDEFINED,
    UNDEFINED,
    UNDEFINED,
    UNDEFINED,
    UNDEFINED,
    UNDEFINED,
    UNDEFINED,
    UNDEFINED,
    (Op::JumpInd, Form::F6),
    (Op::LoadImm, Form::F6),
    (Op::LoadU8, Form::F6),
    (Op::LoadI8, Form::F6),
    (Op::LoadU16, Form::F6),
    (Op::LoadI16, Form::F6),
    (Op::LoadU32, Form::F6),
    (Op::LoadI32, Form::F6),
    (Op::LoadU64, Form::F6),
    (Op::StoreU8, Form::F6),
    (Op::StoreU16, Form::F6),
    (Op::StoreU32, Form::F6),
    (Op::StoreU64, Form::F6),
    UNDEFINED,
    UNDEFINED,
    UNDEFINED,
    UNDEFINED,
    UNDEFINED,
    UNDEFINED,
    UNDEFINED,
    (Op::StoreImmIndU8, Form::F7),
    (Op::StoreImmIndU16, Form::F7),
    (Op::StoreImmIndU32, Form::F7),
    (Op::StoreImmIndU64, Form::F7),
    UNDEFINED,
    UNDEFINED,
    UNDEFINED,
    UNDEFINED,
    UNDEFINED,
    UNDEFINED,
    (Op::LoadImmJump, Form::F8),
    (Op::BranchEqImm, Form::F8),
    (Op::BranchNeImm, Form::F8),
    (Op::BranchLtUImm, Form::F8),
    (Op::BranchLeUImm, Form::F8),
    (Op::BranchGeUImm, Form::F8),
    (Op::BranchGtUImm, Form::F8),
    (Op::BranchLtSImm, Form::F8),
    (Op::BranchLeSImm, Form::F8),
    (Op::BranchGeSImm, Form::F8),
    (Op::BranchGtSImm, Form::F8),
    UNDEFINED,
    UNDEFINED,
    UNDEFINED,
    UNDEFINED,
    UNDEFINED,
    UNDEFINED,
    UNDEFINED,
    UNDEFINED,
    UNDEFINED,
    (Op::MoveReg, Form::F9),
    (Op::Sbrk, Form::F9),
    (Op::CountSetBits64, Form::F9),
    (Op::CountSetBits32, Form::F9),
    (Op::LeadingZeroBits64, Form::F9),
    (Op::LeadingZeroBits32, Form::F9),
    (Op::TrailingZeroBits64, Form::F9),
    (Op::TrailingZeroBits32, Form::F9),
    (Op::SignExtend8, Form::F9),
    (Op::SignExtend16, Form::F9),
    (Op::ZeroExtend16, Form::F9),
    (Op::ReverseBytes, Form::F9),
    UNDEFINED,
    UNDEFINED,
    UNDEFINED,
    UNDEFINED,
    UNDEFINED,
    UNDEFINED,
    UNDEFINED,
    UNDEFINED,
    (Op::StoreIndU8, Form::F10),
    (Op::StoreIndU16, Form::F10),
    (Op::StoreIndU32, Form::F10),
    (Op::StoreIndU64, Form::F10),
    (Op::LoadIndU8, Form::F10),
    (Op::LoadIndI8, Form::F10),
    (Op::LoadIndU16, Form::F10),
    (Op::LoadIndI16, Form::F10),
    (Op::LoadIndU32, Form::F10),
    (Op::LoadIndI32, Form::F10),
    (Op::LoadIndU64, Form::F10),
    (Op::AddImm32, Form::F10),
    (Op::AndImm, Form::F10),
    (Op::XorImm, Form::F10),
    (Op::OrImm, Form::F10),
    (Op::MulImm32, Form::F10),
    (Op::SetLtUImm, Form::F10),
    (Op::SetLtSImm, Form::F10),
    (Op::ShloLImm32, Form::F10),
    (Op::ShloRImm32, Form::F10),
    (Op::SharRImm32, Form::F10),
    (Op::NegAddImm32, Form::F10),
    (Op::SetGtUImm, Form::F10),
    (Op::SetGtSImm, Form::F10),
    (Op::ShloLImmAlt32, Form::F10),
    (Op::ShloRImmAlt32, Form::F10),
    (Op::SharRImmAlt32, Form::F10),
    (Op::CmovIzImm, Form::F10),
    (Op::CmovNzImm, Form::F10),
    (Op::AddImm64, Form::F10),
    (Op::MulImm64, Form::F10),
    (Op::ShloLImm64, Form::F10),
    (Op::ShloRImm64, Form::F10),
    (Op::SharRImm64, Form::F10),
    (Op::NegAddImm64, Form::F10),
    (Op::ShloLImmAlt64, Form::F10),
    (Op::ShloRImmAlt64, Form::F10),
    (Op::SharRImmAlt64, Form::F10),
    (Op::RotR64Imm, Form::F10),
    (Op::RotR64ImmAlt, Form::F10),
    (Op::RotR32Imm, Form::F10),
    (Op::RotR32ImmAlt, Form::F10),
    UNDEFINED,
    UNDEFINED,
    UNDEFINED,
    UNDEFINED,
    UNDEFINED,
    UNDEFINED,
    UNDEFINED,
    UNDEFINED,
    (Op::BranchEq, Form::F11),
    (Op::BranchNe, Form::F11),
    (Op::BranchLtU, Form::F11),
    (Op::BranchLtS, Form::F11),
    (Op::BranchGeU, Form::F11),
    (Op::BranchGeS, Form::F11),
    UNDEFINED,
    UNDEFINED,
    UNDEFINED,
    UNDEFINED,
    (Op::LoadImmJumpInd, Form::F12),
    UNDEFINED,
    UNDEFINED,
    UNDEFINED,
    UNDEFINED,
    UNDEFINED,
    UNDEFINED,
    UNDEFINED,
    UNDEFINED,
    UNDEFINED,
    (Op::Add32, Form::F13),
    (Op::Sub32, Form::F13),
    (Op::Mul32, Form::F13),
    (Op::DivU32, Form::F13),
    (Op::DivS32, Form::F13),
    (Op::RemU32, Form::F13),
    (Op::RemS32, Form::F13),
    (Op::ShloL32, Form::F13),
    (Op::ShloR32, Form::F13),
    (Op::SharR32, Form::F13),
    (Op::Add64, Form::F13),
    (Op::Sub64, Form::F13),
    (Op::Mul64, Form::F13),
    (Op::DivU64, Form::F13),
    (Op::DivS64, Form::F13),
    (Op::RemU64, Form::F13),
    (Op::RemS64, Form::F13),
    (Op::ShloL64, Form::F13),
    (Op::ShloR64, Form::F13),
    (Op::SharR64, Form::F13),
    (Op::And, Form::F13),
    (Op::Xor, Form::F13),
    (Op::Or, Form::F13),
    (Op::MulUpperSS, Form::F13),
    (Op::MulUpperUU, Form::F13),
    (Op::MulUpperSU, Form::F13),
    (Op::SetLtU, Form::F13),
    (Op::SetLtS, Form::F13),
    (Op::CmovIz, Form::F13),
    (Op::CmovNz, Form::F13),
    (Op::RotL64, Form::F13),
    (Op::RotL32, Form::F13),
    (Op::RotR64, Form::F13),
    (Op::RotR32, Form::F13),
    (Op::AndInv, Form::F13),
    (Op::OrInv, Form::F13),
    (Op::Xnor, Form::F13),
    (Op::Max, Form::F13),
    (Op::MaxU, Form::F13),
    (Op::Min, Form::F13),
    (Op::MinU, Form::F13),
    UNDEFINED,
    UNDEFINED,
    UNDEFINED,
    UNDEFINED,
    UNDEFINED,
    UNDEFINED,
    UNDEFINED,
    UNDEFINED,
    UNDEFINED,
    UNDEFINED,
    UNDEFINED,
    UNDEFINED,
    UNDEFINED,
    UNDEFINED,
    UNDEFINED,
    UNDEFINED,
    UNDEFINED,
    UNDEFINED,
    UNDEFINED,
    UNDEFINED,
    UNDEFINED,
    UNDEFINED,
    UNDEFINED,
    UNDEFINED,
    UNDEFINED,
];
/// The number of an opcode.
#[inline]
#[tactic(auto, unfolding(crate::specs::Opcodes::entry))]
pub fn number_of(op: Op) -> u8
    ensures { result ≡ number_of op }
{
    op as u8
}

/// The opcode of a number; `Trap` for a number that is not defined.
#[inline]
pub fn op_or_trap(byte: u8) -> Op
    ensures { result ≡ unwrap_or (op_numbered byte) Trap }
{
    OPCODES[usize::from(byte)].0
}

/// The opcode of a number; none for a number that is not defined.
#[inline]
pub fn op_of(byte: u8) -> Option<Op>
    ensures numbered { result ≡ op_numbered byte }
    ensures defined { MatchOption result ((op : Op) → number_of op ≢ byte) (λ op. number_of op ≡ byte) }
{
    let op = op_or_trap(byte);
    if number_of(op) == byte {
        Some(op)
    } else {
        None
    }
}

/// The argument form of an opcode.
#[inline]
pub fn form_of(op: Op) -> Form
    ensures { result ≡ form_of op }
{
    OPCODES[usize::from(number_of(op))].1
}

/// The name of an opcode.
#[tactic(auto, unfolding(crate::specs::Opcodes::entry))]
pub fn name_of(op: Op) -> &'static str
    ensures { result.now ≡ name_of op }
{
    match op {
        Op::Trap => "trap",
        Op::Fallthrough => "fallthrough",
        Op::Ecalli => "ecalli",
        Op::LoadImm64 => "load_imm_64",
        Op::StoreImmU8 => "store_imm_u8",
        Op::StoreImmU16 => "store_imm_u16",
        Op::StoreImmU32 => "store_imm_u32",
        Op::StoreImmU64 => "store_imm_u64",
        Op::Jump => "jump",
        Op::JumpInd => "jump_ind",
        Op::LoadImm => "load_imm",
        Op::LoadU8 => "load_u8",
        Op::LoadI8 => "load_i8",
        Op::LoadU16 => "load_u16",
        Op::LoadI16 => "load_i16",
        Op::LoadU32 => "load_u32",
        Op::LoadI32 => "load_i32",
        Op::LoadU64 => "load_u64",
        Op::StoreU8 => "store_u8",
        Op::StoreU16 => "store_u16",
        Op::StoreU32 => "store_u32",
        Op::StoreU64 => "store_u64",
        Op::StoreImmIndU8 => "store_imm_ind_u8",
        Op::StoreImmIndU16 => "store_imm_ind_u16",
        Op::StoreImmIndU32 => "store_imm_ind_u32",
        Op::StoreImmIndU64 => "store_imm_ind_u64",
        Op::LoadImmJump => "load_imm_jump",
        Op::BranchEqImm => "branch_eq_imm",
        Op::BranchNeImm => "branch_ne_imm",
        Op::BranchLtUImm => "branch_lt_u_imm",
        Op::BranchLeUImm => "branch_le_u_imm",
        Op::BranchGeUImm => "branch_ge_u_imm",
        Op::BranchGtUImm => "branch_gt_u_imm",
        Op::BranchLtSImm => "branch_lt_s_imm",
        Op::BranchLeSImm => "branch_le_s_imm",
        Op::BranchGeSImm => "branch_ge_s_imm",
        Op::BranchGtSImm => "branch_gt_s_imm",
        Op::MoveReg => "move_reg",
        Op::Sbrk => "sbrk",
        Op::CountSetBits64 => "count_set_bits_64",
        Op::CountSetBits32 => "count_set_bits_32",
        Op::LeadingZeroBits64 => "leading_zero_bits_64",
        Op::LeadingZeroBits32 => "leading_zero_bits_32",
        Op::TrailingZeroBits64 => "trailing_zero_bits_64",
        Op::TrailingZeroBits32 => "trailing_zero_bits_32",
        Op::SignExtend8 => "sign_extend_8",
        Op::SignExtend16 => "sign_extend_16",
        Op::ZeroExtend16 => "zero_extend_16",
        Op::ReverseBytes => "reverse_bytes",
        Op::StoreIndU8 => "store_ind_u8",
        Op::StoreIndU16 => "store_ind_u16",
        Op::StoreIndU32 => "store_ind_u32",
        Op::StoreIndU64 => "store_ind_u64",
        Op::LoadIndU8 => "load_ind_u8",
        Op::LoadIndI8 => "load_ind_i8",
        Op::LoadIndU16 => "load_ind_u16",
        Op::LoadIndI16 => "load_ind_i16",
        Op::LoadIndU32 => "load_ind_u32",
        Op::LoadIndI32 => "load_ind_i32",
        Op::LoadIndU64 => "load_ind_u64",
        Op::AddImm32 => "add_imm_32",
        Op::AndImm => "and_imm",
        Op::XorImm => "xor_imm",
        Op::OrImm => "or_imm",
        Op::MulImm32 => "mul_imm_32",
        Op::SetLtUImm => "set_lt_u_imm",
        Op::SetLtSImm => "set_lt_s_imm",
        Op::ShloLImm32 => "shlo_l_imm_32",
        Op::ShloRImm32 => "shlo_r_imm_32",
        Op::SharRImm32 => "shar_r_imm_32",
        Op::NegAddImm32 => "neg_add_imm_32",
        Op::SetGtUImm => "set_gt_u_imm",
        Op::SetGtSImm => "set_gt_s_imm",
        Op::ShloLImmAlt32 => "shlo_l_imm_alt_32",
        Op::ShloRImmAlt32 => "shlo_r_imm_alt_32",
        Op::SharRImmAlt32 => "shar_r_imm_alt_32",
        Op::CmovIzImm => "cmov_iz_imm",
        Op::CmovNzImm => "cmov_nz_imm",
        Op::AddImm64 => "add_imm_64",
        Op::MulImm64 => "mul_imm_64",
        Op::ShloLImm64 => "shlo_l_imm_64",
        Op::ShloRImm64 => "shlo_r_imm_64",
        Op::SharRImm64 => "shar_r_imm_64",
        Op::NegAddImm64 => "neg_add_imm_64",
        Op::ShloLImmAlt64 => "shlo_l_imm_alt_64",
        Op::ShloRImmAlt64 => "shlo_r_imm_alt_64",
        Op::SharRImmAlt64 => "shar_r_imm_alt_64",
        Op::RotR64Imm => "rot_r_64_imm",
        Op::RotR64ImmAlt => "rot_r_64_imm_alt",
        Op::RotR32Imm => "rot_r_32_imm",
        Op::RotR32ImmAlt => "rot_r_32_imm_alt",
        Op::BranchEq => "branch_eq",
        Op::BranchNe => "branch_ne",
        Op::BranchLtU => "branch_lt_u",
        Op::BranchLtS => "branch_lt_s",
        Op::BranchGeU => "branch_ge_u",
        Op::BranchGeS => "branch_ge_s",
        Op::LoadImmJumpInd => "load_imm_jump_ind",
        Op::Add32 => "add_32",
        Op::Sub32 => "sub_32",
        Op::Mul32 => "mul_32",
        Op::DivU32 => "div_u_32",
        Op::DivS32 => "div_s_32",
        Op::RemU32 => "rem_u_32",
        Op::RemS32 => "rem_s_32",
        Op::ShloL32 => "shlo_l_32",
        Op::ShloR32 => "shlo_r_32",
        Op::SharR32 => "shar_r_32",
        Op::Add64 => "add_64",
        Op::Sub64 => "sub_64",
        Op::Mul64 => "mul_64",
        Op::DivU64 => "div_u_64",
        Op::DivS64 => "div_s_64",
        Op::RemU64 => "rem_u_64",
        Op::RemS64 => "rem_s_64",
        Op::ShloL64 => "shlo_l_64",
        Op::ShloR64 => "shlo_r_64",
        Op::SharR64 => "shar_r_64",
        Op::And => "and",
        Op::Xor => "xor",
        Op::Or => "or",
        Op::MulUpperSS => "mul_upper_s_s",
        Op::MulUpperUU => "mul_upper_u_u",
        Op::MulUpperSU => "mul_upper_s_u",
        Op::SetLtU => "set_lt_u",
        Op::SetLtS => "set_lt_s",
        Op::CmovIz => "cmov_iz",
        Op::CmovNz => "cmov_nz",
        Op::RotL64 => "rot_l_64",
        Op::RotL32 => "rot_l_32",
        Op::RotR64 => "rot_r_64",
        Op::RotR32 => "rot_r_32",
        Op::AndInv => "and_inv",
        Op::OrInv => "or_inv",
        Op::Xnor => "xnor",
        Op::Max => "max",
        Op::MaxU => "max_u",
        Op::Min => "min",
        Op::MinU => "min_u",
    }
}

// The opcode of a number, if it has this name.
fn op_if_named(number: u8, name: &str) -> Option<Op>
    ensures { MatchOption result ((op : Op) → number_of op ≡ number → name_of op ≢ name.now) (λ op. name_of op ≡ name.now) }
{
    let op = op_of(number)?;
    if name_of(op) == name { Some(op) } else { None }
}

/// The opcode of a name; none for a name that no opcode has.
pub fn op_named(name: &str) -> Option<Op>
    ensures { MatchOption result ((op : Op) → name_of op ≢ name.now) (λ op. name_of op ≡ name.now) }
{
    for number in 0..256u16 {
        if let Some(op) = op_if_named(number as u8, name) {
            return Some(op);
        }
    }
    None
}

/// Whether an opcode ends a block.
#[inline]
#[tactic(auto, unfolding(crate::specs::Terminators::is_terminator))]
pub fn is_terminator(op: Op) -> bool
    ensures { result ≡ is_terminator op }
{
    matches!(
        op,
        Op::Trap
            | Op::Fallthrough
            | Op::Jump
            | Op::JumpInd
            | Op::LoadImmJump
            | Op::BranchEqImm
            | Op::BranchNeImm
            | Op::BranchLtUImm
            | Op::BranchLeUImm
            | Op::BranchGeUImm
            | Op::BranchGtUImm
            | Op::BranchLtSImm
            | Op::BranchLeSImm
            | Op::BranchGeSImm
            | Op::BranchGtSImm
            | Op::BranchEq
            | Op::BranchNe
            | Op::BranchLtU
            | Op::BranchLtS
            | Op::BranchGeU
            | Op::BranchGeS
            | Op::LoadImmJumpInd
    )
}
