// The values of the operations, by opcode.
ghost use Rattle.std.specs.Prelude.{◌≡◌, ◌*◌, ◌^◌, ◌<◌, IsTrue};
ghost use Rattle.pvm_alu.specs.Alu as alu;

use crate::arithmetic::{
    add_32, add_64, div_s_32, div_s_64, div_u_32, div_u_64, mul_32, mul_64, mul_upper_s_s,
    mul_upper_s_u, mul_upper_u_u, rem_s_32, rem_s_64, rem_u_32, rem_u_64, sub_32, sub_64,
};
use crate::bits::{
    and_inv, count_set_bits_32, count_set_bits_64, leading_zero_bits_32, leading_zero_bits_64,
    less_signed, max_signed, min_signed, one_where, or_inv, trailing_zero_bits_32,
    trailing_zero_bits_64, xnor,
};
use crate::shifts::{
    rot_l_32, rot_l_64, rot_r_32, rot_r_64, shar_r_32, shar_r_64, shlo_l_32, shlo_l_64, shlo_r_32,
    shlo_r_64,
};
use crate::words::{extended_8, extended_16, extended_32};
use pvm_isa::Op;

/// The value of an operation with two values: opcodes 131 to 146, 149 to 161, 190 to 217 and 220 to 230. They are
/// those of registers A and B, or where the opcode has an immediate, that of register B and the immediate.
#[inline]
#[tactic(auto, unfolding(crate::specs::Alu::binary_line))]
pub fn binary(op: Op, a: u64, b: u64) -> u64
    requires { IsTrue (alu.is_binary op) }
    ensures { result ≡ alu.binary op a b }
{
    match op {
        Op::AddImm32 | Op::Add32 => add_32(a, b),
        Op::NegAddImm32 => sub_32(b, a),
        Op::Sub32 => sub_32(a, b),
        Op::MulImm32 | Op::Mul32 => mul_32(a, b),
        Op::DivU32 => div_u_32(a, b),
        Op::DivS32 => div_s_32(a, b),
        Op::RemU32 => rem_u_32(a, b),
        Op::RemS32 => rem_s_32(a, b),
        Op::ShloLImm32 | Op::ShloL32 => shlo_l_32(a, b),
        Op::ShloRImm32 | Op::ShloR32 => shlo_r_32(a, b),
        Op::SharRImm32 | Op::SharR32 => shar_r_32(a, b),
        Op::ShloLImmAlt32 => shlo_l_32(b, a),
        Op::ShloRImmAlt32 => shlo_r_32(b, a),
        Op::SharRImmAlt32 => shar_r_32(b, a),
        Op::RotR32Imm | Op::RotR32 => rot_r_32(a, b),
        Op::RotR32ImmAlt => rot_r_32(b, a),
        Op::RotL32 => rot_l_32(a, b),
        Op::AddImm64 | Op::Add64 => add_64(a, b),
        Op::NegAddImm64 => sub_64(b, a),
        Op::Sub64 => sub_64(a, b),
        Op::MulImm64 | Op::Mul64 => mul_64(a, b),
        Op::DivU64 => div_u_64(a, b),
        Op::DivS64 => div_s_64(a, b),
        Op::RemU64 => rem_u_64(a, b),
        Op::RemS64 => rem_s_64(a, b),
        Op::ShloLImm64 | Op::ShloL64 => shlo_l_64(a, b),
        Op::ShloRImm64 | Op::ShloR64 => shlo_r_64(a, b),
        Op::SharRImm64 | Op::SharR64 => shar_r_64(a, b),
        Op::ShloLImmAlt64 => shlo_l_64(b, a),
        Op::ShloRImmAlt64 => shlo_r_64(b, a),
        Op::SharRImmAlt64 => shar_r_64(b, a),
        Op::RotR64Imm | Op::RotR64 => rot_r_64(a, b),
        Op::RotR64ImmAlt => rot_r_64(b, a),
        Op::RotL64 => rot_l_64(a, b),
        Op::MulUpperSS => mul_upper_s_s(a, b),
        Op::MulUpperUU => mul_upper_u_u(a, b),
        Op::MulUpperSU => mul_upper_s_u(a, b),
        Op::AndImm | Op::And => a & b,
        Op::XorImm | Op::Xor => a ^ b,
        Op::OrImm | Op::Or => a | b,
        Op::AndInv => and_inv(a, b),
        Op::OrInv => or_inv(a, b),
        Op::Xnor => xnor(a, b),
        Op::SetLtUImm | Op::SetLtU => one_where(a < b),
        Op::SetGtUImm => one_where(b < a),
        Op::SetLtSImm | Op::SetLtS => one_where(less_signed(a, b)),
        Op::SetGtSImm => one_where(less_signed(b, a)),
        Op::Max => max_signed(a, b),
        Op::MaxU => a.max(b),
        Op::Min => min_signed(a, b),
        Op::MinU => a.min(b),
        _ => unreachable!(),
    }
}

/// The value of an operation with one value, that of register A: opcodes 102 to 111.
#[inline]
#[tactic(auto, unfolding(crate::specs::Alu::unary_line))]
pub fn unary(op: Op, a: u64) -> u64
    requires { IsTrue (alu.is_unary op) }
    ensures { result ≡ alu.unary op a }
{
    match op {
        Op::CountSetBits64 => count_set_bits_64(a),
        Op::CountSetBits32 => count_set_bits_32(a),
        Op::LeadingZeroBits64 => leading_zero_bits_64(a),
        Op::LeadingZeroBits32 => leading_zero_bits_32(a),
        Op::TrailingZeroBits64 => trailing_zero_bits_64(a),
        Op::TrailingZeroBits32 => trailing_zero_bits_32(a),
        Op::SignExtend8 => extended_8(a),
        Op::SignExtend16 => extended_16(a),
        Op::ZeroExtend16 => a & 0xffff,
        Op::ReverseBytes => a.swap_bytes(),
        _ => unreachable!(),
    }
}

/// Whether the condition of a branch holds: opcodes 170 to 175 for registers A and B, and 81 to 90 for register A
/// and the immediate.
#[inline]
#[tactic(auto, unfolding(crate::specs::Alu::test_line))]
pub fn test(op: Op, a: u64, b: u64) -> bool
    requires { IsTrue (alu.is_test op) }
    ensures { result ≡ alu.test op a b }
{
    match op {
        Op::BranchEqImm | Op::BranchEq => a == b,
        Op::BranchNeImm | Op::BranchNe => a != b,
        Op::BranchLtUImm | Op::BranchLtU => a < b,
        Op::BranchLeUImm => a <= b,
        Op::BranchGeUImm | Op::BranchGeU => a >= b,
        Op::BranchGtUImm => a > b,
        Op::BranchLtSImm | Op::BranchLtS => a.cast_signed() < b.cast_signed(),
        Op::BranchLeSImm => a.cast_signed() <= b.cast_signed(),
        Op::BranchGeSImm | Op::BranchGeS => a.cast_signed() >= b.cast_signed(),
        Op::BranchGtSImm => a.cast_signed() > b.cast_signed(),
        _ => unreachable!(),
    }
}

/// What a load puts into its register, of the number that the bytes make which it read: opcodes 52 to 58 and
/// 124 to 130.
#[inline]
#[tactic(auto, unfolding(crate::specs::Alu::widen_line, crate::specs::Alu::loaded_bytes))]
pub fn widen(op: Op, raw: u64) -> u64
    requires loads { IsTrue (alu.is_load op) }
    requires fits { raw < 2 ^ (8 * alu.loaded_bytes op) }
    ensures { result ≡ alu.widen op raw }
{
    match op {
        Op::LoadU8 | Op::LoadU16 | Op::LoadU32 | Op::LoadU64 => raw,
        Op::LoadIndU8 | Op::LoadIndU16 | Op::LoadIndU32 | Op::LoadIndU64 => raw,
        Op::LoadI8 | Op::LoadIndI8 => extended_8(raw),
        Op::LoadI16 | Op::LoadIndI16 => extended_16(raw),
        Op::LoadI32 | Op::LoadIndI32 => extended_32(raw),
        _ => unreachable!(),
    }
}
