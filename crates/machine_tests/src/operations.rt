//! The value of each operation at rows of numbers, among them the corners of both widths.
ghost use Rattle.std.specs.Prelude.{IsTrue, All, ◌<◌, ◌*◌, ◌^◌};
ghost use Rattle.pvm_alu.specs.Alu as alu;

use pvm_alu::{binary, test, unary, widen};
use pvm_isa::Op;
use std::process::Abort;

mod arithmetic;
mod shifts;

// The least signed number.
const LEAST: u64 = 1 << 63;

fn is_value(rt: &impl Abort, op: Op, a: u64, b: u64, value: u64)
    requires { IsTrue (alu.is_binary op) }
{
    assert_eq!(rt; binary(op, a, b), value, "{op:?} of {a} and {b}");
}

// The rows have the two values and the operation's.
fn gives(rt: &impl Abort, op: Op, rows: &[(u64, u64, u64)])
    requires { IsTrue (alu.is_binary op) }
{
    for &(a, b, value) in rows {
        is_value(rt, op, a, b, value);
    }
}

// The same rows, for an operation that takes its two values the other way round.
fn gives_turned(rt: &impl Abort, op: Op, rows: &[(u64, u64, u64)])
    requires { IsTrue (alu.is_binary op) }
{
    for &(a, b, value) in rows {
        is_value(rt, op, b, a, value);
    }
}

fn makes(rt: &impl Abort, op: Op, rows: &[(u64, u64)])
    requires { IsTrue (alu.is_unary op) }
{
    for &(a, value) in rows {
        assert_eq!(rt; unary(op, a), value, "{op:?} of {a}");
    }
}

fn holds(rt: &impl Abort, op: Op, rows: &[(u64, u64, bool)])
    requires { IsTrue (alu.is_test op) }
{
    for &(a, b, passes) in rows {
        assert_eq!(rt; test(op, a, b), passes, "{op:?} of {a} and {b}");
    }
}

fn widens(rt: &impl Abort, op: Op, rows: &[(u64, u64)])
    requires loads { IsTrue (alu.is_load op) }
    requires fit { All (λ row. row.0 < 2 ^ (8 * alu.loaded_bytes op)) rows.now }
{
    for &(raw, value) in rows {
        assert_eq!(rt; widen(op, raw), value, "{op:?} of {raw}");
    }
}

#[test]
#[tactic(auto, unfolding(pvm_alu::specs::Alu::unary_line))]
fn counts_of_bits(rt: HostRuntime) {
    let ones_of_64 = [
        (0, 0),
        (1, 1),
        (0x8000_0000, 1),
        (0xffff_ffff, 32),
        (0x1_0000_0000, 1),
        (LEAST, 1),
        (u64::MAX, 64),
        (0x1_2300_0045_6000, 9),
    ];
    makes(&rt, Op::CountSetBits64, &ones_of_64);
    let ones_of_32 = [
        (0, 0),
        (1, 1),
        (0x8000_0000, 1),
        (0xffff_ffff, 32),
        (0x1_0000_0000, 0),
        (LEAST, 0),
        (u64::MAX, 32),
        (0x1_2300_0045_6000, 5),
    ];
    makes(&rt, Op::CountSetBits32, &ones_of_32);
    let leading_of_64 = [
        (0, 64),
        (1, 63),
        (0x8000_0000, 32),
        (0xffff_ffff, 32),
        (0x1_0000_0000, 31),
        (LEAST, 0),
        (u64::MAX, 0),
        (0x1_2300_0045_6000, 15),
    ];
    makes(&rt, Op::LeadingZeroBits64, &leading_of_64);
    let leading_of_32 = [
        (0, 32),
        (1, 31),
        (0x8000_0000, 0),
        (0xffff_ffff, 0),
        (0x1_0000_0000, 32),
        (LEAST, 32),
        (u64::MAX, 0),
        (0x1_2300_0045_6000, 9),
    ];
    makes(&rt, Op::LeadingZeroBits32, &leading_of_32);
    let trailing_of_64 = [
        (0, 64),
        (1, 0),
        (0x8000_0000, 31),
        (0xffff_ffff, 0),
        (0x1_0000_0000, 32),
        (LEAST, 63),
        (u64::MAX, 0),
        (0x1_2300_0045_6000, 13),
    ];
    makes(&rt, Op::TrailingZeroBits64, &trailing_of_64);
    let trailing_of_32 = [
        (0, 32),
        (1, 0),
        (0x8000_0000, 31),
        (0xffff_ffff, 0),
        (0x1_0000_0000, 32),
        (LEAST, 32),
        (u64::MAX, 0),
        (0x1_2300_0045_6000, 13),
    ];
    makes(&rt, Op::TrailingZeroBits32, &trailing_of_32);
}

#[test]
#[tactic(auto, unfolding(pvm_alu::specs::Alu::unary_line))]
fn extensions_and_reversed_bytes(rt: HostRuntime) {
    let signed_8 = [
        (0, 0),
        (127, 127),
        (128, 0xffff_ffff_ffff_ff80),
        (255, u64::MAX),
        (256, 0),
        (u64::MAX, u64::MAX),
        (0x1234_5678_9abc_de80, 0xffff_ffff_ffff_ff80),
    ];
    makes(&rt, Op::SignExtend8, &signed_8);
    let signed_16 = [
        (0, 0),
        (0x7fff, 0x7fff),
        (0x8000, 0xffff_ffff_ffff_8000),
        (0xffff_ffff, u64::MAX),
        (LEAST, 0),
        (0x1234_5678_9abc_8000, 0xffff_ffff_ffff_8000),
    ];
    makes(&rt, Op::SignExtend16, &signed_16);
    let unsigned_16 = [
        (0, 0),
        (0xffff, 0xffff),
        (0x1_0000, 0),
        (u64::MAX, 0xffff),
        (0x1234_5678_9abc_def0, 0xdef0),
    ];
    makes(&rt, Op::ZeroExtend16, &unsigned_16);
    let reversed = [
        (0, 0),
        (1, 0x100_0000_0000_0000),
        (0x8000_0000, 0x80_0000_0000),
        (0xffff_ffff, 0xffff_ffff_0000_0000),
        (LEAST, 128),
        (0x102_0304_0506_0708, 0x807_0605_0403_0201),
    ];
    makes(&rt, Op::ReverseBytes, &reversed);
}

#[test]
#[tactic(auto, unfolding(pvm_alu::specs::Alu::test_line))]
fn conditions_of_equality(rt: HostRuntime) {
    let equal = [
        (0, 0, true),
        (0, u64::MAX, false),
        (LEAST, 0x7fff_ffff_ffff_ffff, false),
        (0x7fff_ffff, 0x8000_0000, false),
        (u64::MAX, 0xffff_ffff_ffff_fffe, false),
    ];
    holds(&rt, Op::BranchEqImm, &equal);
    holds(&rt, Op::BranchEq, &equal);
    let different = [
        (0, 0, false),
        (0, u64::MAX, true),
        (LEAST, 0x7fff_ffff_ffff_ffff, true),
        (0x7fff_ffff, 0x8000_0000, true),
        (u64::MAX, 0xffff_ffff_ffff_fffe, true),
    ];
    holds(&rt, Op::BranchNeImm, &different);
    holds(&rt, Op::BranchNe, &different);
}

#[test]
#[tactic(auto, unfolding(pvm_alu::specs::Alu::test_line))]
fn conditions_of_unsigned_order(rt: HostRuntime) {
    let below = [
        (0, 0, false),
        (0, u64::MAX, true),
        (LEAST, 0x7fff_ffff_ffff_ffff, false),
        (0x7fff_ffff, 0x8000_0000, true),
        (u64::MAX, 0xffff_ffff_ffff_fffe, false),
    ];
    holds(&rt, Op::BranchLtUImm, &below);
    holds(&rt, Op::BranchLtU, &below);
    let at_most = [
        (0, 0, true),
        (0, u64::MAX, true),
        (LEAST, 0x7fff_ffff_ffff_ffff, false),
        (0x7fff_ffff, 0x8000_0000, true),
        (u64::MAX, 0xffff_ffff_ffff_fffe, false),
    ];
    holds(&rt, Op::BranchLeUImm, &at_most);
    let at_least = [
        (0, 0, true),
        (0, u64::MAX, false),
        (LEAST, 0x7fff_ffff_ffff_ffff, true),
        (0x7fff_ffff, 0x8000_0000, false),
        (u64::MAX, 0xffff_ffff_ffff_fffe, true),
    ];
    holds(&rt, Op::BranchGeUImm, &at_least);
    holds(&rt, Op::BranchGeU, &at_least);
    let above = [
        (0, 0, false),
        (0, u64::MAX, false),
        (LEAST, 0x7fff_ffff_ffff_ffff, true),
        (0x7fff_ffff, 0x8000_0000, false),
        (u64::MAX, 0xffff_ffff_ffff_fffe, true),
    ];
    holds(&rt, Op::BranchGtUImm, &above);
}

#[test]
#[tactic(auto, unfolding(pvm_alu::specs::Alu::test_line))]
fn conditions_of_signed_order(rt: HostRuntime) {
    let below = [
        (0, 0, false),
        (0, u64::MAX, false),
        (LEAST, 0x7fff_ffff_ffff_ffff, true),
        (0x7fff_ffff, 0x8000_0000, true),
        (u64::MAX, 0xffff_ffff_ffff_fffe, false),
    ];
    holds(&rt, Op::BranchLtSImm, &below);
    holds(&rt, Op::BranchLtS, &below);
    let at_most = [
        (0, 0, true),
        (0, u64::MAX, false),
        (LEAST, 0x7fff_ffff_ffff_ffff, true),
        (0x7fff_ffff, 0x8000_0000, true),
        (u64::MAX, 0xffff_ffff_ffff_fffe, false),
    ];
    holds(&rt, Op::BranchLeSImm, &at_most);
    let at_least = [
        (0, 0, true),
        (0, u64::MAX, true),
        (LEAST, 0x7fff_ffff_ffff_ffff, false),
        (0x7fff_ffff, 0x8000_0000, false),
        (u64::MAX, 0xffff_ffff_ffff_fffe, true),
    ];
    holds(&rt, Op::BranchGeSImm, &at_least);
    holds(&rt, Op::BranchGeS, &at_least);
    let above = [
        (0, 0, false),
        (0, u64::MAX, true),
        (LEAST, 0x7fff_ffff_ffff_ffff, false),
        (0x7fff_ffff, 0x8000_0000, false),
        (u64::MAX, 0xffff_ffff_ffff_fffe, true),
    ];
    holds(&rt, Op::BranchGtSImm, &above);
}

#[test]
#[tactic(auto, unfolding(pvm_alu::specs::Alu::widen_line, pvm_alu::specs::Alu::loaded_bytes))]
fn loads(rt: HostRuntime) {
    let unsigned_8 = [(0, 0), (127, 127), (128, 128), (255, 255)];
    widens(&rt, Op::LoadU8, &unsigned_8);
    widens(&rt, Op::LoadIndU8, &unsigned_8);
    let signed_8 = [
        (0, 0),
        (127, 127),
        (128, 0xffff_ffff_ffff_ff80),
        (255, u64::MAX),
    ];
    widens(&rt, Op::LoadI8, &signed_8);
    widens(&rt, Op::LoadIndI8, &signed_8);
    let unsigned_16 = [(0, 0), (0x7fff, 0x7fff), (0x8000, 0x8000), (0xffff, 0xffff)];
    widens(&rt, Op::LoadU16, &unsigned_16);
    widens(&rt, Op::LoadIndU16, &unsigned_16);
    let signed_16 = [
        (0, 0),
        (0x7fff, 0x7fff),
        (0x8000, 0xffff_ffff_ffff_8000),
        (0xffff, u64::MAX),
    ];
    widens(&rt, Op::LoadI16, &signed_16);
    widens(&rt, Op::LoadIndI16, &signed_16);
    let unsigned_32 = [
        (0, 0),
        (0x7fff_ffff, 0x7fff_ffff),
        (0x8000_0000, 0x8000_0000),
        (0xffff_ffff, 0xffff_ffff),
    ];
    widens(&rt, Op::LoadU32, &unsigned_32);
    widens(&rt, Op::LoadIndU32, &unsigned_32);
    let signed_32 = [
        (0, 0),
        (0x7fff_ffff, 0x7fff_ffff),
        (0x8000_0000, 0xffff_ffff_8000_0000),
        (0xffff_ffff, u64::MAX),
    ];
    widens(&rt, Op::LoadI32, &signed_32);
    widens(&rt, Op::LoadIndI32, &signed_32);
    let unsigned_64 = [
        (0, 0),
        (0x7fff_ffff_ffff_ffff, 0x7fff_ffff_ffff_ffff),
        (LEAST, LEAST),
        (u64::MAX, u64::MAX),
    ];
    widens(&rt, Op::LoadU64, &unsigned_64);
    widens(&rt, Op::LoadIndU64, &unsigned_64);
}

// As decimal numbers: the one signed overflow, division by 0, and both ends of a product and a sum.
#[test]
#[tactic(auto, unfolding(pvm_alu::specs::Alu::binary_line))]
fn corners(rt: HostRuntime) {
    assert_eq!(rt; binary(Op::DivS64, LEAST, u64::MAX), 9223372036854775808);
    assert_eq!(rt; binary(Op::RemS64, LEAST, u64::MAX), 0);
    assert_eq!(rt; binary(Op::DivU32, 5, 0), 18446744073709551615);
    assert_eq!(rt;
        binary(Op::MulUpperSU, u64::MAX, u64::MAX),
        18446744073709551615
    );
    assert_eq!(rt; binary(Op::Add32, 2147483647, 1), 18446744071562067968);
}
