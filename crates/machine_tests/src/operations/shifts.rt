//! Shifts, rotations and bits.
use super::*;

#[test]
#[tactic(auto, unfolding(pvm_alu::specs::Alu::binary_line))]
fn shifts_of_32(rt: HostRuntime) {
    let left = [
        (0x8000_0003_c000_0005, 0, 0xffff_ffff_c000_0005),
        (0x8000_0003_c000_0005, 31, 0xffff_ffff_8000_0000),
        (0x8000_0003_c000_0005, 32, 0xffff_ffff_c000_0005),
        (0x8000_0003_c000_0005, 63, 0xffff_ffff_8000_0000),
        (0x8000_0003_c000_0005, 64, 0xffff_ffff_c000_0005),
        (u64::MAX, 0x1_0000_0001, 0xffff_ffff_ffff_fffe),
    ];
    gives(&rt, Op::ShloL32, &left);
    gives(&rt, Op::ShloLImm32, &left);
    gives_turned(&rt, Op::ShloLImmAlt32, &left);
    let right = [
        (0x8000_0003_c000_0005, 0, 0xffff_ffff_c000_0005),
        (0x8000_0003_c000_0005, 31, 1),
        (0x8000_0003_c000_0005, 32, 0xffff_ffff_c000_0005),
        (0x8000_0003_c000_0005, 63, 1),
        (0x8000_0003_c000_0005, 64, 0xffff_ffff_c000_0005),
        (u64::MAX, 0x1_0000_0001, 0x7fff_ffff),
    ];
    gives(&rt, Op::ShloR32, &right);
    gives(&rt, Op::ShloRImm32, &right);
    gives_turned(&rt, Op::ShloRImmAlt32, &right);
    let signed = [
        (0x8000_0003_c000_0005, 0, 0xffff_ffff_c000_0005),
        (0x8000_0003_c000_0005, 31, u64::MAX),
        (0x8000_0003_c000_0005, 32, 0xffff_ffff_c000_0005),
        (0x8000_0003_c000_0005, 63, u64::MAX),
        (0x8000_0003_c000_0005, 64, 0xffff_ffff_c000_0005),
        (u64::MAX, 0x1_0000_0001, u64::MAX),
    ];
    gives(&rt, Op::SharR32, &signed);
    gives(&rt, Op::SharRImm32, &signed);
    gives_turned(&rt, Op::SharRImmAlt32, &signed);
}

#[test]
#[tactic(auto, unfolding(pvm_alu::specs::Alu::binary_line))]
fn shifts_of_64(rt: HostRuntime) {
    let left = [
        (0x8000_0003_c000_0005, 0, 0x8000_0003_c000_0005),
        (0x8000_0003_c000_0005, 31, 0xe000_0002_8000_0000),
        (0x8000_0003_c000_0005, 32, 0xc000_0005_0000_0000),
        (0x8000_0003_c000_0005, 63, LEAST),
        (0x8000_0003_c000_0005, 64, 0x8000_0003_c000_0005),
        (u64::MAX, 0x1_0000_0001, 0xffff_ffff_ffff_fffe),
    ];
    gives(&rt, Op::ShloL64, &left);
    gives(&rt, Op::ShloLImm64, &left);
    gives_turned(&rt, Op::ShloLImmAlt64, &left);
    let right = [
        (0x8000_0003_c000_0005, 0, 0x8000_0003_c000_0005),
        (0x8000_0003_c000_0005, 31, 0x1_0000_0007),
        (0x8000_0003_c000_0005, 32, 0x8000_0003),
        (0x8000_0003_c000_0005, 63, 1),
        (0x8000_0003_c000_0005, 64, 0x8000_0003_c000_0005),
        (u64::MAX, 0x1_0000_0001, 0x7fff_ffff_ffff_ffff),
    ];
    gives(&rt, Op::ShloR64, &right);
    gives(&rt, Op::ShloRImm64, &right);
    gives_turned(&rt, Op::ShloRImmAlt64, &right);
    let signed = [
        (0x8000_0003_c000_0005, 0, 0x8000_0003_c000_0005),
        (0x8000_0003_c000_0005, 31, 0xffff_ffff_0000_0007),
        (0x8000_0003_c000_0005, 32, 0xffff_ffff_8000_0003),
        (0x8000_0003_c000_0005, 63, u64::MAX),
        (0x8000_0003_c000_0005, 64, 0x8000_0003_c000_0005),
        (u64::MAX, 0x1_0000_0001, u64::MAX),
    ];
    gives(&rt, Op::SharR64, &signed);
    gives(&rt, Op::SharRImm64, &signed);
    gives_turned(&rt, Op::SharRImmAlt64, &signed);
}

#[test]
#[tactic(auto, unfolding(pvm_alu::specs::Alu::binary_line))]
fn rotations_of_32(rt: HostRuntime) {
    let right = [
        (0x8000_0003_c000_0005, 0, 0xffff_ffff_c000_0005),
        (0x8000_0003_c000_0005, 31, 0xffff_ffff_8000_000b),
        (0x8000_0003_c000_0005, 32, 0xffff_ffff_c000_0005),
        (0x8000_0003_c000_0005, 63, 0xffff_ffff_8000_000b),
        (0x8000_0003_c000_0005, 64, 0xffff_ffff_c000_0005),
        (u64::MAX, 0x1_0000_0001, u64::MAX),
    ];
    gives(&rt, Op::RotR32, &right);
    gives(&rt, Op::RotR32Imm, &right);
    gives_turned(&rt, Op::RotR32ImmAlt, &right);
    let left = [
        (0x8000_0003_c000_0005, 0, 0xffff_ffff_c000_0005),
        (0x8000_0003_c000_0005, 31, 0xffff_ffff_e000_0002),
        (0x8000_0003_c000_0005, 32, 0xffff_ffff_c000_0005),
        (0x8000_0003_c000_0005, 63, 0xffff_ffff_e000_0002),
        (0x8000_0003_c000_0005, 64, 0xffff_ffff_c000_0005),
        (u64::MAX, 0x1_0000_0001, u64::MAX),
    ];
    gives(&rt, Op::RotL32, &left);
}

#[test]
#[tactic(auto, unfolding(pvm_alu::specs::Alu::binary_line))]
fn rotations_of_64(rt: HostRuntime) {
    let right = [
        (0x8000_0003_c000_0005, 0, 0x8000_0003_c000_0005),
        (0x8000_0003_c000_0005, 31, 0x8000_000b_0000_0007),
        (0x8000_0003_c000_0005, 32, 0xc000_0005_8000_0003),
        (0x8000_0003_c000_0005, 63, 0x7_8000_000b),
        (0x8000_0003_c000_0005, 64, 0x8000_0003_c000_0005),
        (u64::MAX, 0x1_0000_0001, u64::MAX),
    ];
    gives(&rt, Op::RotR64, &right);
    gives(&rt, Op::RotR64Imm, &right);
    gives_turned(&rt, Op::RotR64ImmAlt, &right);
    let left = [
        (0x8000_0003_c000_0005, 0, 0x8000_0003_c000_0005),
        (0x8000_0003_c000_0005, 31, 0xe000_0002_c000_0001),
        (0x8000_0003_c000_0005, 32, 0xc000_0005_8000_0003),
        (0x8000_0003_c000_0005, 63, 0xc000_0001_e000_0002),
        (0x8000_0003_c000_0005, 64, 0x8000_0003_c000_0005),
        (u64::MAX, 0x1_0000_0001, u64::MAX),
    ];
    gives(&rt, Op::RotL64, &left);
}

#[test]
#[tactic(auto, unfolding(pvm_alu::specs::Alu::binary_line))]
fn bits(rt: HostRuntime) {
    let and = [
        (0, u64::MAX, 0),
        (u64::MAX, u64::MAX, u64::MAX),
        (LEAST, 0xffff_ffff, 0),
        (0x3333_5555_ff00, 0xff_0ff0_f0f0, 0x33_0550_f000),
    ];
    gives(&rt, Op::And, &and);
    gives(&rt, Op::AndImm, &and);
    let xor = [
        (0, u64::MAX, u64::MAX),
        (u64::MAX, u64::MAX, 0),
        (LEAST, 0xffff_ffff, 0x8000_0000_ffff_ffff),
        (0x3333_5555_ff00, 0xff_0ff0_f0f0, 0x33cc_5aa5_0ff0),
    ];
    gives(&rt, Op::Xor, &xor);
    gives(&rt, Op::XorImm, &xor);
    let or = [
        (0, u64::MAX, u64::MAX),
        (u64::MAX, u64::MAX, u64::MAX),
        (LEAST, 0xffff_ffff, 0x8000_0000_ffff_ffff),
        (0x3333_5555_ff00, 0xff_0ff0_f0f0, 0x33ff_5ff5_fff0),
    ];
    gives(&rt, Op::Or, &or);
    gives(&rt, Op::OrImm, &or);
    let and_inv = [
        (0, u64::MAX, 0),
        (u64::MAX, u64::MAX, 0),
        (LEAST, 0xffff_ffff, LEAST),
        (0x3333_5555_ff00, 0xff_0ff0_f0f0, 0x3300_5005_0f00),
    ];
    gives(&rt, Op::AndInv, &and_inv);
    let or_inv = [
        (0, u64::MAX, 0),
        (u64::MAX, u64::MAX, u64::MAX),
        (LEAST, 0xffff_ffff, 0xffff_ffff_0000_0000),
        (0x3333_5555_ff00, 0xff_0ff0_f0f0, 0xffff_ff33_f55f_ff0f),
    ];
    gives(&rt, Op::OrInv, &or_inv);
    let xnor = [
        (0, u64::MAX, 0),
        (u64::MAX, u64::MAX, u64::MAX),
        (LEAST, 0xffff_ffff, 0x7fff_ffff_0000_0000),
        (0x3333_5555_ff00, 0xff_0ff0_f0f0, 0xffff_cc33_a55a_f00f),
    ];
    gives(&rt, Op::Xnor, &xnor);
}
