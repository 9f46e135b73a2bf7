//! Opcodes and arguments, instruction by instruction, as a reader of the tables would write them out.
ghost use Rattle.std.specs.Prelude.{◌≤◌, ◌<◌, length};

use pvm_isa::*;
use std::process::Abort;

fn has_number(rt: &impl Abort, op: Op, number: u8) {
    let found = (op_of(number), op_or_trap(number), number_of(op));
    assert_eq!(rt; found, (Some(op), op, number));
}

fn has_name(rt: &impl Abort, op: Op, name: &str) {
    assert_eq!(rt; op_named(name), Some(op), "name {name}");
    assert_eq!(rt; name_of(op), name);
}

fn stands(rt: &impl Abort, number: u8, name: &str, op: Op, ends: bool) {
    has_number(rt, op, number);
    has_name(rt, op, name);
    assert_eq!(rt; is_terminator(op), ends, "end at {name}");
}

#[test]
fn numbers_and_names_stand_for_opcodes(rt: HostRuntime) {
    stands(&rt, 0, "trap", Op::Trap, true);
    stands(&rt, 20, "load_imm_64", Op::LoadImm64, false);
    stands(&rt, 31, "store_imm_u16", Op::StoreImmU16, false);
    stands(&rt, 50, "jump_ind", Op::JumpInd, true);
    stands(&rt, 53, "load_i8", Op::LoadI8, false);
    stands(&rt, 83, "branch_lt_u_imm", Op::BranchLtUImm, true);
    stands(&rt, 144, "shlo_l_imm_alt_32", Op::ShloLImmAlt32, false);
    stands(&rt, 147, "cmov_iz_imm", Op::CmovIzImm, false);
    stands(&rt, 159, "rot_r_64_imm_alt", Op::RotR64ImmAlt, false);
    stands(&rt, 171, "branch_ne", Op::BranchNe, true);
    stands(&rt, 180, "load_imm_jump_ind", Op::LoadImmJumpInd, true);
    stands(&rt, 193, "div_u_32", Op::DivU32, false);
    stands(&rt, 209, "shar_r_64", Op::SharR64, false);
    stands(&rt, 215, "mul_upper_s_u", Op::MulUpperSU, false);
    stands(&rt, 230, "min_u", Op::MinU, false);
}

fn stands_for_none(rt: &impl Abort, number: u8) {
    let found = (op_of(number), op_or_trap(number));
    assert_eq!(rt; found, (None, Op::Trap), "number {number}");
}

#[test]
fn other_numbers_and_names_stand_for_none(rt: HostRuntime) {
    for number in [2, 9, 34, 63, 91, 112, 162, 176, 181, 231, 255] {
        stands_for_none(&rt, number);
    }
    for name in [
        "",
        "TRAP",
        "trap ",
        "add",
        "load_imm_6",
        "load_imm_64_",
        "u16",
    ] {
        assert_eq!(rt; op_named(name), None, "name {name}");
    }
}

type Row<'a> = (Op, &'a [u8], u64, u8, (u8, u8, u8), u64, u64, Option<u64>);

fn agree(rt: &impl Abort, op: Op, way: &str, args: Args, wanted: Args) {
    assert_eq!(rt; args, wanted, "{} {way}", name_of(op));
}

// The arguments by the whole code, and by the window of the code that their form takes.
fn stand_so(rt: &impl Abort, (op, code, pc, skip, (a, b, d), x, y, target): Row<'_>) {
    assert!(rt; pc < 16 && pc < code.len() as u64 && skip <= 24);
    let wanted = Args {
        a,
        b,
        d,
        x,
        y,
        target,
    };
    agree(rt, op, "by the code", args_of(op, code, pc, skip), wanted);
    if let Some(args) = args_in_window(op, code, pc, skip) {
        agree(rt, op, "by a window", args, wanted);
    }
}

fn args_in_window(op: Op, code: &[u8], pc: u64, skip: u8) -> Option<Args>
    requires within { pc < length code.now }
    requires low { pc < 16 }
    requires short { skip ≤ 24 }
{
    let bytes = code_window(code, pc);
    match form_of(op) {
        Form::F6 => Some(register_and_immediate_in(bytes, skip)),
        Form::F8 => Some(register_immediate_and_offset_in(code, bytes, pc, skip)),
        Form::F9 => Some(two_registers_in(bytes)),
        Form::F10 => Some(two_registers_and_immediate_in(bytes, skip)),
        Form::F11 => Some(two_registers_and_offset_in(bytes, pc, skip)),
        Form::F13 => Some(three_registers_in(bytes)),
        _ => None,
    }
}

#[test]
fn arguments_stand_where_their_form_says(rt: HostRuntime) {
    // The opcode, the code, the place and the skip; registers A, B, D, the immediates X and Y, the target.
    let table: [Row<'_>; 26] = [
        (Op::Trap, b"\x00\xff", 0, 1, (0, 0, 0), 0, 0, None),
        (
            Op::Ecalli,
            b"\x0a\x80",
            0,
            1,
            (0, 0, 0),
            0xffff_ffff_ffff_ff80,
            0,
            None,
        ),
        (
            Op::Ecalli,
            b"\x0a\xfe\xff\xff\x7f\x00\x00\x00\x00\x00",
            0,
            9,
            (0, 0, 0),
            0x7fff_fffe,
            0,
            None,
        ),
        (
            Op::LoadImm64,
            b"\x14\xfb\x01\x02\x03\x04\x05\x06\x07\x88",
            0,
            9,
            (11, 0, 0),
            0x8807_0605_0403_0201,
            0,
            None,
        ),
        (
            Op::LoadImm64,
            b"\x00\x14\xf2\xff",
            1,
            2,
            (2, 0, 0),
            255,
            0,
            None,
        ),
        (
            Op::StoreImmU8,
            b"\x1e\x02\xff\xff\x01\x80\x00\x00\x00",
            0,
            8,
            (0, 0, 0),
            0xffff_ffff_ffff_ffff,
            0x8001,
            None,
        ),
        (
            Op::StoreImmU16,
            b"\x1f\x0f\x01\x02\x03\x84\xff\xff\xff\xfe",
            0,
            4,
            (0, 0, 0),
            0xffff_ffff_8403_0201,
            0,
            None,
        ),
        (
            Op::Jump,
            b"\x00\x00\x00\x28\x0b",
            3,
            1,
            (0, 0, 0),
            0,
            0,
            Some(14),
        ),
        (Op::Jump, b"\x00\x00\x28\xfd", 2, 1, (0, 0, 0), 0, 0, None),
        (
            Op::Jump,
            b"\x28\xfd\xff\xff\xff\x00\x00\x00\x00",
            0,
            4,
            (0, 0, 0),
            0,
            0,
            None,
        ),
        (
            Op::Jump,
            b"\x00\x00\x00\x00\x28\xfc\xff\xff\xff",
            4,
            4,
            (0, 0, 0),
            0,
            0,
            Some(0),
        ),
        (
            Op::LoadImm,
            b"\x33\x7f\xff\xff\x00\x00\x00\x00\x00",
            0,
            2,
            (12, 0, 0),
            0xffff_ffff_ffff_ffff,
            0,
            None,
        ),
        (Op::LoadImm, b"\x33\xd1", 0, 0, (1, 0, 0), 0, 0, None),
        (
            Op::StoreImmIndU8,
            b"\x46\x4a\x80\xff\x7f\x00\x00\x00\x00",
            0,
            5,
            (10, 0, 0),
            0x7f_ff80,
            0,
            None,
        ),
        (
            Op::StoreImmIndU16,
            b"\x47\x1b\x05\xff\xff\x00\x00\x00\x00",
            0,
            4,
            (11, 0, 0),
            5,
            0xffff_ffff_ffff_ffff,
            None,
        ),
        (
            Op::BranchEqImm,
            b"\x00\x00\x51\x12\xfe\x7f",
            2,
            3,
            (2, 0, 0),
            0xffff_ffff_ffff_fffe,
            0,
            Some(129),
        ),
        (
            Op::BranchNeImm,
            b"\x00\x00\x52\x1e\xfd\xfc",
            2,
            3,
            (12, 0, 0),
            0xffff_ffff_ffff_fffd,
            0,
            None,
        ),
        (Op::MoveReg, b"\x64\xde", 0, 1, (12, 0, 12), 0, 0, None),
        (
            Op::AddImm64,
            b"\x95\xdf\x81\x82\x83\x84\x00\x00",
            0,
            5,
            (12, 12, 0),
            0xffff_ffff_8483_8281,
            0,
            None,
        ),
        (
            Op::AddImm64,
            b"\x95\x21\x00\x00\x00\x80\x00\x00\x00\x00\x00\x00\x00",
            0,
            24,
            (1, 2, 0),
            0xffff_ffff_8000_0000,
            0,
            None,
        ),
        (
            Op::BranchEq,
            b"\x00\xaa\x2b\x80",
            1,
            2,
            (11, 2, 0),
            0,
            0,
            None,
        ),
        (
            Op::BranchNe,
            b"\x00\x00\x00\xab\x35\xfe",
            3,
            2,
            (5, 3, 0),
            0,
            0,
            Some(1),
        ),
        (
            Op::LoadImmJumpInd,
            b"\xb4\x9a\x02\xff\x80\xfe\xff\xff\xff\xff\xf0",
            0,
            7,
            (10, 9, 0),
            0xffff_ffff_ffff_80ff,
            0xffff_ffff_ffff_fffe,
            None,
        ),
        (
            Op::LoadImmJumpInd,
            b"\xb4\x21\x08\xff\xff\xff",
            0,
            5,
            (1, 2, 0),
            0,
            0xffff_ffff_ffff_ffff,
            None,
        ),
        (Op::Add64, b"\xc8\x5b\x13", 0, 2, (11, 5, 12), 0, 0, None),
        (Op::Add64, b"\xc8\x0f\x0c", 0, 2, (12, 0, 12), 0, 0, None),
    ];
    for row in table {
        stand_so(&rt, row);
    }
}
