// The arguments of an instruction.
ghost use Rattle.std.specs.Prelude.{◌≡◌, ◌<◌, ◌≤◌, ◌+◌, ◌-◌, ◌*◌, ◌/◌, ◌%◌, ◌^◌, ℕ, List, length};
ghost use Rattle.pvm_isa.specs.declared.form.Form.TheVariants.{F1, F2, F3, F4, F5, F6, F7, F8, F9, F10, F11, F12, F13};
ghost use Rattle.pvm_isa.specs.Opcodes.{form_of};
ghost use Rattle.pvm_isa.specs.Arguments.{arguments, code_byte, high, imm, low, offset, register, short};

use crate::bytes::{at_distance, byte_at, eight_bytes, immediate, register};
use crate::form::Form;
use crate::op::Op;
use crate::opcodes::form_of;

/// Registers A, B and D, immediates X and Y, and a target. What a form does not name is 0.
#[derive(Clone, Copy, Debug, PartialEq, Eq)]
pub struct Args {
    /// The number of register A, below 13.
    pub a: u8,
    /// The number of register B, below 13.
    pub b: u8,
    /// The number of register D, below 13.
    pub d: u8,
    /// The immediate X, with its sign in 64 bits.
    pub x: u64,
    /// The immediate Y, with its sign in 64 bits.
    pub y: u64,
    /// The place that a jump leads to; none where it is below 0, and where the form has none.
    pub target: Option<u64>,
}

/// No arguments.
pub const NONE: Args = Args {
    a: 0,
    b: 0,
    d: 0,
    x: 0,
    y: 0,
    target: None,
};

// The register in the low half of the byte after the opcode.
#[inline]
fn low_register(code: &[u8], pc: u64) -> u8
    requires { pc < length code.now }
    ensures value { result ≡ register (low code.now pc) }
    ensures bound { result < 13 }
{
    register(byte_at(code, pc + 1) % 16)
}

// The register in the high half of the byte after the opcode.
#[inline]
fn high_register(code: &[u8], pc: u64) -> u8
    requires { pc < length code.now }
    ensures value { result ≡ register (high code.now pc) }
    ensures bound { result < 13 }
{
    register(byte_at(code, pc + 1) / 16)
}

// The immediate after the opcode, up to the next instruction.
#[inline]
fn immediate_after_opcode(code: &[u8], pc: u64, skip: u8) -> u64
    requires { pc < length code.now }
    ensures { result ≡ imm code.now (pc + 1) (short skip) }
{
    immediate(code, pc + 1, skip.min(4))
}

// The immediate after the registers' byte, up to the next instruction.
#[inline]
fn immediate_after_registers(code: &[u8], pc: u64, skip: u8) -> u64
    requires { pc < length code.now }
    ensures { result ≡ imm code.now (pc + 2) (short (skip - 1)) }
{
    immediate(code, pc + 2, skip.saturating_sub(1).min(4))
}

/// The length of X that three bits tell.
#[inline]
pub fn first_length(bits: u8) -> u8
    ensures value { result ≡ short (bits % 8) }
    ensures few { result ≤ 4 }
{
    (bits % 8).min(4)
}

/// No arguments.
#[inline]
#[tactic(auto, unfolding(crate::specs::Arguments::arguments))]
pub fn no_arguments() -> Args
    ensures arguments { (code : List ℕ) (i l : ℕ) → result ≡ arguments F1 code i l }
{
    NONE
}

/// An immediate X.
#[inline]
#[tactic(auto, unfolding(crate::specs::Arguments::arguments))]
pub fn one_immediate(code: &[u8], pc: u64, skip: u8) -> Args
    requires within { pc < length code.now }
    requires short { skip ≤ 24 }
    ensures arguments { result ≡ arguments F2 code.now pc skip }
{
    Args {
        x: immediate_after_opcode(code, pc, skip),
        ..NONE
    }
}

/// A register A and an immediate X of eight bytes, whatever the skip.
#[inline]
#[tactic(auto, unfolding(crate::specs::Arguments::arguments))]
pub fn register_and_wide_immediate(code: &[u8], pc: u64) -> Args
    requires { pc < length code.now }
    ensures arguments { (skip : ℕ) → result ≡ arguments F3 code.now pc skip }
    ensures a { result.a < 13 }
{
    Args {
        a: low_register(code, pc),
        x: eight_bytes(code, pc + 2),
        ..NONE
    }
}

/// Immediates X and Y; the byte after the opcode tells the length of X.
#[inline]
#[tactic(auto, unfolding(crate::specs::Arguments::arguments))]
pub fn two_immediates(code: &[u8], pc: u64, skip: u8) -> Args
    requires within { pc < length code.now }
    requires short { skip ≤ 24 }
    ensures arguments { result ≡ arguments F4 code.now pc skip }
{
    let size = first_length(byte_at(code, pc + 1));
    let after = pc + 2 + u64::from(size);
    Args {
        x: immediate(code, pc + 2, size),
        y: immediate(code, after, skip.saturating_sub(size + 1).min(4)),
        ..NONE
    }
}

/// An offset to a target.
#[inline]
#[tactic(auto, unfolding(crate::specs::Arguments::arguments))]
pub fn one_offset(code: &[u8], pc: u64, skip: u8) -> Args
    requires within { pc < length code.now }
    requires short { skip ≤ 24 }
    ensures arguments { result ≡ arguments F5 code.now pc skip }
{
    Args {
        target: at_distance(pc, immediate_after_opcode(code, pc, skip)),
        ..NONE
    }
}

/// A register A and an immediate X.
#[inline]
#[tactic(auto, unfolding(crate::specs::Arguments::arguments))]
pub fn register_and_immediate(code: &[u8], pc: u64, skip: u8) -> Args
    requires within { pc < length code.now }
    requires short { skip ≤ 24 }
    ensures arguments { result ≡ arguments F6 code.now pc skip }
    ensures a { result.a < 13 }
{
    Args {
        a: low_register(code, pc),
        x: immediate_after_registers(code, pc, skip),
        ..NONE
    }
}

/// A register A and immediates X and Y.
#[inline]
#[tactic(auto, unfolding(crate::specs::Arguments::arguments))]
pub fn register_and_two_immediates(code: &[u8], pc: u64, skip: u8) -> Args
    requires within { pc < length code.now }
    requires short { skip ≤ 24 }
    ensures arguments { result ≡ arguments F7 code.now pc skip }
    ensures a { result.a < 13 }
{
    let size = first_length(byte_at(code, pc + 1) / 16);
    let after = pc + 2 + u64::from(size);
    Args {
        a: low_register(code, pc),
        x: immediate(code, pc + 2, size),
        y: immediate(code, after, skip.saturating_sub(size + 1).min(4)),
        ..NONE
    }
}

/// A register A, an immediate X and an offset to a target.
#[inline]
#[tactic(auto, unfolding(crate::specs::Arguments::arguments))]
pub fn register_immediate_and_offset(code: &[u8], pc: u64, skip: u8) -> Args
    requires within { pc < length code.now }
    requires short { skip ≤ 24 }
    ensures arguments { result ≡ arguments F8 code.now pc skip }
    ensures a { result.a < 13 }
{
    let size = first_length(byte_at(code, pc + 1) / 16);
    let after = pc + 2 + u64::from(size);
    let distance = immediate(code, after, skip.saturating_sub(size + 1).min(4));
    Args {
        a: low_register(code, pc),
        x: immediate(code, pc + 2, size),
        target: at_distance(pc, distance),
        ..NONE
    }
}

/// Registers A and D, whatever the skip.
#[inline]
#[tactic(auto, unfolding(crate::specs::Arguments::arguments))]
pub fn two_registers(code: &[u8], pc: u64) -> Args
    requires { pc < length code.now }
    ensures arguments { (skip : ℕ) → result ≡ arguments F9 code.now pc skip }
    ensures a { result.a < 13 }
    ensures d { result.d < 13 }
{
    Args {
        a: high_register(code, pc),
        d: low_register(code, pc),
        ..NONE
    }
}

/// Registers A and B and an immediate X.
#[inline]
#[tactic(auto, unfolding(crate::specs::Arguments::arguments))]
pub fn two_registers_and_immediate(code: &[u8], pc: u64, skip: u8) -> Args
    requires within { pc < length code.now }
    requires short { skip ≤ 24 }
    ensures arguments { result ≡ arguments F10 code.now pc skip }
    ensures a { result.a < 13 }
    ensures b { result.b < 13 }
{
    Args {
        a: low_register(code, pc),
        b: high_register(code, pc),
        x: immediate_after_registers(code, pc, skip),
        ..NONE
    }
}

/// Registers A and B and an offset to a target.
#[inline]
#[tactic(auto, unfolding(crate::specs::Arguments::arguments))]
pub fn two_registers_and_offset(code: &[u8], pc: u64, skip: u8) -> Args
    requires within { pc < length code.now }
    requires short { skip ≤ 24 }
    ensures arguments { result ≡ arguments F11 code.now pc skip }
    ensures a { result.a < 13 }
    ensures b { result.b < 13 }
{
    Args {
        a: low_register(code, pc),
        b: high_register(code, pc),
        target: at_distance(pc, immediate_after_registers(code, pc, skip)),
        ..NONE
    }
}

/// Registers A and B and immediates X and Y; the byte after those of the registers tells the
/// length of X.
#[inline]
#[tactic(auto, unfolding(crate::specs::Arguments::arguments))]
pub fn two_registers_and_two_immediates(code: &[u8], pc: u64, skip: u8) -> Args
    requires within { pc < length code.now }
    requires short { skip ≤ 24 }
    ensures arguments { result ≡ arguments F12 code.now pc skip }
    ensures a { result.a < 13 }
    ensures b { result.b < 13 }
{
    let size = first_length(byte_at(code, pc + 2));
    let after = pc + 3 + u64::from(size);
    Args {
        a: low_register(code, pc),
        b: high_register(code, pc),
        x: immediate(code, pc + 3, size),
        y: immediate(code, after, skip.saturating_sub(size + 2).min(4)),
        ..NONE
    }
}

/// Registers A, B and D, whatever the skip.
#[inline]
#[tactic(auto, unfolding(crate::specs::Arguments::arguments))]
pub fn three_registers(code: &[u8], pc: u64) -> Args
    requires { pc < length code.now }
    ensures arguments { (skip : ℕ) → result ≡ arguments F13 code.now pc skip }
    ensures a { result.a < 13 }
    ensures b { result.b < 13 }
    ensures d { result.d < 13 }
{
    Args {
        a: low_register(code, pc),
        b: high_register(code, pc),
        d: register(byte_at(code, pc + 2)),
        ..NONE
    }
}

/// The arguments of the instruction of this opcode at `pc`, which `skip` bytes follow before the
/// next instruction.
#[inline]
#[tactic(auto, using(crate::proofs::Registers::a_below, crate::proofs::Registers::b_below, crate::proofs::Registers::d_below))]
pub fn args_of(op: Op, code: &[u8], pc: u64, skip: u8) -> Args
    requires within { pc < length code.now }
    requires short { skip ≤ 24 }
    ensures arguments { result ≡ arguments (form_of op) code.now pc skip }
    ensures a { result.a < 13 }
    ensures b { result.b < 13 }
    ensures d { result.d < 13 }
{
    match form_of(op) {
        Form::F1 => no_arguments(),
        Form::F2 => one_immediate(code, pc, skip),
        Form::F3 => register_and_wide_immediate(code, pc),
        Form::F4 => two_immediates(code, pc, skip),
        Form::F5 => one_offset(code, pc, skip),
        Form::F6 => register_and_immediate(code, pc, skip),
        Form::F7 => register_and_two_immediates(code, pc, skip),
        Form::F8 => register_immediate_and_offset(code, pc, skip),
        Form::F9 => two_registers(code, pc),
        Form::F10 => two_registers_and_immediate(code, pc, skip),
        Form::F11 => two_registers_and_offset(code, pc, skip),
        Form::F12 => two_registers_and_two_immediates(code, pc, skip),
        Form::F13 => three_registers(code, pc),
    }
}
