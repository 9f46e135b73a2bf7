// The arguments that stand in eight bytes of the code, which are read as one number.
ghost use Rattle.std.specs.Prelude.{◌≡◌, ◌<◌, ◌≤◌, ◌+◌, ◌-◌, ◌%◌, ◌^◌, ℕ, List, length};
ghost use Rattle.pvm_isa.specs.declared.form.Form.TheVariants.{F5, F6, F8, F9, F10, F11, F13};
ghost use Rattle.byte_numbers.specs.Signs.{extended_bytes};
ghost use Rattle.pvm_isa.specs.Arguments.{IsWindow, arguments, code_byte, high, imm, low, offset, register, short};

use crate::arguments::{Args, NONE, first_length, register_immediate_and_offset};
use crate::bytes::{at_distance, eight_at, eight_bytes, with_sign};

/// The number in the eight bytes of the code at a place, the least significant first. Past the
/// code they are 0.
#[inline]
pub fn code_window(code: &[u8], place: u64) -> u64
    requires { place < 2 ^ 63 + 2 ^ 32 }
    ensures { IsWindow code.now place result }
{
    eight_bytes(code, place)
}

/// The same where the code has all eight.
#[inline]
pub fn whole_window(code: &[u8], place: u64) -> u64
    requires { place + 8 ≤ length code.now }
    ensures { IsWindow code.now place result }
{
    eight_at(code, place as usize)
}

// The byte after the first.
#[inline]
fn second(bytes: u64) -> u8
    ensures { (code : List ℕ) (place : ℕ) → IsWindow code place bytes → result ≡ code_byte code (place + 1) }
{
    ((bytes >> 8) % 256) as u8
}

// The register in the low half of the second byte.
#[inline]
fn low_register(bytes: u64) -> u8
    ensures value { (code : List ℕ) (place : ℕ) → IsWindow code place bytes → result ≡ register (low code place) }
    ensures bound { result < 13 }
{
    ((bytes >> 8) % 16).min(12) as u8
}

// The register in the high half of the second byte.
#[inline]
fn high_register(bytes: u64) -> u8
    ensures value { (code : List ℕ) (place : ℕ) → IsWindow code place bytes → result ≡ register (high code place) }
    ensures bound { result < 13 }
{
    ((bytes >> 12) % 16).min(12) as u8
}

// The register of the third byte.
#[inline]
fn third_register(bytes: u64) -> u8
    ensures value { (code : List ℕ) (place : ℕ) → IsWindow code place bytes → result ≡ register (code_byte code (place + 2)) }
    ensures bound { result < 13 }
{
    ((bytes >> 16) % 256).min(12) as u8
}

// The immediate in so many bytes from one of the eight on.
#[inline]
fn immediate_at(bytes: u64, from: u8, size: u8) -> u64
    requires few { size ≤ 4 }
    requires some { from < 8 }
    requires within { from + size ≤ 8 }
    ensures { (code : List ℕ) (place : ℕ) → IsWindow code place bytes → result ≡ imm code (place + from) size }
{
    with_sign(bytes >> (8 * from), size)
}

// The immediate after the registers' byte, up to the next instruction.
#[inline]
fn immediate_after_registers(bytes: u64, skip: u8) -> u64
    ensures { (code : List ℕ) (place : ℕ) → IsWindow code place bytes → result ≡ imm code (place + 2) (short (skip - 1)) }
{
    immediate_at(bytes, 2, skip.saturating_sub(1).min(4))
}

/// A register A and an immediate X, of an instruction with these first eight bytes.
#[inline(always)]
#[tactic(auto, unfolding(crate::specs::Arguments::arguments))]
pub fn register_and_immediate_in(bytes: u64, skip: u8) -> Args
    ensures arguments { (code : List ℕ) (pc : ℕ) → IsWindow code pc bytes → result ≡ arguments F6 code pc skip }
    ensures a { result.a < 13 }
{
    Args {
        a: low_register(bytes),
        x: immediate_after_registers(bytes, skip),
        ..NONE
    }
}

/// The immediate X of an instruction of a register, an immediate and an offset, with these first eight bytes.
#[inline(always)]
pub fn immediate_before_offset_in(bytes: u64) -> u64
    ensures { (code : List ℕ) (pc skip : ℕ) → IsWindow code pc bytes → result ≡ (arguments F8 code pc skip).x }
{
    immediate_at(bytes, 2, first_length(second(bytes) / 16))
}

/// A register A, an immediate X and an offset to a target, of the instruction at `pc` with these first eight bytes.
#[inline]
#[tactic(auto, unfolding(crate::specs::Arguments::arguments))]
pub fn register_immediate_and_offset_in(code: &[u8], bytes: u64, pc: u64, skip: u8) -> Args
    requires within { pc < length code.now }
    requires short { skip ≤ 24 }
    requires window { IsWindow code.now pc bytes }
    ensures arguments { result ≡ arguments F8 code.now pc skip }
    ensures a { result.a < 13 }
{
    let size = first_length(second(bytes) / 16);
    let left = skip.saturating_sub(size + 1).min(4);
    if size + left > 6 {
        // The offset does not end within the eight bytes.
        return register_immediate_and_offset(code, pc, skip);
    }
    Args {
        a: low_register(bytes),
        x: immediate_at(bytes, 2, size),
        target: at_distance(pc, immediate_at(bytes, 2 + size, left)),
        ..NONE
    }
}

/// Registers A and D, of an instruction with these first eight bytes.
#[inline(always)]
#[tactic(auto, unfolding(crate::specs::Arguments::arguments))]
pub fn two_registers_in(bytes: u64) -> Args
    ensures arguments { (code : List ℕ) (pc skip : ℕ) → IsWindow code pc bytes → result ≡ arguments F9 code pc skip }
    ensures a { result.a < 13 }
    ensures d { result.d < 13 }
{
    Args {
        a: high_register(bytes),
        d: low_register(bytes),
        ..NONE
    }
}

/// Registers A and B and an immediate X, of an instruction with these first eight bytes.
#[inline(always)]
#[tactic(auto, unfolding(crate::specs::Arguments::arguments))]
pub fn two_registers_and_immediate_in(bytes: u64, skip: u8) -> Args
    ensures arguments { (code : List ℕ) (pc : ℕ) → IsWindow code pc bytes → result ≡ arguments F10 code pc skip }
    ensures a { result.a < 13 }
    ensures b { result.b < 13 }
{
    Args {
        a: low_register(bytes),
        b: high_register(bytes),
        x: immediate_after_registers(bytes, skip),
        ..NONE
    }
}

/// The lower half of the immediate X of an instruction of two registers and an immediate, with these first eight bytes.
/// The immediate has at most 4 bytes, so that `extended` gives it back.
#[inline]
pub fn short_immediate_in(bytes: u64, skip: u8) -> u32
    ensures { (code : List ℕ) (pc : ℕ) → IsWindow code pc bytes → extended_bytes 4 result ≡ (arguments F10 code pc skip).x }
{
    (immediate_after_registers(bytes, skip) % (1 << 32)) as u32
}

/// A number of 32 bits with its sign, in 64 bits.
#[inline(always)]
pub fn extended(half: u32) -> u64
    ensures { result ≡ extended_bytes 4 half }
{
    with_sign(u64::from(half), 4)
}

/// Where the offset of the instruction at `pc` leads, with these first eight bytes: of an instruction that has nothing else.
#[inline(always)]
pub fn target_of_offset_in(bytes: u64, pc: u64, skip: u8) -> Option<u64>
    requires { pc < 2 ^ 63 }
    ensures { (code : List ℕ) → IsWindow code pc bytes → result ≡ (arguments F5 code pc skip).target }
{
    at_distance(pc, immediate_at(bytes, 1, skip.min(4)))
}

/// The register D of an instruction of three registers, with these first eight bytes. It is below 13.
#[inline(always)]
pub fn third_register_in(bytes: u64) -> u8
    ensures value { (code : List ℕ) (pc skip : ℕ) → IsWindow code pc bytes → result ≡ (arguments F13 code pc skip).d }
    ensures bound { result < 13 }
{
    third_register(bytes)
}

/// Registers A and B and an offset to a target, of the instruction at `pc` with these first eight bytes.
#[inline]
#[tactic(auto, unfolding(crate::specs::Arguments::arguments))]
pub fn two_registers_and_offset_in(bytes: u64, pc: u64, skip: u8) -> Args
    requires { pc < 2 ^ 63 }
    ensures arguments { (code : List ℕ) → IsWindow code pc bytes → result ≡ arguments F11 code pc skip }
    ensures a { result.a < 13 }
    ensures b { result.b < 13 }
{
    Args {
        a: low_register(bytes),
        b: high_register(bytes),
        target: at_distance(pc, immediate_after_registers(bytes, skip)),
        ..NONE
    }
}

/// Registers A, B and D, of an instruction with these first eight bytes.
#[inline(always)]
#[tactic(auto, unfolding(crate::specs::Arguments::arguments))]
pub fn three_registers_in(bytes: u64) -> Args
    ensures arguments { (code : List ℕ) (pc skip : ℕ) → IsWindow code pc bytes → result ≡ arguments F13 code pc skip }
    ensures a { result.a < 13 }
    ensures b { result.b < 13 }
    ensures d { result.d < 13 }
{
    Args {
        a: low_register(bytes),
        b: high_register(bytes),
        d: third_register(bytes),
        ..NONE
    }
}
