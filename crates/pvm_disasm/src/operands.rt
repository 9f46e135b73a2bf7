// Instructions by name.
ghost use Rattle.std.specs.Prelude.{◌≡◌, ◌<◌, ◌^◌, ◌++◌, length, map, OnOk, string_bytes};
ghost use Rattle.pvm_isa.specs.Arguments.{offset};
ghost use Rattle.pvm_disasm.specs.Units.{unit_args, offset_in, register_text, signed_text, destination_text, operand_text, later_operands, operands_text, instruction_text};

use pvm_asm::{Operand, form_operands};
use pvm_isa::{
    Args, Form, Op, args_of, form_of, name_of, one_immediate, register_and_two_immediates,
    two_registers_and_immediate,
};
use std::alloc::AllocError;

/// A target, as a listing writes it.
#[derive(Clone, Copy)]
pub enum Destination {
    /// A place of the code.
    Place(u64),
    /// So many bytes from the instruction, as a signed number of 64 bits.
    Offset(u64),
}

/// The arguments of a unit as an instruction alone, with its offset as an immediate.
pub fn unit_args(op: Op, unit: &[u8]) -> Args
    requires { 0 < length unit.now }
    ensures { result ≡ unit_args op unit.now }
{
    let skip = (unit.len() - 1).min(24) as u8;
    match form_of(op) {
        Form::F5 => one_immediate(unit, 0, skip),
        Form::F8 => register_and_two_immediates(unit, 0, skip),
        Form::F11 => two_registers_and_immediate(unit, 0, skip),
        _ => args_of(op, unit, 0, skip),
    }
}

/// How far the target is from the instruction; 0 where the form has none.
pub fn offset_in(form: Form, args: &Args) -> u64
    ensures { result ≡ offset_in form args.now }
{
    match form {
        Form::F5 | Form::F11 => args.x,
        Form::F8 => args.y,
        _ => 0,
    }
}

/// The place so far from another, if it is not below 0.
pub fn place_at(place: u64, distance: u64) -> Option<u64>
    requires { place < 2 ^ 63 }
    ensures { result ≡ offset place distance }
{
    if distance < 1 << 63 {
        Some(place + distance)
    } else {
        place.checked_sub(distance.wrapping_neg())
    }
}

fn push_register(line: &mut String, number: u8) -> Result<(), AllocError>
    ensures { OnOk result (string_bytes line.new ≡ string_bytes line.old ++ register_text number) }
{
    write!(line, "r{number}")
}

fn push_signed(line: &mut String, x: u64) -> Result<(), AllocError>
    ensures { OnOk result (string_bytes line.new ≡ string_bytes line.old ++ signed_text x) }
{
    if x < 1 << 63 {
        write!(line, "{x}")
    } else {
        let below = x.wrapping_neg();
        write!(line, "-{below}")
    }
}

fn push_offset(line: &mut String, x: u64) -> Result<(), AllocError>
    ensures { OnOk result (string_bytes line.new ≡ string_bytes line.old ++ destination_text (Destination.Offset x)) }
{
    if x < 1 << 63 {
        write!(line, "+{x}")
    } else {
        let size = x.wrapping_neg();
        write!(line, "-{size}")
    }
}

fn push_destination(line: &mut String, to: Destination) -> Result<(), AllocError>
    ensures { OnOk result (string_bytes line.new ≡ string_bytes line.old ++ destination_text to) }
{
    match to {
        Destination::Place(place) => write!(line, "={place}"),
        Destination::Offset(x) => push_offset(line, x),
    }
}

fn push_operand(
    line: &mut String,
    args: &Args,
    to: Destination,
    operand: Operand,
) -> Result<(), AllocError>
    ensures { OnOk result (string_bytes line.new ≡ string_bytes line.old ++ operand_text args.now to operand) }
{
    match operand {
        Operand::A => push_register(line, args.a),
        Operand::B => push_register(line, args.b),
        Operand::D => push_register(line, args.d),
        Operand::X => push_signed(line, args.x),
        Operand::Y => push_signed(line, args.y),
        Operand::T => push_destination(line, to),
    }
}

// The operands after the first, each after a comma and a blank.
fn push_later(
    line: &mut String,
    args: &Args,
    to: Destination,
    operands: &[Operand],
) -> Result<(), AllocError>
    ensures { OnOk result (string_bytes line.new ≡ string_bytes line.old ++ later_operands (map (operand_text args.now to) operands.now)) }
{
    for operand in operands {
        line.push_str(", ")?;
        push_operand(line, args, to, *operand)?;
    }
    Ok(())
}

fn push_operands(
    line: &mut String,
    args: &Args,
    to: Destination,
    operands: &[Operand],
) -> Result<(), AllocError>
    ensures { OnOk result (string_bytes line.new ≡ string_bytes line.old ++ operands_text (map (operand_text args.now to) operands.now)) }
{
    match operands {
        [] => Ok(()),
        [first, more @ ..] => {
            line.push_str(" ")?;
            push_operand(line, args, to, *first)?;
            push_later(line, args, to, more)
        }
    }
}

/// Adds an instruction by name.
///
/// # Errors
/// Want of memory; then a part of it may have been added.
#[tactic(auto, unfolding(crate::specs::Units::instruction_text))]
pub fn push_instruction(
    line: &mut String,
    op: Op,
    args: &Args,
    to: Destination,
) -> Result<(), AllocError>
    ensures { OnOk result (string_bytes line.new ≡ string_bytes line.old ++ instruction_text op args.now to) }
{
    line.push_str(name_of(op))?;
    push_operands(line, args, to, form_operands(form_of(op)))
}
