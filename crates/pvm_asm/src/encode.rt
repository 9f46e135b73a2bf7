// The bytes of instructions.
ghost use Rattle.std.specs.Prelude.{◌≡◌, [], ◌∷◌, ◌++◌, OnOk};
ghost use Rattle.byte_numbers.specs.Numbers.{little_endian};
ghost use Rattle.pvm_asm.specs.Assembly.{immediate_bytes, x_bytes, halves, between, distance, target_bytes, instruction_bytes};

use crate::instruction::{Instruction, Target};
use crate::labels::Labels;
use crate::numeral::Numeral;
use pvm_isa::{Form, form_of, number_of};
use std::alloc::AllocError;

/// Adds the low bytes of a number, the least significant first.
///
/// # Errors
/// Want of memory; then some of them may have been added.
#[tactic(auto, using(crate::proofs::Pushed::low_step, crate::proofs::Pushed::low_none))]
pub fn push_low(out: &mut Vec<u8>, width: u8, number: u128) -> Result<(), AllocError>
    ensures { OnOk result (out.new.items ≡ out.old.items ++ little_endian width number) }
{
    let mut left = number;
    for _byte in 0..width {
        out.push((left % 256) as u8)?;
        left /= 256;
    }
    Ok(())
}

fn push_immediate(out: &mut Vec<u8>, number: &Numeral) -> Result<(), AllocError>
    ensures { OnOk result (out.new.items ≡ out.old.items ++ immediate_bytes number.now) }
{
    push_low(out, number.least_bytes(), number.word())
}

fn push_x(out: &mut Vec<u8>, form: Form, x: &Numeral) -> Result<(), AllocError>
    ensures { OnOk result (out.new.items ≡ out.old.items ++ x_bytes form x.now) }
{
    if form == Form::F3 {
        push_low(out, 8, x.word())
    } else {
        push_immediate(out, x)
    }
}

// Two registers in the halves of a byte.
fn halves(low: u8, high: u8) -> u8
    ensures { result ≡ halves low high }
{
    low % 16 + 16 * (high % 16)
}

fn push_two(out: &mut Vec<u8>, first: u8, second: u8) -> Result<(), AllocError>
    ensures { OnOk result (out.new.items ≡ out.old.items ++ first ∷ second ∷ []) }
{
    out.push(first)?;
    out.push(second)?;
    Ok(())
}

fn push_one(out: &mut Vec<u8>, byte: u8) -> Result<(), AllocError>
    ensures { OnOk result (out.new.items ≡ out.old.items ++ byte ∷ []) }
{
    out.push(byte)?;
    Ok(())
}

// What stands between the opcode and the immediates.
fn push_between(out: &mut Vec<u8>, form: Form, i: &Instruction<'_>) -> Result<(), AllocError>
    ensures { OnOk result (out.new.items ≡ out.old.items ++ between form i.now) }
{
    let x = i.x.least_bytes();
    match form {
        Form::F1 | Form::F2 | Form::F5 => Ok(()),
        Form::F3 | Form::F6 => push_one(out, i.a),
        Form::F4 => push_one(out, x),
        Form::F7 | Form::F8 => push_one(out, halves(i.a, x)),
        Form::F9 => push_one(out, halves(i.d, i.a)),
        Form::F10 | Form::F11 => push_one(out, halves(i.a, i.b)),
        Form::F12 => push_two(out, halves(i.a, i.b), x),
        Form::F13 => push_two(out, halves(i.a, i.b), i.d),
    }
}

fn distance(from: u64, to: u128) -> u128
    ensures { result ≡ distance from to }
{
    const TURN: u128 = 1 << 64;
    (to % TURN + (TURN - u128::from(from))) % TURN
}

fn push_target(
    out: &mut Vec<u8>,
    labels: &Labels,
    place: u64,
    target: &Target<'_>,
) -> Result<(), AllocError>
    ensures { OnOk result (out.new.items ≡ out.old.items ++ target_bytes labels.now place target.now) }
{
    match target {
        Target::Absent => Ok(()),
        Target::Label(name) => {
            let to = labels.place(name.bytes()).unwrap_or(0);
            push_low(out, 4, distance(place, u128::from(to)))
        }
        Target::Place(to) => push_low(out, 4, distance(place, to.size)),
        Target::Offset(offset) => push_immediate(out, offset),
    }
}

/// Adds the bytes of an instruction that stands at a place.
///
/// # Errors
/// Want of memory; then some of them may have been added.
pub fn push_instruction(
    out: &mut Vec<u8>,
    labels: &Labels,
    place: u64,
    i: &Instruction<'_>,
) -> Result<(), AllocError>
    ensures { OnOk result (out.new.items ≡ out.old.items ++ instruction_bytes labels.now place i.now) }
{
    let form = form_of(i.op);
    push_one(out, number_of(i.op))?;
    push_between(out, form, i)?;
    push_x(out, form, &i.x)?;
    push_immediate(out, &i.y)?;
    push_target(out, labels, place, &i.target)
}
