// Instructions as a text writes them.
ghost use Rattle.std.specs.Prelude.{◌≡◌, option_map, if◌then◌else◌, Some, None};
ghost use Rattle.pvm_asm.specs.Numbers.{numeral, unsigned, with_sign};
ghost use Rattle.pvm_asm.specs.Words.{is_label};
ghost use Rattle.pvm_asm.specs.Statements.{target_of, entry_target, form_operands, bare, with_operand, with_operands};

use crate::numeral::{Numeral, number_in, register_named, unsigned};
use crate::word::Word;
use crate::words::{Operands, is_label};
use pvm_isa::{Form, Op};

/// Where a jump leads.
#[derive(Drop)]
pub enum Target<'a> {
    /// There is none.
    Absent,
    /// To the place of a label.
    Label(Word<'a>),
    /// To a place of the code, `=N`.
    Place(Numeral),
    /// So many bytes from the instruction, `+N` or `-N`.
    Offset(Numeral),
}

/// An operand, by what it gives: registers A, B and D, immediates X and Y, a target T.
#[derive(Clone, Copy, Debug, PartialEq, Eq)]
pub enum Operand {
    A,
    B,
    D,
    X,
    Y,
    T,
}

/// An instruction with its operands. Those that its form does not have are 0 and absent.
#[derive(Drop)]
pub struct Instruction<'a> {
    pub op: Op,
    pub a: u8,
    pub b: u8,
    pub d: u8,
    pub x: Numeral,
    pub y: Numeral,
    pub target: Target<'a>,
}

fn offset<'a>(negative: bool, word: &[u8]) -> Option<Target<'a>>
    ensures { result ≡ option_map Target.Offset (with_sign negative (unsigned word.now)) }
{
    let size = unsigned(word)?;
    Some(Target::Offset(Numeral { negative, size }))
}

fn place<'a>(word: &[u8]) -> Option<Target<'a>>
    ensures { result ≡ option_map Target.Place (numeral word.now) }
{
    Some(Target::Place(number_in(word)?))
}

fn label(word: &[u8]) -> Option<Target<'_>>
    ensures { result ≡ (if is_label word.now then Some (Target.Label word.now) else None) }
{
    if is_label(word) {
        Some(Target::Label(Word::new(word)))
    } else {
        None
    }
}

/// A target: a label, `=N` for a place, `+N` or `-N` for an offset.
pub fn target_of(word: &[u8]) -> Option<Target<'_>>
    ensures { result ≡ target_of word.now }
{
    match word {
        [b'=', number @ ..] => place(number),
        [b'+', number @ ..] => offset(false, number),
        [b'-', number @ ..] => offset(true, number),
        _ => label(word),
    }
}

/// An entry of the jump table: a label or `=N`.
pub fn entry_target(word: &[u8]) -> Option<Target<'_>>
    ensures { result ≡ entry_target word.now }
{
    match word {
        [b'=', number @ ..] => place(number),
        _ => label(word),
    }
}

/// The operands of a form, in order.
pub fn form_operands(form: Form) -> &'static [Operand]
    ensures { result.now ≡ form_operands form }
{
    match form {
        Form::F1 => &[],
        Form::F2 => &[Operand::X],
        Form::F3 => &[Operand::A, Operand::X],
        Form::F4 => &[Operand::X, Operand::Y],
        Form::F5 => &[Operand::T],
        Form::F6 => &[Operand::A, Operand::X],
        Form::F7 => &[Operand::A, Operand::X, Operand::Y],
        Form::F8 => &[Operand::A, Operand::X, Operand::T],
        Form::F9 => &[Operand::D, Operand::A],
        Form::F10 => &[Operand::A, Operand::B, Operand::X],
        Form::F11 => &[Operand::A, Operand::B, Operand::T],
        Form::F12 => &[Operand::A, Operand::B, Operand::X, Operand::Y],
        Form::F13 => &[Operand::D, Operand::A, Operand::B],
    }
}

/// An instruction without operands.
pub fn bare<'a>(op: Op) -> Instruction<'a>
    ensures { result ≡ bare op }
{
    let naught = Numeral {
        negative: false,
        size: 0,
    };
    Instruction {
        op,
        a: 0,
        b: 0,
        d: 0,
        x: naught,
        y: naught,
        target: Target::Absent,
    }
}

// The instruction with one operand more.
fn with_operand<'a>(
    operand: Operand,
    word: &'a [u8],
    instruction: Instruction<'a>,
) -> Option<Instruction<'a>>
    ensures { result ≡ with_operand operand word.now instruction.entry }
{
    let mut made = instruction;
    match operand {
        Operand::A => made.a = register_named(word)?,
        Operand::B => made.b = register_named(word)?,
        Operand::D => made.d = register_named(word)?,
        Operand::X => made.x = number_in(word)?,
        Operand::Y => made.y = number_in(word)?,
        Operand::T => made.target = target_of(word)?,
    }
    Some(made)
}

/// The instruction with these operands, as many words as there are to be.
pub fn with_operands<'a>(
    operands: &[Operand],
    words: Operands<'a>,
    instruction: Instruction<'a>,
) -> Option<Instruction<'a>>
    ensures { result ≡ with_operands operands.now words.entry instruction.entry }
{
    let mut words = words;
    match operands {
        [] => match words.next() {
            None => Some(instruction),
            Some(_) => None,
        },
        [operand, more @ ..] => {
            let word = words.next()?;
            let made = with_operand(*operand, word, instruction)?;
            with_operands(more, words, made)
        }
    }
}
