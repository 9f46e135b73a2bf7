// What fits, and how many bytes of code a statement gives.
ghost use Rattle.std.specs.Prelude.{◌≡◌, ◌-◌, ◌*◌, ◌^◌, ◌≤◌, length};
ghost use Rattle.pvm_asm.specs.Assembly.{between, x_size, target_size, instruction_size, x_fits, immediates_fit, target_fits, instruction_fits, statement_size, entry_width, bytes_fit, number_fits, place_fits, entry_fits, statement_fits, is_known, knows_target, is_double};

use crate::instruction::{Instruction, Target};
use crate::keyword::Directive;
use crate::labels::Labels;
use crate::line::Statement;
use crate::numeral::Numeral;
use crate::survey::Survey;
use crate::word::{Hex, Word};
use pvm_isa::{Form, form_of};

// How many bytes stand between the opcode and the immediates.
fn between_size(form: Form) -> u64
    ensures most { result ≤ 2 }
    ensures value { (i : Instruction) → result ≡ length (between form i) }
{
    match form {
        Form::F1 | Form::F2 | Form::F5 => 0,
        Form::F12 | Form::F13 => 2,
        _ => 1,
    }
}

fn x_size(form: Form, x: &Numeral) -> u64
    ensures value { result ≡ x_size form x.now }
    ensures most { result ≤ 8 }
{
    if form == Form::F3 {
        8
    } else {
        u64::from(x.least_bytes())
    }
}

fn target_size(target: &Target<'_>) -> u64
    ensures value { result ≡ target_size target.now }
    ensures most { result ≤ 4 }
{
    match target {
        Target::Absent => 0,
        Target::Label(_) | Target::Place(_) => 4,
        Target::Offset(offset) => u64::from(offset.least_bytes()),
    }
}

/// How many bytes an instruction has, wherever it stands.
pub fn instruction_size(instruction: &Instruction<'_>) -> u64
    ensures { result ≡ instruction_size instruction.now }
{
    let form = form_of(instruction.op);
    1 + between_size(form)
        + x_size(form, &instruction.x)
        + u64::from(instruction.y.least_bytes())
        + target_size(&instruction.target)
}

fn x_fits(form: Form, x: &Numeral) -> bool
    ensures { result ≡ x_fits form x.now }
{
    if form == Form::F3 {
        x.is_wide()
    } else {
        x.is_immediate()
    }
}

// A place fits as an offset of 4 bytes from here.
fn is_near(place: u64, to: &Numeral) -> bool
    ensures { result ≡ target_fits place (Target.Place to.now) }
{
    let here = u128::from(place);
    to.is_up_to(u64::MAX) && to.size < here + (1 << 31) && here <= to.size + (1 << 31)
}

fn target_fits(place: u64, target: &Target<'_>) -> bool
    ensures { result ≡ target_fits place target.now }
{
    match target {
        Target::Absent | Target::Label(_) => true,
        Target::Place(to) => is_near(place, to),
        Target::Offset(offset) => offset.is_immediate(),
    }
}

/// Whether all numbers of an instruction at a place fit.
pub fn instruction_fits(place: u64, instruction: &Instruction<'_>) -> bool
    ensures { result ≡ instruction_fits place instruction.now }
{
    x_fits(form_of(instruction.op), &instruction.x)
        && instruction.y.is_immediate()
        && target_fits(place, &instruction.target)
}

/// How many bytes of code a statement gives at a place.
pub fn statement_size(place: u64, statement: &Statement<'_>) -> u64
    ensures { result ≡ statement_size place statement.now }
{
    match statement {
        Statement::Bytes(Directive::Lead, bytes) => bytes.len() as u64,
        Statement::Unit(bytes) => bytes.len() as u64,
        Statement::Instruction(instruction) => {
            if instruction_fits(place, instruction) {
                instruction_size(instruction)
            } else {
                0
            }
        }
        _ => 0,
    }
}

fn bytes_fit(directive: Directive, bytes: &Hex<'_>) -> bool
    ensures { result ≡ bytes_fit directive bytes.now }
{
    directive == Directive::Lead || bytes.len() < 1 << 24
}

fn number_fits(width: u64, directive: Directive, number: &Numeral) -> bool
    ensures { result ≡ number_fits width directive number.now }
{
    match directive {
        Directive::Heap => number.is_up_to(0xffff),
        Directive::Stack => number.is_up_to(0xff_ffff),
        Directive::Width => number.is_up_to(8),
        Directive::Jumps => number.is_up_to(u64::MAX) && width == 0,
        _ => true,
    }
}

// The greatest place that an entry of so many bytes can have.
fn greatest_place(width: u64) -> u64
    requires { width ≤ 8 }
    ensures { result ≡ 2 ^ (8 * width) - 1 }
{
    if width == 8 {
        u64::MAX
    } else {
        (1 << (8 * width)) - 1
    }
}

fn place_fits(width: u64, place: Option<u64>) -> bool
    requires { width ≤ 8 }
    ensures { result ≡ place_fits width place }
{
    match place {
        None => true,
        Some(place) => place <= greatest_place(width),
    }
}

impl Survey {
    /// The width of an entry of the jump table.
    pub fn entry_width(&self) -> u64
        ensures { result ≡ entry_width self.now }
    {
        match self.width {
            Some(width) => width,
            None => if self.jumps { 4 } else { 0 },
        }
    }

    fn entry_fits(&self, target: &Target<'_>) -> bool
        requires { entry_width self.now ≤ 8 }
        ensures { result ≡ entry_fits self.now target.now }
    {
        match target {
            Target::Label(name) => place_fits(self.entry_width(), self.labels.place(name.bytes())),
            Target::Place(place) => place.is_up_to(greatest_place(self.entry_width())),
            _ => true,
        }
    }

    /// Whether all numbers of a statement at a place fit.
    pub fn statement_fits(&self, place: u64, statement: &Statement<'_>) -> bool
        requires { entry_width self.now ≤ 8 }
        ensures { result ≡ statement_fits self.now place statement.now }
    {
        match statement {
            Statement::Bytes(directive, bytes) => bytes_fit(*directive, bytes),
            Statement::Number(directive, number) => number_fits(
                self.entry_width(),
                *directive,
                number,
            ),
            Statement::Jump(target) => self.entry_fits(target),
            Statement::Instruction(instruction) => instruction_fits(place, instruction),
            _ => true,
        }
    }
}

/// Whether the label that a target names is there.
pub fn is_known(labels: &Labels, target: &Target<'_>) -> bool
    ensures { result ≡ is_known labels.now target.now }
{
    match target {
        Target::Label(name) => labels.place(name.bytes()).is_some(),
        _ => true,
    }
}

/// Whether the labels that a statement names are there.
pub fn knows_target(labels: &Labels, statement: &Statement<'_>) -> bool
    ensures { result ≡ knows_target labels.now statement.now }
{
    match statement {
        Statement::Jump(target) => is_known(labels, target),
        Statement::Instruction(instruction) => is_known(labels, &instruction.target),
        _ => true,
    }
}

/// Whether an earlier line has the label.
pub fn is_double(labels: &Labels, label: &Option<Word<'_>>) -> bool
    ensures { result ≡ is_double labels.now label.now }
{
    match label {
        None => false,
        Some(name) => labels.place(name.bytes()).is_some(),
    }
}
