// What a line says, read by itself.
ghost use Rattle.std.specs.Prelude.{◌≡◌};
ghost use Rattle.pvm_asm.specs.Numbers.{hex_bytes, numeral};
ghost use Rattle.pvm_asm.specs.Statements.{directive_statement, sorted_statement, instruction_statement, statement_in, read_line, or_bad, sort_named, named_statement};
ghost use Rattle.pvm_asm.specs.Assembly.{sort_of, is_statement, is_unknown, is_bad, is_jump, header_of, is_unit, width_set};

use crate::instruction::{Instruction, Target, bare, entry_target, form_operands, with_operands};
use crate::keyword::{Directive, Header, Sort, sort_named};
use crate::numeral::{Numeral, number_in};
use crate::opcode::op_with_name;
use crate::word::{Hex, Word};
use crate::words::{Operands, marked_label, split_word, uncommented, unpadded};
use pvm_isa::{Op, form_of};

/// A statement, read by itself.
#[derive(Drop)]
pub enum Statement<'a> {
    /// There is none.
    Nothing,
    /// A name that nothing has.
    Unknown,
    /// Other operands than the statement takes.
    Bad(Sort),
    Header(Header),
    /// A directive with bytes.
    Bytes(Directive, Hex<'a>),
    /// A directive with a number.
    Number(Directive, Numeral),
    /// An entry of the jump table.
    Jump(Target<'a>),
    /// Bytes of code.
    Unit(Hex<'a>),
    Instruction(Instruction<'a>),
}

/// A line, read by itself.
#[derive(Drop)]
pub struct Line<'a> {
    pub label: Option<Word<'a>>,
    pub statement: Statement<'a>,
}

fn bytes_statement(directive: Directive, word: &[u8]) -> Statement<'_>
    ensures { result ≡ or_bad (Sort.Directive directive) (Statement.Bytes directive) (hex_bytes word.now) }
{
    match Hex::read(word) {
        Some(hex) => Statement::Bytes(directive, hex),
        None => Statement::Bad(Sort::Directive(directive)),
    }
}

fn number_statement<'a>(directive: Directive, word: &[u8]) -> Statement<'a>
    ensures { result ≡ or_bad (Sort.Directive directive) (Statement.Number directive) (numeral word.now) }
{
    match number_in(word) {
        Some(number) => Statement::Number(directive, number),
        None => Statement::Bad(Sort::Directive(directive)),
    }
}

fn jump_statement(word: &[u8]) -> Statement<'_>
    ensures { result ≡ directive_statement Directive.Jump word.now }
{
    match entry_target(word) {
        Some(target) => Statement::Jump(target),
        None => Statement::Bad(Sort::Directive(Directive::Jump)),
    }
}

// A directive and its one operand.
fn directive_statement(directive: Directive, word: &[u8]) -> Statement<'_>
    ensures { result ≡ directive_statement directive word.now }
{
    match directive {
        Directive::Meta => bytes_statement(Directive::Meta, word),
        Directive::Ro => bytes_statement(Directive::Ro, word),
        Directive::Rw => bytes_statement(Directive::Rw, word),
        Directive::Lead => bytes_statement(Directive::Lead, word),
        Directive::Heap => number_statement(Directive::Heap, word),
        Directive::Stack => number_statement(Directive::Stack, word),
        Directive::Width => number_statement(Directive::Width, word),
        Directive::Jumps => number_statement(Directive::Jumps, word),
        Directive::Jump => jump_statement(word),
    }
}

fn unit_statement(word: &[u8]) -> Statement<'_>
    ensures { result ≡ or_bad Sort.Unit Statement.Unit (hex_bytes word.now) }
{
    match Hex::read(word) {
        Some(hex) => Statement::Unit(hex),
        None => Statement::Bad(Sort::Unit),
    }
}

fn header_statement<'a>(header: Header, operands: &Operands<'a>) -> Statement<'a>
    ensures { result ≡ sorted_statement (Sort.Header header) operands.now }
{
    if operands.is_empty() {
        Statement::Header(header)
    } else {
        Statement::Bad(Sort::Header(header))
    }
}

fn sorted_statement(sort: Sort, operands: Operands<'_>) -> Statement<'_>
    ensures { result ≡ sorted_statement sort operands.entry }
{
    match sort {
        Sort::Header(header) => header_statement(header, &operands),
        Sort::Directive(directive) => directive_statement(directive, operands.only()),
        Sort::Unit => unit_statement(operands.only()),
    }
}

/// An instruction with these operands.
pub fn instruction_statement(op: Op, operands: Operands<'_>) -> Statement<'_>
    ensures { result ≡ instruction_statement op operands.entry }
{
    match with_operands(form_operands(form_of(op)), operands, bare(op)) {
        Some(instruction) => Statement::Instruction(instruction),
        None => Statement::Bad(Sort::Unit),
    }
}

fn named_statement<'a>(name: &[u8], operands: Operands<'a>) -> Statement<'a>
    ensures { result ≡ named_statement (sort_named name.now) name.now operands.entry }
{
    match sort_named(name) {
        Some(sort) => sorted_statement(sort, operands),
        None => match op_with_name(name) {
            Some(op) => instruction_statement(op, operands),
            None => Statement::Unknown,
        },
    }
}

// A name and its operands, or nothing.
fn statement_in(text: &[u8]) -> Statement<'_>
    ensures { result ≡ statement_in text.now }
{
    if text.is_empty() {
        return Statement::Nothing;
    }
    let (name, rest) = split_word(text);
    named_statement(name, Operands::new(rest))
}

/// A line: a label, a statement, both, or nothing.
pub fn read_line(line: &[u8]) -> Line<'_>
    ensures { result ≡ read_line line.now }
{
    let text = unpadded(uncommented(line));
    let (first, rest) = split_word(text);
    match marked_label(first) {
        Some(label) => Line {
            label: Some(Word::new(label)),
            statement: statement_in(unpadded(rest)),
        },
        None => Line {
            label: None,
            statement: statement_in(text),
        },
    }
}

/// What a statement is.
pub fn sort_of(statement: &Statement<'_>) -> Option<Sort>
    ensures { result ≡ sort_of statement.now }
{
    match statement {
        Statement::Nothing | Statement::Unknown => None,
        Statement::Bad(sort) => Some(*sort),
        Statement::Header(header) => Some(Sort::Header(*header)),
        Statement::Bytes(directive, _) => Some(Sort::Directive(*directive)),
        Statement::Number(directive, _) => Some(Sort::Directive(*directive)),
        Statement::Jump(_) => Some(Sort::Directive(Directive::Jump)),
        Statement::Unit(_) | Statement::Instruction(_) => Some(Sort::Unit),
    }
}

/// Whether there is a statement.
pub fn is_statement(statement: &Statement<'_>) -> bool
    ensures { result ≡ is_statement statement.now }
{
    !matches!(statement, Statement::Nothing)
}

/// Whether nothing has its name.
pub fn is_unknown(statement: &Statement<'_>) -> bool
    ensures { result ≡ is_unknown statement.now }
{
    matches!(statement, Statement::Unknown)
}

/// Whether it has other operands than it takes.
pub fn is_bad(statement: &Statement<'_>) -> bool
    ensures { result ≡ is_bad statement.now }
{
    matches!(statement, Statement::Bad(_))
}

/// Whether it is an entry of the jump table.
pub fn is_jump(statement: &Statement<'_>) -> bool
    ensures { result ≡ is_jump statement.now }
{
    matches!(statement, Statement::Jump(_))
}

/// The header, where it is one.
pub fn header_of(sort: Option<Sort>) -> Option<Header>
    ensures { result ≡ header_of sort }
{
    match sort {
        Some(Sort::Header(header)) => Some(header),
        _ => None,
    }
}

/// Whether it gives bytes of code after the first unit's place.
pub fn is_unit(sort: Option<Sort>) -> bool
    ensures { result ≡ is_unit sort }
{
    matches!(sort, Some(Sort::Unit))
}

/// The width that a statement sets.
pub fn width_set(statement: &Statement<'_>) -> Option<u64>
    ensures { result ≡ width_set statement.now }
{
    match statement {
        Statement::Number(Directive::Width, number) if number.is_up_to(8) => Some(
            number.size as u64,
        ),
        _ => None,
    }
}
