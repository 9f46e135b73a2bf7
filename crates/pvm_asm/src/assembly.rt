// Texts to bytes.
ghost use Rattle.std.specs.Prelude.{◌≡◌, ◌<◌, ◌≤◌, ◌^◌, length, IfOk, IfErr, OnOk, Ok, None, true};
ghost use Rattle.pvm_asm.specs.Assembly.{unread, after_line, after_lines, late_kind, kind_of, statement_fits, read_lines, first_refused, with_lines, no_image, entry_width, assembly};
ghost use Rattle.pvm_asm.specs.Refusal.{IsRefusedLine, NamesLine};

use crate::fits::{is_double, knows_target};
use crate::image::Image;
use crate::kind::AsmKind;
use crate::line::{Line, read_line};
use crate::refusal::AsmRefusal;
use crate::survey::Survey;
use crate::words::Lines;
use std::alloc::{AllocError, Global};

// What all lines of a text tell.
fn survey_of(alloc: Global, text: &[u8]) -> Result<Survey, AllocError>
    ensures whole { IfOk result (λ whole. whole ≡ after_lines unread (read_lines text.now)) }
    ensures width { IfOk result (λ whole. entry_width whole ≤ 8) }
{
    let mut survey = Survey::new(alloc);
    let mut lines = Lines::new(text);
    'reading: while let Some(line) = lines.next() {
        survey.take(&read_line(line))?;
    }
    Ok(survey)
}

// Which of the last three kinds a line has.
fn late_kind(whole: &Survey, so_far: &Survey, line: &Line<'_>) -> Option<AsmKind>
    requires { entry_width whole.now ≤ 8 }
    ensures kind { result ≡ late_kind whole.now so_far.now line.now }
    ensures fits { result ≡ None → statement_fits whole.now so_far.now.place line.now.statement ≡ true }
{
    if !whole.statement_fits(so_far.place, &line.statement) {
        Some(AsmKind::OutOfRange)
    } else if is_double(&so_far.labels, &line.label) {
        Some(AsmKind::DoubleLabel)
    } else if !knows_target(&whole.labels, &line.statement) {
        Some(AsmKind::UnknownLabel)
    } else {
        None
    }
}

// Why a line is refused.
fn kind_of(whole: &Survey, so_far: &Survey, line: &Line<'_>) -> Option<AsmKind>
    requires { entry_width whole.now ≤ 8 }
    ensures kind { result ≡ kind_of whole.now so_far.now line.now }
    ensures fits { result ≡ None → statement_fits whole.now so_far.now.place line.now.statement ≡ true }
{
    match so_far.early_kind(line) {
        Some(kind) => Some(kind),
        None => late_kind(whole, so_far, line),
    }
}

// The image of a text, unless a line is refused.
fn image_of(alloc: Global, text: &[u8], whole: &Survey) -> Result<Image, AsmRefusal>
    requires width { entry_width whole.now ≤ 8 }
    requires short { length text.now < 2 ^ 63 }
    ensures none { OnOk result (first_refused whole.now unread 1 (read_lines text.now) ≡ None) }
    ensures image { IfOk result (λ image. image ≡ with_lines whole.now no_image (read_lines text.now)) }
    ensures refused { IfErr result (NamesLine (first_refused whole.now unread 1 (read_lines text.now))) }
{
    let mut image = Image::new(alloc);
    let mut so_far = Survey::new(alloc);
    let mut number = 0u64;
    let mut lines = Lines::new(text);
    'reading: while let Some(raw) = lines.next() {
        let line = read_line(raw);
        number += 1;
        if let Some(kind) = kind_of(whole, &so_far, &line) {
            return Err(AsmRefusal::BadLine { line: number, kind });
        }
        image.take(whole, so_far.place, &line.statement)?;
        so_far.take(&line)?;
    }
    Ok(image)
}

/// The bytes of a text.
///
/// # Errors
/// `BadLine` exactly where a line is refused, and then the first of them; want of memory.
#[tactic(auto, unfolding(crate::specs::Assembly::assembly))]
pub fn assemble(alloc: Global, text: &str) -> Result<Vec<u8>, AsmRefusal>
    ensures bytes { IfOk result (λ bytes. assembly text.now ≡ Ok bytes.items) }
    ensures refused { IfErr result (IsRefusedLine (assembly text.now)) }
{
    let text = text.as_bytes();
    let whole = survey_of(alloc, text)?;
    if !whole.started {
        return Err(AsmRefusal::BadLine {
            line: 1,
            kind: AsmKind::MissingHeader,
        });
    }
    let image = image_of(alloc, text, &whole)?;
    let bytes = image.spell(alloc, whole.header, whole.entry_width() as u8)?;
    Ok(bytes)
}
