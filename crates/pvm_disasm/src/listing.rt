// The listings of programs.
ghost use Rattle.std.specs.Prelude.{◌≡◌, ◌<◌, ◌≤◌, ◌^◌, ◌-◌, ◌++◌, ℕ, List, length, take, drop, map, true, Ok, IfOk, IfErr, IsErrOf, OnOk, string_bytes};
ghost use Rattle.jam_codec.specs.Format.{Spells};
ghost use Rattle.blob_decode.specs.Program.{Program, program_blob, mask_bit};
ghost use Rattle.pvm_asm.specs.Assembly.{assembly};
ghost use Rattle.pvm_disasm.specs.declared.listing.ListRefusal.TheVariants.{NoMemory};
ghost use Rattle.pvm_disasm.specs.Listing.{lead, code_units, jump_line, jump_lines, lead_lines, unit_lines, program_lines, lines_text, listing};
ghost use Rattle.pvm_disasm.specs.Refusal.{IsPlacedList};

use crate::laws::listing_law;
use crate::unit::UnitWriter;
use blob_decode::{Program, ProgramRefusal};
use std::alloc::{AllocError, Global};
use thiserror::Error;

/// Why bytes have no listing.
#[derive(Clone, Copy, Debug, PartialEq, Eq, Error)]
pub enum ListRefusal {
    /// The bytes are no program blob: at this place a field does not spell.
    #[error("not a program blob at byte {place}")]
    NotProgram { place: u64 },
    #[error("out of memory")]
    NoMemory,
}

impl From<AllocError> for ListRefusal {
    ghost from_gives = { λ _ e. e ≡ NoMemory };

    fn from(_: AllocError) -> Self {
        ListRefusal::NoMemory
    }
}

// Adds a line for each entry of the jump table.
fn push_entries(text: &mut String, program: &Program) -> Result<(), AllocError>
    ensures { OnOk result (string_bytes text.new ≡ string_bytes text.old ++ lines_text (map jump_line program.now.jumps)) }
{
    for k in 0..program.jump_count() {
        match program.jump_at(k) {
            Some(place) => writeln!(text, ".jump ={place}")?,
            None => unreachable!(),
        }
    }
    Ok(())
}

// Adds the lines of the jump table.
fn push_jumps(text: &mut String, program: &Program) -> Result<(), AllocError>
    ensures { OnOk result (string_bytes text.new ≡ string_bytes text.old ++ lines_text (jump_lines program.now.width program.now.jumps)) }
{
    if program.width() > 0 {
        return push_entries(text, program);
    }
    let count = program.jump_count();
    if count > 0 {
        writeln!(text, ".jumps {count}")?;
    }
    Ok(())
}

// Adds the line of the bytes before the first unit, where there are any.
fn push_lead(alloc: Global, text: &mut String, bytes: &[u8]) -> Result<(), AllocError>
    ensures { OnOk result (string_bytes text.new ≡ string_bytes text.old ++ lines_text (lead_lines bytes.now)) }
{
    match bytes {
        [] => Ok(()),
        _ => {
            let digits = hex::encode(alloc, bytes)?;
            writeln!(text, ".lead {digits}")?;
            Ok(())
        }
    }
}

// The first place from this one on at which a unit begins, or the code's end.
fn next_unit(program: &Program, from: u64) -> u64
    requires { from ≤ length program.now.code }
    ensures from { from ≤ result }
    ensures end { result ≤ length program.now.code }
    ensures lead { lead (drop from program.now.mask) (drop from program.now.code) ≡ take (result - from) (drop from program.now.code) }
    ensures units { code_units (drop from program.now.mask) (drop from program.now.code) ≡ code_units (drop result program.now.mask) (drop result program.now.code) }
    ensures begins { result < length program.now.code → mask_bit program.now result ≡ true }
{
    let size = program.code().len() as u64;
    let mut place = from;
    'places: while place < size {
        if program.mask_at(place) {
            return place;
        }
        place += 1;
    }
    place
}

// Adds a line for each unit from a place on, at which one begins.
fn push_units(
    alloc: Global,
    text: &mut String,
    program: &Program,
    from: u64,
) -> Result<(), AllocError>
    requires end { from ≤ length program.now.code }
    requires begins { from < length program.now.code → mask_bit program.now from ≡ true }
    ensures { OnOk result (string_bytes text.new ≡ string_bytes text.old ++ lines_text (unit_lines from (code_units (drop from program.now.mask) (drop from program.now.code)))) }
{
    let code = program.code();
    let size = code.len() as u64;
    let mut writer = UnitWriter::new(alloc);
    let mut place = from;
    'units: while place < size {
        let end = next_unit(program, place + 1);
        writer.write(place, &code[place as usize..end as usize])?;
        let line = writer.line.as_str();
        writeln!(text, "{line}")?;
        place = end;
    }
    Ok(())
}

// Adds the lines of the code.
fn push_code(alloc: Global, text: &mut String, program: &Program) -> Result<(), AllocError>
    ensures { OnOk result (string_bytes text.new ≡ string_bytes text.old ++ lines_text (lead_lines (lead program.now.mask program.now.code) ++ unit_lines (length (lead program.now.mask program.now.code)) (code_units program.now.mask program.now.code))) }
{
    let first = next_unit(program, 0);
    push_lead(alloc, text, &program.code()[..first as usize])?;
    push_units(alloc, text, program, first)
}

/// The listing of a program: a text that is assembled to its blob.
///
/// # Errors
/// Want of memory.
pub fn list_program(alloc: Global, program: &Program) -> Result<String, AllocError>
    ensures { IfOk result (λ text. string_bytes text ≡ listing program.now) }
{
    let mut text = String::new(alloc);
    let width = program.width();
    write!(text, ".raw\n.width {width}\n")?;
    push_jumps(&mut text, program)?;
    push_code(alloc, &mut text, program)?;
    Ok(text)
}

/// The listing of the program that a blob spells. What is listed is assembled to the blob.
///
/// # Errors
/// `NotProgram` exactly where the bytes spell no program, at the first field that does not spell, or after the blob
/// where bytes are left; want of memory.
pub fn list(alloc: Global, blob: &[u8]) -> Result<String, ListRefusal>
    ensures listed { IfOk result (λ text. (p : Program) × Spells program_blob p blob.now × (string_bytes text ≡ listing p)) }
    ensures assembles { IfOk result (λ text. assembly (string_bytes text) ≡ Ok blob.now) }
    ensures refused { (p : Program) → Spells program_blob p blob.now → (place : ℕ) → IsErrOf result (ListRefusal.NotProgram place) → ⊥ }
    ensures place { IfErr result (IsPlacedList blob.now) }
{
    listing_law();
    match Program::deblob(alloc, blob) {
        Ok(program) => Ok(list_program(alloc, &program)?),
        Err(ProgramRefusal::NotProgram { place }) => Err(ListRefusal::NotProgram { place }),
        Err(ProgramRefusal::NoMemory) => Err(ListRefusal::NoMemory),
    }
}
