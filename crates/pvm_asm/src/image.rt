// What the directives and the units of a text give.
ghost use Rattle.std.specs.Prelude.{◌≡◌, ◌<◌, ◌≤◌, ◌^◌, ◌++◌, List, ℕ, OnOk, IfOk, Some, length, false, true, replicate};
ghost use Rattle.pvm_asm.specs.declared.numeral.Numeral.{Numeral};
ghost use Rattle.pvm_asm.specs.Assembly.{no_image, unit_mask, with_unit, with_jump, entry_place, with_bytes, with_number, with_statement, statement_fits, entry_fits, instruction_bytes, standard_front, entry_width, number_fits, entry_bytes, entry_count, raw_bytes, standard_bytes, header_bytes};

use crate::encode::{push_instruction, push_low};
use crate::instruction::{Instruction, Target};
use crate::keyword::{Directive, Header};
use crate::labels::Labels;
use crate::line::Statement;
use crate::numeral::Numeral;
use crate::survey::Survey;
use crate::word::Hex;
use jam_codec::{push_bits, push_natural};
use std::alloc::{AllocError, Global};
use std::marker::Model;

/// What the directives and the units of a text give.
#[derive(Drop)]
pub struct Image {
    meta: Vec<u8>,
    ro: Vec<u8>,
    rw: Vec<u8>,
    heap: u64,
    stack: u64,
    entries: Vec<u64>,
    blanks: u64,
    code: Vec<u8>,
    mask: Vec<bool>,
}

impl Model for Image {
    ghost use Rattle.pvm_asm.specs.Image.{Image};

    ghost Value = { Image };

    ghost view = { λ p. record { meta = p.meta.items; ro = p.ro.items; rw = p.rw.items; heap = p.heap; stack = p.stack; entries = p.entries.items; blanks = p.blanks; code = p.code.items; mask = p.mask.items } };
}

// Adds n marks that no unit begins.
#[tactic(auto, using(crate::proofs::Pushed::copies_step, crate::proofs::Pushed::copies_none))]
fn push_unmarked(mask: &mut Vec<bool>, n: usize) -> Result<(), AllocError>
    ensures { OnOk result (mask.new.items ≡ mask.old.items ++ replicate n false) }
{
    for _byte in 0..n {
        mask.push(false)?;
    }
    Ok(())
}

// Adds the marks of a unit of so many bytes.
fn push_unit_mask(mask: &mut Vec<bool>, size: usize) -> Result<(), AllocError>
    ensures { OnOk result ((bytes : List ℕ) → length bytes ≡ size → mask.new.items ≡ mask.old.items ++ unit_mask bytes) }
{
    if size == 0 {
        return Ok(());
    }
    mask.push(true)?;
    push_unmarked(mask, size - 1)
}

// The place of an entry of the jump table.
fn entry_place(labels: &Labels, target: &Target<'_>) -> u64
    requires { (n : Numeral) → target.now ≡ Target.Place n → n.size < 2 ^ 64 }
    ensures { result ≡ entry_place labels.now target.now }
{
    match target {
        Target::Label(name) => labels.place(name.bytes()).unwrap_or(0),
        Target::Place(place) => place.size as u64,
        _ => 0,
    }
}

// Puts the bytes in the place of others.
fn replace(held: &mut Vec<u8>, bytes: &Hex<'_>) -> Result<(), AllocError>
    ensures { OnOk result (held.new.items ≡ bytes.now) }
{
    held.clear();
    bytes.push_to(held)
}

#[tactic(auto, using(crate::proofs::Pushed::entries_step))]
fn push_entries(out: &mut Vec<u8>, width: u8, entries: &[u64]) -> Result<(), AllocError>
    ensures { OnOk result (out.new.items ≡ out.old.items ++ entry_bytes width entries.now) }
{
    for place in entries {
        push_low(out, width, u128::from(*place))?;
    }
    Ok(())
}

impl Image {
    /// That of no statement.
    pub fn new(alloc: Global) -> Image
        ensures { result ≡ no_image }
    {
        Image {
            meta: Vec::new(alloc),
            ro: Vec::new(alloc),
            rw: Vec::new(alloc),
            heap: 0,
            stack: 0,
            entries: Vec::new(alloc),
            blanks: 0,
            code: Vec::new(alloc),
            mask: Vec::new(alloc),
        }
    }

    fn take_bytes(&mut self, directive: Directive, bytes: &Hex<'_>) -> Result<(), AllocError>
        ensures { OnOk result (self.new ≡ with_bytes self.old directive bytes.now) }
    {
        match directive {
            Directive::Meta => replace(&mut self.meta, bytes),
            Directive::Ro => replace(&mut self.ro, bytes),
            Directive::Rw => replace(&mut self.rw, bytes),
            Directive::Lead => {
                bytes.push_to(&mut self.code)?;
                push_unmarked(&mut self.mask, bytes.len())
            }
            _ => Ok(()),
        }
    }

    fn take_number(&mut self, width: u64, directive: Directive, number: &Numeral)
        requires { number_fits width directive number.now ≡ true }
        ensures { self.new ≡ with_number self.old directive number.now.size }
    {
        match directive {
            Directive::Heap => self.heap = number.size as u64,
            Directive::Stack => self.stack = number.size as u64,
            Directive::Jumps => self.blanks = number.size as u64,
            _ => {}
        }
    }

    fn take_unit(&mut self, bytes: &Hex<'_>) -> Result<(), AllocError>
        ensures { OnOk result (self.new ≡ with_unit self.old bytes.now) }
    {
        bytes.push_to(&mut self.code)?;
        push_unit_mask(&mut self.mask, bytes.len())
    }

    fn take_instruction(
        &mut self,
        labels: &Labels,
        instruction: &Instruction<'_>,
    ) -> Result<(), AllocError>
        ensures { OnOk result (self.new ≡ with_unit self.old (instruction_bytes labels.now (length self.old.code) instruction.now)) }
    {
        let place = self.code.len();
        push_instruction(&mut self.code, labels, place as u64, instruction)?;
        push_unit_mask(&mut self.mask, self.code.len() - place)?;
        Ok(())
    }

    /// Takes in one statement more, whose numbers fit.
    ///
    /// # Errors
    /// Want of memory.
    pub fn take(
        &mut self,
        whole: &Survey,
        place: u64,
        statement: &Statement<'_>,
    ) -> Result<(), AllocError>
        requires width { entry_width whole.now ≤ 8 }
        requires fits { statement_fits whole.now place statement.now ≡ true }
        ensures { OnOk result (self.new ≡ with_statement whole.now self.old statement.now) }
    {
        match statement {
            Statement::Bytes(directive, bytes) => self.take_bytes(*directive, bytes),
            Statement::Number(directive, number) => {
                self.take_number(whole.entry_width(), *directive, number);
                Ok(())
            }
            Statement::Jump(target) => {
                self.entries.push(entry_place(&whole.labels, target))?;
                Ok(())
            }
            Statement::Unit(bytes) => self.take_unit(bytes),
            Statement::Instruction(instruction) => self.take_instruction(
                &whole.labels,
                instruction,
            ),
            _ => Ok(()),
        }
    }

    fn entry_count(&self) -> u64
        ensures { result ≡ entry_count self.now }
    {
        if self.entries.is_empty() {
            self.blanks
        } else {
            self.entries.len() as u64
        }
    }

    // Adds the program blob.
    fn push_raw(&self, out: &mut Vec<u8>, width: u8) -> Result<(), AllocError>
        ensures { OnOk result (out.new.items ≡ out.old.items ++ raw_bytes width self.now) }
    {
        push_natural(out, self.entry_count())?;
        out.push(width)?;
        push_natural(out, self.code.len() as u64)?;
        push_entries(out, width, &self.entries)?;
        out.extend_from_slice(&self.code)?;
        push_bits(out, &self.mask)
    }

    // Adds what stands in a standard program before its code.
    fn push_front(&self, out: &mut Vec<u8>) -> Result<(), AllocError>
        ensures { OnOk result (out.new.items ≡ out.old.items ++ standard_front self.now) }
    {
        push_low(out, 3, self.ro.len() as u128)?;
        push_low(out, 3, self.rw.len() as u128)?;
        push_low(out, 2, u128::from(self.heap))?;
        push_low(out, 3, u128::from(self.stack))?;
        out.extend_from_slice(&self.ro)?;
        out.extend_from_slice(&self.rw)
    }

    fn push_standard(&self, alloc: Global, out: &mut Vec<u8>, width: u8) -> Result<(), AllocError>
        ensures { OnOk result (out.new.items ≡ out.old.items ++ standard_bytes width self.now) }
    {
        let mut raw = Vec::new(alloc);
        self.push_raw(&mut raw, width)?;
        self.push_front(out)?;
        push_low(out, 4, raw.len() as u128)?;
        out.extend_from_slice(&raw)
    }

    fn push_preimage(&self, alloc: Global, out: &mut Vec<u8>, width: u8) -> Result<(), AllocError>
        ensures { OnOk result (out.new.items ≡ out.old.items ++ header_bytes (Some Header.Code) width self.now) }
    {
        push_natural(out, self.meta.len() as u64)?;
        out.extend_from_slice(&self.meta)?;
        self.push_standard(alloc, out, width)
    }

    /// The bytes under a header, where an entry of the jump table has so many bytes.
    ///
    /// # Errors
    /// Want of memory.
    pub fn spell(
        &self,
        alloc: Global,
        header: Option<Header>,
        width: u8,
    ) -> Result<Vec<u8>, AllocError>
        ensures { IfOk result (λ bytes. bytes.items ≡ header_bytes header width self.now) }
    {
        let mut out = Vec::new(alloc);
        match header {
            None => Ok(()),
            Some(Header::Raw) => self.push_raw(&mut out, width),
            Some(Header::Standard) => self.push_standard(alloc, &mut out, width),
            Some(Header::Code) => self.push_preimage(alloc, &mut out, width),
        }?;
        Ok(out)
    }
}
