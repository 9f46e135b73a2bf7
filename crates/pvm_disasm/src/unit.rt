// The lines of units.
ghost use Rattle.std.specs.Prelude.{◌≡◌, ◌<◌, ◌≤◌, ◌^◌, ◌++◌, length, drop, Some, None, IfOk, OnOk, string_bytes, codes, if◌then◌else◌};
ghost use Rattle.hex.specs.Hex.{encode_lower};
ghost use Rattle.pvm_asm.specs.Words.{operands_of};
ghost use Rattle.pvm_asm.specs.Statements.{instruction_statement};
ghost use Rattle.pvm_asm.specs.Alone.{statement_code};
ghost use Rattle.pvm_disasm.specs.Units.{is_unit_given, instruction_text, assembles, named_line, unit_line};

use crate::operands::{Destination, offset_in, place_at, push_instruction, unit_args};
use pvm_asm::operands_code;
use pvm_isa::{Args, Op, form_of, name_of, op_of};
use std::alloc::{AllocError, Global};

/// The line of a unit that is being written, and the bytes that it gives.
#[derive(Drop)]
pub struct UnitWriter {
    alloc: Global,
    pub line: String,
    given: Vec<u8>,
}

impl UnitWriter {
    /// Before the first unit.
    pub fn new(alloc: Global) -> UnitWriter {
        UnitWriter {
            alloc,
            line: String::new(alloc),
            given: Vec::new(alloc),
        }
    }

    // Whether an instruction with these operands assembles to a unit at a place.
    fn gives(&mut self, place: u64, unit: &[u8], op: Op, from: usize) -> Result<bool, AllocError>
        requires { from ≤ length (string_bytes self.old.line) }
        ensures line { string_bytes self.new.line ≡ string_bytes self.old.line }
        ensures found { IfOk result (λ found. found ≡ is_unit_given unit.now (statement_code place (instruction_statement op (operands_of (drop from (string_bytes self.old.line)))))) }
    {
        let operands = &self.line.as_bytes()[from..];
        if operands_code(self.alloc, place, op, operands, &mut self.given)? {
            Ok(self.given.as_slice() == unit)
        } else {
            Ok(false)
        }
    }

    // Writes an instruction by name, and says whether that line assembles to a unit at a place.
    fn is_named(
        &mut self,
        place: u64,
        unit: &[u8],
        op: Op,
        args: &Args,
        to: Destination,
    ) -> Result<bool, AllocError>
        ensures line { OnOk result (string_bytes self.new.line ≡ instruction_text op args.now to) }
        ensures named { IfOk result (λ named. named ≡ assembles place unit.now (instruction_text op args.now to)) }
    {
        self.line.clear();
        push_instruction(&mut self.line, op, args, to)?;
        self.gives(place, unit, op, name_of(op).len())
    }

    // Writes a unit at a place by name; false where that line does not assemble to it.
    fn named(&mut self, place: u64, unit: &[u8], op: Op) -> Result<bool, AllocError>
        requires some { 0 < length unit.now }
        requires place { place < 2 ^ 63 }
        ensures { IfOk result (λ named. (if named then Some (string_bytes self.new.line) else None) ≡ named_line place unit.now op) }
    {
        let args = unit_args(op, unit);
        let distance = offset_in(form_of(op), &args);
        if let Some(to) = place_at(place, distance) {
            if self.is_named(place, unit, op, &args, Destination::Place(to))? {
                return Ok(true);
            }
        }
        self.is_named(place, unit, op, &args, Destination::Offset(distance))
    }

    // Writes a unit in bytes.
    fn write_bytes(&mut self, unit: &[u8], name: &str) -> Result<(), AllocError>
        ensures { OnOk result (string_bytes self.new.line ≡ codes ".unit " ++ (encode_lower unit.now ++ (codes " # " ++ name.now))) }
    {
        let digits = hex::encode(self.alloc, unit)?;
        self.line.clear();
        write!(self.line, ".unit {digits} # {name}")
    }

    /// Writes the line of a unit at a place, in the place of the line before.
    ///
    /// # Errors
    /// Want of memory.
    #[tactic(auto, unfolding(crate::specs::Units::unit_line))]
    pub fn write(&mut self, place: u64, unit: &[u8]) -> Result<(), AllocError>
        requires some { 0 < length unit.now }
        requires place { place < 2 ^ 63 }
        ensures { OnOk result (string_bytes self.new.line ≡ unit_line place unit.now) }
    {
        match op_of(unit[0]) {
            Some(op) => {
                if self.named(place, unit, op)? {
                    return Ok(());
                }
                self.write_bytes(unit, name_of(op))
            }
            None => self.write_bytes(unit, "?"),
        }
    }
}
