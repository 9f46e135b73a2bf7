// A program in memory.
ghost use Rattle.std.specs.Prelude.{◌≡◌, ◌<◌, ◌≤◌, ◌+◌, ◌-◌, ◌/◌, ◌%◌, ◌^◌, ◌==◌, ℕ, true, false, None, if◌then◌else◌, IfSome, IfNone, MatchOption, IfOk, IfErr, IsErrOf, OnOk, length, take, drop, slice_get};
ghost use Rattle.byte_numbers.specs.Numbers.{little_number};
ghost use Rattle.jam_codec.specs.Spelling.{bytes_for};
ghost use Rattle.jam_codec.specs.Format.{Spells};
ghost use Rattle.blob_decode.specs.declared.program.ProgramRefusal.TheVariants.{NoMemory, NotProgram};
ghost use Rattle.pvm_isa.specs.declared.op.Op.TheVariants.{Trap};
ghost use Rattle.pvm_isa.specs.Opcodes.{op_numbered};
ghost use Rattle.pvm_isa.specs.Arguments.{IsWindow};
ghost use Rattle.blob_decode.specs.Refusal.{IsPlaced};
ghost use Rattle.blob_decode.specs.Fetched.{IsFetched};
ghost use Rattle.blob_decode.specs.Kept.{FirstSet, LastSet, AreMarks, IsNearest, NoneNear, IsPlace, ArePlaces};
ghost use Rattle.blob_decode.specs.Program.{program_blob, mask_bit, op_begins, op_at, gap, skip, next, is_start, ends_block, ends_before, some_below};
ghost use Rattle.pvm_isa.specs.Arguments.{code_byte};

use crate::parts::{parts_of, push_lists};
use crate::place::Place;
use jam_codec::{Malformed, number_of, push_fixed, push_natural};
use pvm_isa::{
    Op, code_window, extended, is_terminator, op_of, op_or_trap, short_immediate_in,
    two_registers_and_immediate_in, whole_window,
};
use std::alloc::{AllocError, Global};
use std::marker::Model;
use thiserror::Error;

/// Why bytes were not read as a program.
#[derive(Clone, Copy, Debug, PartialEq, Eq, Error)]
pub enum ProgramRefusal {
    /// The bytes are no program blob: at this place a field does not spell.
    #[error("not a program blob at byte {place}")]
    NotProgram { place: u64 },
    #[error("out of memory")]
    NoMemory,
}

impl From<Malformed> for ProgramRefusal {
    ghost from_gives = { λ x e. e ≡ NotProgram x.place };

    fn from(error: Malformed) -> Self {
        ProgramRefusal::NotProgram { place: error.place }
    }
}

impl From<AllocError> for ProgramRefusal {
    ghost from_gives = { λ _ e. e ≡ NoMemory };

    fn from(_: AllocError) -> Self {
        ProgramRefusal::NoMemory
    }
}

/// A program: its code, where its instructions begin, and its jump table.
#[derive(Drop)]
pub struct Program {
    count: u64,
    width: u8,
    table: Vec<u8>,
    code: Vec<u8>,
    mask: Vec<u8>,
    // The mask with the bit after its last one set, and more bytes, so that a window begins at each place.
    marks: Vec<u8>,
    // What stands at each place, or at the first ones.
    places: Vec<Place>,
    // How many places are kept and have eight bytes of code from them on.
    windows: u64,
}

/// What stands at a place of the code.
#[derive(Clone, Copy, Debug, PartialEq, Eq)]
pub struct Fetched {
    /// The opcode of the instruction there; `Trap` where none with a defined opcode begins.
    pub op: Op,
    /// The place.
    pub pc: u64,
    /// How many bytes of arguments it has, at most 24.
    pub skip: u8,
    /// The place of the next instruction.
    pub next: u64,
    /// The number of register A, as an instruction of two registers and an immediate has it, below 13.
    pub a: u8,
    /// That of register B.
    pub b: u8,
    /// The immediate X of such an instruction, with its sign in 64 bits.
    pub x: u64,
    /// The number in the eight bytes of the code from there on. Past the code they are 0.
    pub bytes: u64,
}

impl Model for Program {
    ghost use Rattle.blob_decode.specs.Program.{Program};
    ghost use Rattle.std.specs.Prelude.{◌≤◌, ◌-◌, length};
    ghost use Rattle.blob_decode.specs.Kept.{program_of, AreParts, AreMarks, ArePlaces};

    ghost Value = { Program };

    ghost view = { λ p. program_of p.count p.width p.table.items p.code.items p.mask.items };

    ghost invariant = { λ p. AreParts p.count p.width p.table.items p.code.items p.mask.items × AreMarks (length p.code.items) p.mask.items p.marks.items × (p.windows ≤ length p.code.items - 7) × (p.windows ≤ length p.places.items) × ArePlaces (program_of p.count p.width p.table.items p.code.items p.mask.items) p.places.items };
}

// Four bytes of a mask as a number.
#[inline]
fn window(mask: &[u8], first: usize) -> u32
    requires { first + 4 ≤ length mask.now }
    ensures { result ≡ little_number (take 4 (drop first mask.now)) }
{
    u32::from_le_bytes([
        mask[first],
        mask[first + 1],
        mask[first + 2],
        mask[first + 3],
    ])
}

// The mask of so many places with the bit after them set, and with bytes for a window at each place.
fn marks_of(alloc: Global, mask: &[u8], size: usize) -> Result<Vec<u8>, AllocError>
    requires { length mask.now ≡ bytes_for size }
    ensures { IfOk result (λ marks. AreMarks size mask.now marks.items) }
{
    let mut marks = Vec::from_slice(alloc, mask)?;
    marks.extend_from_slice(&[0; 4])?;
    marks[size / 8] |= 1 << (size % 8);
    Ok(marks)
}

// Whether the number is that of an opcode that ends a block.
#[inline]
fn ends_block(number: u8) -> bool
    ensures { result ≡ ends_block number }
{
    match op_of(number) {
        Some(op) => is_terminator(op),
        None => false,
    }
}

// Of the lowest 24 bits, how many stand before the first that is set.
#[inline]
fn zeros_before(bits: u32) -> u8
    ensures { FirstSet bits result }
{
    (bits | 1 << 24).trailing_zeros() as u8
}

// Of the lowest 25 bits, the first but the lowest that is set, or else the one after them.
#[inline]
fn next_set(bits: u32) -> u32
    ensures first { (n : ℕ) → n + 1 ≡ result → FirstSet (bits / 2) n }
    ensures some { 0 < result }
    ensures most { result ≤ 25 }
{
    ((bits >> 1 | 1 << 24) << 1).trailing_zeros()
}

// The highest bit that is set, if one is.
#[inline]
fn last_set(bits: u32) -> Option<u32>
    ensures { MatchOption result (bits ≡ 0) (LastSet bits) }
{
    if bits == 0 {
        return None;
    }
    Some(31 - bits.leading_zeros())
}

// What acts where no instruction begins.
#[cold]
#[inline(never)]
fn none_begins() -> Op
    ensures { result ≡ Trap }
{
    Op::Trap
}

impl Program {
    /// The program that a blob spells: all of its bytes, and no others after them.
    ///
    /// # Errors
    /// `NotProgram` where no program is spelled so, at the first field that does not spell, or after
    /// the blob where bytes are left. `NoMemory`.
    pub fn deblob(alloc: Global, bytes: &[u8]) -> Result<Program, ProgramRefusal>
        ensures found { IfOk result (λ p. Spells program_blob p bytes.now) }
        ensures refused { (p : _) → Spells program_blob p bytes.now → (place : ℕ) → IsErrOf result (ProgramRefusal.NotProgram place) → ⊥ }
        ensures place { IfErr result (IsPlaced bytes.now) }
    {
        match Program::parsed(alloc, bytes) {
            Ok(mut program) => {
                program.keep_places()?;
                Ok(program)
            }
            Err(refusal) => Err(refusal),
        }
    }

    // The same, with nothing kept of the places.
    fn parsed(alloc: Global, bytes: &[u8]) -> Result<Program, ProgramRefusal>
        ensures found { IfOk result (λ p. Spells program_blob p bytes.now) }
        ensures refused { (p : _) → Spells program_blob p bytes.now → (place : ℕ) → IsErrOf result (ProgramRefusal.NotProgram place) → ⊥ }
        ensures place { IfErr result (IsPlaced bytes.now) }
    {
        let parts = parts_of(bytes)?;
        let table = Vec::from_slice(alloc, parts.table)?;
        let code = Vec::from_slice(alloc, parts.code)?;
        let mask = Vec::from_slice(alloc, parts.mask)?;
        let marks = marks_of(alloc, parts.mask, parts.code.len())?;
        Ok(Program {
            count: parts.count,
            width: parts.width,
            table,
            code,
            mask,
            marks,
            places: Vec::new(alloc),
            windows: 0,
        })
    }

    // What stands at a place.
    fn place_at(&self, place: u64) -> Place
        requires { place < length self.now.code }
        ensures { IsPlace self.now place result }
    {
        let skip = self.skip(place);
        let bytes = code_window(self.code(), place);
        let args = two_registers_and_immediate_in(bytes, skip);
        Place {
            op: self.op_at(place),
            skip,
            a: args.a,
            b: args.b,
            x: short_immediate_in(bytes, skip),
            starts: self.begins_block(place),
        }
    }

    // What stands at each place.
    fn all_places(&self) -> Result<Vec<Place>, AllocError>
        ensures all { IfOk result (λ places. length places.items ≡ length self.now.code) }
        ensures kept { IfOk result (λ places. ArePlaces self.now places.items) }
    {
        let size = self.code().len();
        let mut places = Vec::with_capacity(*self.code.allocator(), size)?;
        'each: for place in 0..size {
            places.push(self.place_at(place as u64))?;
        }
        Ok(places)
    }

    // Keeps what stands at each place.
    fn keep_places(&mut self) -> Result<(), AllocError>
        ensures { self.new ≡ self.old }
    {
        let places = self.all_places()?;
        self.windows = (places.len() as u64).saturating_sub(7);
        self.places = places;
        Ok(())
    }

    /// The bytes of the blob that spells the program.
    ///
    /// # Errors
    /// Want of memory.
    pub fn spell(&self) -> Result<Vec<u8>, AllocError>
        ensures { IfOk result (λ bytes. Spells program_blob self.now bytes.items) }
    {
        let mut out = Vec::new(*self.code.allocator());
        push_natural(&mut out, self.count)?;
        push_fixed(&mut out, 1, u64::from(self.width))?;
        push_natural(&mut out, self.code.len() as u64)?;
        push_lists(&mut out, &self.table, &self.code, &self.mask)?;
        Ok(out)
    }

    /// The bytes of the code.
    #[inline]
    pub fn code(&self) -> &[u8]
        ensures value { result.now ≡ self.now.code }
        ensures small { length self.now.code < 2 ^ 63 }
        ensures masked { length self.now.mask ≡ length self.now.code }
    {
        self.code.as_slice()
    }

    /// Whether an instruction begins at the place; past the code one does.
    #[inline]
    pub fn mask_at(&self, place: u64) -> bool
        ensures { result ≡ mask_bit self.now place }
    {
        if place >= self.code.len() as u64 {
            return true;
        }
        (self.mask[(place / 8) as usize] >> (place % 8)) % 2 == 1
    }

    // The opcode of the instruction at the place, where one with a defined opcode begins.
    #[inline]
    fn opcode(&self, place: u64) -> Option<Op>
        ensures { result ≡ (if op_begins self.now place then op_numbered (code_byte self.now.code place) else None) }
    {
        if place >= self.code.len() as u64 || !self.mask_at(place) {
            return None;
        }
        op_of(self.code[place as usize])
    }

    /// The opcode of the instruction at the place; `Trap` where none with a defined opcode begins.
    #[inline]
    #[tactic(auto, unfolding(crate::specs::Program::op_at))]
    pub fn op_at(&self, pc: u64) -> Op
        ensures { result ≡ op_at self.now pc }
    {
        self.opcode(pc).unwrap_or(Op::Trap)
    }

    // The marks of a place and of the 24 after it, the lowest bit first.
    #[inline]
    fn marks_from(&self, place: u64) -> u32
        requires { place < length self.now.code }
        ensures own { (result % 2 == 1) ≡ mask_bit self.now place }
        ensures next { (n : ℕ) → FirstSet (result / 2) n → skip self.now place ≡ n }
    {
        window(&self.marks, (place / 8) as usize) >> (place % 8)
    }

    /// How many bytes of arguments the instruction at the place has: those up to the next one, and
    /// at most 24.
    #[inline]
    pub fn skip(&self, pc: u64) -> u8
        ensures value { result ≡ skip self.now pc }
        ensures most { result ≤ 24 }
    {
        if pc >= self.code.len() as u64 {
            return 0;
        }
        zeros_before(self.marks_from(pc) >> 1)
    }

    // What stands at a place within the code, of which these are the bytes.
    #[inline]
    #[tactic(auto, unfolding(crate::specs::Program::op_at))]
    fn found(&self, place: u64, bytes: u64) -> Fetched
        requires within { place < length self.now.code }
        requires window { IsWindow self.now.code place bytes }
        ensures { IsFetched self.now place result }
    {
        // The code is shorter than 2^63.
        let _code = self.code();
        let marks = self.marks_from(place);
        let op = if marks % 2 == 1 {
            op_or_trap((bytes % 256) as u8)
        } else {
            none_begins()
        };
        let ahead = next_set(marks);
        let skip = (ahead - 1) as u8;
        let args = two_registers_and_immediate_in(bytes, skip);
        Fetched {
            op,
            pc: place,
            skip,
            next: place + u64::from(ahead),
            a: args.a,
            b: args.b,
            x: args.x,
            bytes,
        }
    }

    // What stands at a place, where the code ends within eight bytes.
    #[cold]
    #[inline(never)]
    fn fetch_near_end(&self, pc: u64) -> Option<Fetched>
        ensures past { IfNone result (length self.now.code ≤ pc) }
        ensures found { IfSome result (IsFetched self.now pc) }
    {
        let code = self.code();
        if pc >= code.len() as u64 {
            return None;
        }
        Some(self.found(pc, code_window(code, pc)))
    }

    // What is kept of a place, where the code has eight bytes from there on.
    #[inline(always)]
    fn kept(&self, place: u64) -> Option<Place>
        ensures kept { IfSome result (IsPlace self.now place) }
        ensures within { IfSome result (λ _. place + 8 ≤ length self.now.code) }
    {
        if place < self.windows {
            return Some(self.places[place as usize]);
        }
        None
    }

    /// What stands at the place, by one look at what is kept of it and one at the code; none past the code.
    #[inline(always)]
    pub fn fetch(&self, pc: u64) -> Option<Fetched>
        ensures past { IfNone result (length self.now.code ≤ pc) }
        ensures found { IfSome result (IsFetched self.now pc) }
    {
        let code = self.code();
        match self.kept(pc) {
            Some(place) => Some(Fetched {
                op: place.op,
                pc,
                skip: place.skip,
                next: pc + 1 + u64::from(place.skip),
                a: place.a,
                b: place.b,
                x: extended(place.x),
                bytes: whole_window(code, pc),
            }),
            None => self.fetch_near_end(pc),
        }
    }

    // The nearest place before this one at which an instruction begins, at most 25 before.
    fn begun_before(&self, place: u64) -> Option<u64>
        ensures nearest { IfSome result (IsNearest self.now place) }
        ensures none { IfNone result (NoneNear self.now place) }
    {
        for back in 0..place.min(25) {
            let n = place - 1 - back;
            if self.mask_at(n) {
                return Some(n);
            }
        }
        None
    }

    // The same of a place with 25 before it, whose bits four bytes of the mask hold.
    #[inline]
    fn begun_in_window(&self, place: u64) -> Option<u64>
        requires far { 25 ≤ place }
        requires within { place < length self.now.code }
        ensures nearest { IfSome result (IsNearest self.now place) }
        ensures none { IfNone result (NoneNear self.now place) }
    {
        let from = place - 25;
        let bits = (window(&self.mask, (from / 8) as usize) >> (from % 8)) % (1 << 25);
        match last_set(bits) {
            Some(n) => Some(from + u64::from(n)),
            None => None,
        }
    }

    // The same of each place.
    #[inline]
    fn nearest_before(&self, place: u64) -> Option<u64>
        requires { place < length self.now.code }
        ensures nearest { IfSome result (IsNearest self.now place) }
        ensures none { IfNone result (NoneNear self.now place) }
    {
        if place < 25 {
            return self.begun_before(place);
        }
        self.begun_in_window(place)
    }

    // Whether the nearest instruction before the place ends a block, and the place is right after it.
    #[inline]
    fn follows_end(&self, place: u64) -> bool
        requires within { place < length self.now.code }
        requires begins { mask_bit self.now place ≡ true }
        ensures { result ≡ some_below (length self.now.code) (ends_before self.now place) }
    {
        match self.nearest_before(place) {
            Some(n) => ends_block(self.code[n as usize]),
            None => false,
        }
    }

    // Whether a block begins at the place, by the mask and the instruction before.
    #[inline(never)]
    #[tactic(auto, unfolding(crate::specs::Program::is_start))]
    fn begins_block(&self, place: u64) -> bool
        ensures { result ≡ is_start self.now place }
    {
        if self.opcode(place).is_none() {
            return false;
        }
        place == 0 || self.follows_end(place)
    }

    /// Whether a block begins at the place, so that a jump may lead there.
    #[inline(always)]
    pub fn is_start(&self, place: u64) -> bool
        ensures { result ≡ is_start self.now place }
    {
        match self.kept(place) {
            Some(kept) => kept.starts,
            None => self.begins_block(place),
        }
    }

    /// The target in the jump table's entry k; none past its end.
    #[inline]
    pub fn jump_at(&self, k: u64) -> Option<u64>
        ensures { result ≡ slice_get self.now.jumps k }
    {
        if k >= self.count {
            return None;
        }
        let width = usize::from(self.width);
        let from = k as usize * width;
        Some(number_of(&self.table[from..from + width]))
    }

    /// How many entries the jump table has.
    pub fn jump_count(&self) -> u64
        ensures { result ≡ length self.now.jumps }
    {
        self.count
    }

    /// How many bytes spell an entry of the jump table.
    pub fn width(&self) -> u8
        ensures { result ≡ self.now.width }
    {
        self.width
    }
}
