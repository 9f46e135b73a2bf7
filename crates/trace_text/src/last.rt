// A watcher that keeps the last instructions of a run.
ghost use Rattle.std.specs.Prelude.{◌≡◌, ◌++◌, ◌≤◌, [], IfOk, length, vec_len, vec_capacity};
ghost use Rattle.circular_buffer.specs.Buffer.{keep_last};

use circular_buffer::HeapCircularBuffer;
use pvm_step::{PaidInstruction, Watcher};
use std::alloc::{AllocError, Global};
use std::mem;

/// An instruction as it is kept: its opcode is found again in the program.
#[derive(Clone, Copy)]
pub struct KeptInstruction {
    pub number: u64,
    pub pc: u64,
    pub gas: u64,
}

/// The instructions that were seen last, in a list that is filled up to so many, and as many right before them, if there
/// are. So one more is put at the end of a list, and no other is moved.
#[derive(Drop)]
pub struct LastInstructions<const ROOM: usize> {
    pub before: Vec<KeptInstruction>,
    pub recent: Vec<KeptInstruction>,
}

impl<const ROOM: usize> Watcher for LastInstructions<ROOM> {
    ghost use Rattle.std.specs.Prelude.{◌≡◌, ◌++◌, ◌≤◌, map, vec_len, vec_capacity};
    ghost use Rattle.trace_text.specs.Traces.{kept_of};
    ghost use Rattle.circular_buffer.specs.Buffer.{keep_last};
    ghost use Rattle.pvm_step.specs.declared.watcher.PaidInstruction.{PaidInstruction};

    ghost HasSeen = { λ w seen. (keep_last ROOM (map kept_of seen) ≡ keep_last ROOM (w.before.items ++ w.recent.items)) × (vec_len w.recent ≤ ROOM) × (ROOM ≤ vec_capacity w.before) × (ROOM ≤ vec_capacity w.recent) × (1 ≤ ROOM) };

    #[inline(always)]
    fn see(&mut self, instruction: PaidInstruction) {
        if self.recent.len() >= ROOM {
            self.turn();
        }
        let _kept = self.recent.push(KeptInstruction {
            number: instruction.number,
            pc: instruction.pc,
            gas: instruction.gas,
        });
    }
}

impl<const ROOM: usize> LastInstructions<ROOM> {
    /// Nothing was seen yet.
    pub fn new(alloc: Global) -> Result<LastInstructions<ROOM>, AllocError>
        ensures before { IfOk result (λ w. w.before.items ≡ []) }
        ensures recent { IfOk result (λ w. w.recent.items ≡ []) }
        ensures empty { IfOk result (λ w. vec_len w.recent ≡ 0) }
        ensures room { IfOk result (λ w. (ROOM ≤ vec_capacity w.before) × (ROOM ≤ vec_capacity w.recent)) }
    {
        Ok(LastInstructions {
            before: Vec::with_capacity(alloc, ROOM)?,
            recent: Vec::with_capacity(alloc, ROOM)?,
        })
    }

    // Begins a new list, and lets the one before the full one go.
    #[cold]
    #[inline(never)]
    fn turn(&mut self)
        ensures before { self.new.before.items ≡ self.old.recent.items }
        ensures recent { self.new.recent.items ≡ [] }
        ensures empty { vec_len self.new.recent ≡ 0 }
        ensures room_before { vec_capacity self.new.before ≡ vec_capacity self.old.recent }
        ensures room { vec_capacity self.new.recent ≡ vec_capacity self.old.before }
    {
        mem::swap(&mut self.before, &mut self.recent);
        self.recent.clear();
    }

    /// The last of them, at most so many.
    ///
    /// # Errors
    /// Want of memory.
    pub fn last(&self, alloc: Global, count: usize) -> Result<Vec<KeptInstruction>, AllocError>
        ensures { IfOk result (λ last. last.items ≡ keep_last count (self.now.before.items ++ self.now.recent.items)) }
    {
        let mut ring = HeapCircularBuffer::with_capacity(alloc, count)?;
        ring.extend_from_slice(&self.before);
        ring.extend_from_slice(&self.recent);
        let last = ring.to_vec(alloc)?;
        Ok(last)
    }
}
