// The heap.
ghost use Rattle.std.specs.Prelude.{◌≡◌};
ghost use Rattle.pvm_step.specs.Machine.{IsHeap};

use std::marker::Model;

/// Where the heap's next byte is, and where the heap ends. Both are 0 where there is no heap;
/// else 65,536 <= next <= end <= 2^32.
#[derive(Drop)]
pub struct Heap {
    next: u64,
    end: u64,
}

impl Model for Heap {
    ghost use Rattle.pvm_step.specs.Effect.{Heap};
    ghost use Rattle.pvm_step.specs.Machine.{IsHeap, coded_heap};

    ghost Value = { Heap };

    ghost coded = { coded_heap };

    ghost view = { λ h. record { next = h.next; end = h.end } };

    ghost invariant = { λ h. IsHeap h.next h.end };
}

impl Heap {
    /// With this next byte and this end.
    #[inline]
    pub fn new(next: u64, end: u64) -> Heap
        requires { IsHeap next end }
        ensures { result ≡ record { next = next; end = end } }
    {
        Heap { next, end }
    }

    /// The address of the next byte.
    #[inline]
    pub fn next(&self) -> u64
        ensures value { result ≡ self.now.next }
        ensures heap { IsHeap self.now.next self.now.end }
    {
        self.next
    }

    /// The address where the heap ends.
    #[inline]
    pub fn end(&self) -> u64
        ensures value { result ≡ self.now.end }
        ensures heap { IsHeap self.now.next self.now.end }
    {
        self.end
    }
}
