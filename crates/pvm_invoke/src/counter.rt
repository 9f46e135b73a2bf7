// A watcher that counts.
ghost use Rattle.std.specs.Prelude.{◌≡◌};

use pvm_step::{PaidInstruction, Watcher};

/// Counts instructions, modulo 2^64.
#[derive(Drop)]
pub struct Counter {
    pub made: u64,
}

impl Watcher for Counter {
    ghost use Rattle.std.specs.Prelude.{◌≡◌, ◌%◌, ◌^◌, length};
    ghost use Rattle.pvm_step.specs.declared.watcher.PaidInstruction.{PaidInstruction};

    ghost HasSeen = { λ w seen. w.made ≡ length seen % 2 ^ 64 };

    #[inline(always)]
    fn see(&mut self, _instruction: PaidInstruction) {
        self.made = self.made.wrapping_add(1);
    }
}

impl Counter {
    /// None was counted.
    pub fn new() -> Counter
        ensures { result.made ≡ 0 }
    {
        Counter { made: 0 }
    }
}
