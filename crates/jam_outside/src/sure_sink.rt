// A sink in memory that never fails.
ghost use Rattle.std.specs.Prelude.{◌≡◌, []};
ghost use Rattle.jam_outside.specs.Memory.{sure_sink};

use crate::{OutsideError, Sink};
use std::alloc::Global;
use std::marker::Model;

/// Keeps what it takes; its calls fail for want of memory alone. To contracts it is those bytes.
#[derive(Drop)]
pub struct SureSink {
    kept: Vec<u8>,
}

impl Model for SureSink {
    ghost use Rattle.std.specs.Prelude.{ℕ, List};

    ghost Value = { List ℕ };

    ghost view = { λ s. s.kept.items };
}

impl SureSink {
    /// A sink that has taken nothing.
    pub fn new(alloc: Global) -> Self
        ensures { result ≡ [] }
    {
        SureSink {
            kept: Vec::new(alloc),
        }
    }

    /// All that it took, in order.
    pub fn bytes(&self) -> &[u8]
        ensures { result.now ≡ self.now }
    {
        &self.kept
    }
}

impl Sink for SureSink {
    ghost state = { sure_sink };

    fn put(&mut self, bytes: &[u8]) -> Result<(), OutsideError> {
        self.kept.extend_from_slice(bytes)?;
        Ok(())
    }
}
