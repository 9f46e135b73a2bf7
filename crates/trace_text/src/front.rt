// The first bytes of an output.
ghost use Rattle.std.specs.Prelude.{◌≡◌, take, IfOk};

use std::alloc::{AllocError, Global};
use std::marker::Model;

/// How many bytes of an output are shown.
const SHOWN: usize = 64;

/// The first 64 bytes of an output, or all of a shorter one.
#[derive(Drop)]
pub struct Front {
    bytes: Vec<u8>,
}

impl Model for Front {
    ghost use Rattle.std.specs.Prelude.{ℕ, List};

    ghost Value = { List ℕ };

    ghost view = { λ f. f.bytes.items };
}

impl Front {
    /// The front of an output.
    ///
    /// # Errors
    /// Want of memory.
    pub fn of(alloc: Global, output: &[u8]) -> Result<Front, AllocError>
        ensures { IfOk result (λ front. front ≡ take 64 output.now) }
    {
        let bytes = Vec::from_slice(alloc, &output[..SHOWN.min(output.len())])?;
        Ok(Front { bytes })
    }

    /// Its bytes.
    pub fn as_slice(&self) -> &[u8]
        ensures { result.now ≡ self.now }
    {
        &self.bytes
    }
}
