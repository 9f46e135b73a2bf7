// Standard output as a sink.
ghost use Rattle.std.specs.Prelude.{◌≡◌};
ghost use Rattle.jam_files.specs.Devices.{output_state};

use crate::memory::is_out_of_memory;
use crate::transfer::put_all;
use jam_outside::{OutsideError, Sink};
use std::io;
use std::marker::Model;

/// Standard output. It tells nothing of what it took, but how often it failed. Each call writes
/// through, so that nothing is left to flush. The count stands still at its type's end.
#[derive(Drop)]
pub struct OutSink<'a, R: Print> {
    rt: &'a R,
    /// How many puts failed.
    pub faults: u64,
}

impl<'a, R: Print> Model for OutSink<'a, R> {
    ghost use Rattle.std.specs.Prelude.{ℕ};

    ghost Value = { ℕ };

    ghost view = { λ s. s.faults };
}

impl<'a, R: Print> OutSink<'a, R> {
    /// The standard output of `rt`, at which no call was made yet.
    pub fn new(rt: &'a R) -> Self
        ensures { result ≡ 0 }
    {
        OutSink { rt, faults: 0 }
    }
}

impl<'a, R: Print> Sink for OutSink<'a, R> {
    ghost state = { output_state };

    fn put(&mut self, bytes: &[u8]) -> Result<(), OutsideError> {
        match put_all(&mut io::writer(self.rt), bytes) {
            Ok(()) => Ok(()),
            Err(e) if is_out_of_memory(&e) => Err(OutsideError::NoMemory),
            Err(_) => {
                self.faults = self.faults.saturating_add(1);
                Err(OutsideError::Failed)
            }
        }
    }
}
