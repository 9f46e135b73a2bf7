// A sink in memory whose listed calls fail.
ghost use Rattle.std.specs.Prelude.{◌≡◌, [], OnOk};
ghost use Rattle.jam_outside.specs.Causes.{Appends, AppendsPrefix, counted_where, is_failed};
ghost use Rattle.jam_outside.specs.Memory.{sink_state, refuses_put, after_put};

use crate::{OutsideError, Sink};
use std::alloc::Global;
use std::marker::Model;

/// Keeps what it takes, and has the numbers, from 1, of the calls that fail. The counts stand
/// still at their type's end.
#[derive(Drop)]
pub struct MemSink {
    kept: Vec<u8>,
    fail: Vec<u64>,
    puts: u64,
    faults: u64,
}

impl Model for MemSink {
    ghost use Rattle.jam_outside.specs.Memory.{FailingSink};

    ghost Value = { FailingSink };

    ghost view = { λ s. record { taken = s.kept.items; fail = s.fail.items; puts = s.puts; faults = s.faults } };
}

impl MemSink {
    /// A sink that has taken nothing, at which no call was made yet.
    pub fn new(alloc: Global, fail: Vec<u64>) -> Self
        ensures { result ≡ record { taken = []; fail = fail.items; puts = 0; faults = 0 } }
    {
        MemSink {
            kept: Vec::new(alloc),
            fail,
            puts: 0,
            faults: 0,
        }
    }

    /// All that it took, in order.
    pub fn bytes(&self) -> &[u8]
        ensures { result.now ≡ self.now.taken }
    {
        &self.kept
    }
}

impl Sink for MemSink {
    ghost state = { sink_state };

    /// Fails exactly where its number is listed, and then takes nothing.
    fn put(&mut self, bytes: &[u8]) -> Result<(), OutsideError>
        ensures appended { OnOk result (Appends (sink_state self.old).taken (sink_state self.new).taken bytes.now) }
        ensures prefix { AppendsPrefix (sink_state self.old).taken (sink_state self.new).taken bytes.now }
        ensures faults { (sink_state self.new).faults ≡ counted_where (is_failed result) (sink_state self.old).faults }
        ensures failed { is_failed result ≡ refuses_put self.old }
        ensures after { self.new ≡ after_put result self.old bytes.now }
    {
        self.puts = self.puts.saturating_add(1);
        if self.fail.contains(&self.puts) {
            self.faults = self.faults.saturating_add(1);
            return Err(OutsideError::Failed);
        }
        self.kept.extend_from_slice(bytes)?;
        Ok(())
    }
}
