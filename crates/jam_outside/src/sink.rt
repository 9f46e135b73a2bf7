// A sink for what is printed.
ghost use Rattle.std.specs.Prelude.{◌≡◌, OnOk};
ghost use Rattle.jam_outside.specs.Causes.{SinkState, Appends, AppendsPrefix, counted_where, is_failed};

use crate::OutsideError;

/// Takes bytes. An implementation tells what it took (in memory), or does not (standard output).
pub trait Sink {
    /// What is known of the sink: what it took where that is told, and how often it failed.
    ghost state: { Self → SinkState };

    /// Adds bytes at the end. After a refusal a prefix of them was added. The count of failures is
    /// raised by one exactly where the call fails.
    fn put(&mut self, bytes: &[u8]) -> Result<(), OutsideError>
        ensures appended { OnOk result (Appends (state self.old).taken (state self.new).taken bytes.now) }
        ensures prefix { AppendsPrefix (state self.old).taken (state self.new).taken bytes.now }
        ensures faults { (state self.new).faults ≡ counted_where (is_failed result) (state self.old).faults };
}
