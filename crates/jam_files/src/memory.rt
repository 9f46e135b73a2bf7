// Want of memory, as calls of the system tell it.
ghost use Rattle.std.specs.Prelude.{◌≡◌, ◌↔◌, IsTrue};
ghost use Rattle.std.specs.IoError.{error_kind};

use std::io;
use std::io::ErrorKind;

/// Whether a call failed for want of memory.
pub fn is_out_of_memory(error: &io::Error) -> bool
    ensures { IsTrue result ↔ (error_kind error.now ≡ ErrorKind.OutOfMemory) }
{
    error.kind() == ErrorKind::OutOfMemory
}
