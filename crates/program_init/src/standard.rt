// A standard program in memory.
ghost use Rattle.std.specs.Prelude.{◌<◌, ◌^◌, length};

use blob_decode::Program;
use std::marker::Model;
use std::rc::Rc;

/// A standard program: the bytes of its first memory, how many pages of heap and bytes of stack it has at first, and the
/// program, with the bytes that spell it.
#[derive(Drop)]
pub struct StandardProgram {
    pub(crate) read_only: Vec<u8>,
    pub(crate) writable: Vec<u8>,
    pub(crate) heap_pages: u32,
    pub(crate) stack: u32,
    pub(crate) program: Rc<Program>,
    ghost read_only_short: { length read_only.items < 2 ^ 24 },
    ghost writable_short: { length writable.items < 2 ^ 24 },
    ghost few_pages: { heap_pages < 2 ^ 16 },
    ghost small_stack: { stack < 2 ^ 24 },
}

impl Model for StandardProgram {
    ghost use Rattle.blob_decode.specs.Program.{Program};
    ghost use Rattle.program_init.specs.Standard.{Standard};

    ghost Value = { Standard Program };

    ghost view = { λ s. record { read_only = s.read_only.items; writable = s.writable.items; heap_pages = s.heap_pages; stack = s.stack; code = s.program.value } };
}
