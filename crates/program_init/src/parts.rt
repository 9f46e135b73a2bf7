// The parts of a standard program.
ghost use Rattle.std.specs.Prelude.{◌<◌, ◌^◌, length};

/// What a standard program is made of, as slices of its bytes: those that may only be read (fewer than 2^24), those that
/// may be written (fewer than 2^24), and those of the code (fewer than 2^32); how many pages of heap there are at first
/// (fewer than 2^16), and how many bytes of stack (fewer than 2^24).
#[derive(Clone, Copy)]
pub struct Parts<'a> {
    pub ro: &'a [u8],
    pub rw: &'a [u8],
    pub code: &'a [u8],
    pub heap_pages: u32,
    pub stack: u32,
    ghost ro_short: { length ro.now < 2 ^ 24 },
    ghost rw_short: { length rw.now < 2 ^ 24 },
    ghost code_short: { length code.now < 2 ^ 32 },
    ghost few_pages: { heap_pages < 2 ^ 16 },
    ghost small_stack: { stack < 2 ^ 24 },
}
