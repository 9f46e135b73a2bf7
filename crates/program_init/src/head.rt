// What stands before the code of a standard program.
ghost use Rattle.std.specs.Prelude.{◌<◌, ◌^◌, length};

// The bytes of both kinds, how many pages of heap and bytes of stack there are, and how many bytes the code takes.
#[derive(Clone, Copy)]
pub struct Head<'a> {
    pub read_only: &'a [u8],
    pub writable: &'a [u8],
    pub heap_pages: u64,
    pub stack: u64,
    pub code_size: u64,
    ghost read_only_short: { length read_only.now < 2 ^ 24 },
    ghost writable_short: { length writable.now < 2 ^ 24 },
    ghost few_pages: { heap_pages < 2 ^ 16 },
    ghost small_stack: { stack < 2 ^ 24 },
    ghost short_code: { code_size < 2 ^ 32 },
}
