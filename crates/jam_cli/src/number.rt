// Numbers and bytes of a command line, with their bounds.
ghost use Rattle.std.specs.Prelude.{◌≡◌, ◌<◌, ◌≤◌, ◌^◌, length};

/// A number below 2^63.
#[derive(Clone, Copy)]
pub struct Small {
    pub value: u64,
    ghost below: { value < 2 ^ 63 },
}

/// How many lines of a run are shown at the most: from 1 to 1,000.
#[derive(Clone, Copy)]
pub struct LineCount {
    pub value: u64,
    ghost some: { 1 ≤ value },
    ghost few: { value ≤ 1000 },
}

/// The arguments of a program: no more than 2^24 bytes.
#[derive(Drop)]
pub struct ArgumentBytes {
    pub bytes: Vec<u8>,
    ghost few: { length bytes.items ≤ 2 ^ 24 },
}
