// What came of an attempt at an instruction.

/// What came of an attempt to do an instruction on the registers, or by a load or a store that is allowed. It fits a processor's
/// register, so that the run's loop moves no exit.
#[derive(Clone, Copy, Debug, PartialEq, Eq)]
pub enum Attempt {
    /// It was done, and the next instruction follows.
    Next,
    /// It was done, and led elsewhere.
    Jumped,
    /// It was done, and it panics.
    Panics,
    /// Nothing was done: the opcode needs more, or its load or store is refused or wants memory.
    Beyond,
}
