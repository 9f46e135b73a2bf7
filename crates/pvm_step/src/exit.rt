// How a run ends, and how it pauses.

/// The end of a machine's run.
#[derive(Clone, Copy, Debug, PartialEq, Eq)]
pub enum Exit {
    /// It jumped to the halting address.
    Halt,
    /// A trap, a jump to a place where no block begins, or an access below 65,536.
    Panic,
    /// No gas was left for the instruction.
    OutOfGas,
    /// An access without the right; the first address of the page.
    Fault(u32),
    /// A host call, by its number.
    Host(u64),
}

/// What a run of so many instructions came to.
#[derive(Clone, Copy, Debug, PartialEq, Eq)]
pub enum Progress {
    /// It ended.
    Ended(Exit),
    /// All the instructions were made, and none of them ended it.
    Paused,
}

/// What a machine does after a host call.
#[derive(Clone, Copy, Debug, PartialEq, Eq)]
pub enum HostStep {
    /// It runs on.
    Go,
    /// It ends so.
    End(Exit),
    /// The gas does not pay for the call.
    Unpaid,
}
