// Where a run stands between two units.
use pvm_step::Exit;

/// Where a run stands between two units.
#[derive(Clone, Copy, Debug, PartialEq, Eq)]
pub enum Stage {
    /// At an instruction.
    Runs,
    /// Between an ecalli and its host call, by the call's number.
    Awaits(u64),
    /// At the end.
    Ended(Exit),
}
