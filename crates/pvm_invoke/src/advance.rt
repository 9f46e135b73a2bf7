// What a turn came to.
use pvm_step::Progress;

/// What a turn came to.
#[derive(Clone, Copy, Debug, PartialEq, Eq)]
pub struct Advance {
    /// How many units were made in it: instructions and host calls.
    pub units: u64,
    /// Whether the run has ended.
    pub progress: Progress,
}
