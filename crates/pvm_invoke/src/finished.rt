// How an invocation of a service ended.
use crate::outcome::Outcome;
use account_context::Delta;

/// Whether a service was run, and what its run came to.
#[derive(Drop)]
pub enum Ran {
    /// There is no such service.
    Absent,
    /// Its code is not there, or too long.
    NoCode,
    /// Its code is no code, or its arguments are too long.
    BadCode,
    /// It was run.
    Done(Outcome),
}

/// What the invocation of a service left.
#[derive(Drop)]
pub struct Finished {
    pub service: u32,
    pub ran: Ran,
    /// What it changed, where it was run.
    pub delta: Option<Delta>,
}
