// Why bytes are no standard program, and why none was started.
ghost use Rattle.std.specs.Prelude.{◌≡◌};
ghost use Rattle.program_init.specs.declared.refusal.StartRefusal.TheVariants as refused;

use jam_codec::Malformed;
use std::alloc::{AllocError, AllocFailed};
use thiserror::Error;

/// The outer fields of a standard program do not spell: at this place the first that does not begins.
#[derive(Clone, Copy, Debug, PartialEq, Eq, Error)]
#[error("not a standard program at byte {place}")]
pub struct NotStandard {
    pub place: u64,
}

impl From<Malformed> for NotStandard {
    ghost from_gives = { λ x e. e.place ≡ x.place };

    fn from(error: Malformed) -> Self {
        NotStandard { place: error.place }
    }
}

/// Why no machine was made of a standard program.
#[derive(Clone, Copy, Debug, PartialEq, Eq, Error)]
pub enum StartRefusal {
    /// The bytes are no standard program: at this place a field does not spell.
    #[error("not a standard program at byte {place}")]
    NotStandard { place: u64 },
    /// The arguments have more than 2^24 bytes.
    #[error("the arguments are too long")]
    ArgsTooLong,
    #[error("out of memory")]
    NoMemory,
}

impl From<Malformed> for StartRefusal {
    ghost from_gives = { λ x e. e ≡ refused.NotStandard x.place };

    fn from(error: Malformed) -> Self {
        StartRefusal::NotStandard { place: error.place }
    }
}

impl From<AllocError> for StartRefusal {
    ghost from_gives = { λ _ e. e ≡ refused.NoMemory };

    fn from(_: AllocError) -> Self {
        StartRefusal::NoMemory
    }
}

impl<T: Drop> From<AllocFailed<T>> for StartRefusal {
    ghost from_gives = { λ _ e. e ≡ refused.NoMemory };

    fn from(_: AllocFailed<T>) -> Self {
        StartRefusal::NoMemory
    }
}
