// Why the bytes of a file were refused.
ghost use Rattle.std.specs.Prelude.{◌≡◌};
ghost use Rattle.jam_codec.specs.declared.refusal.FileRefusal.TheVariants.{Malformed, NoMemory};

use crate::cursor::Malformed;
use std::alloc::{AllocError, AllocFailed};
use thiserror::Error;

/// Why no value was read from the bytes of a file.
#[derive(Clone, Copy, Debug, PartialEq, Eq, Error)]
pub enum FileRefusal {
    /// No field spells at this place.
    #[error("no field spells at byte {place}")]
    Malformed { place: u64 },
    #[error("out of memory")]
    NoMemory,
}

impl From<Malformed> for FileRefusal {
    ghost from_gives = { λ x e. e ≡ Malformed x.place };

    fn from(error: Malformed) -> Self {
        FileRefusal::Malformed { place: error.place }
    }
}

impl From<AllocError> for FileRefusal {
    ghost from_gives = { λ _ e. e ≡ NoMemory };

    fn from(_: AllocError) -> Self {
        FileRefusal::NoMemory
    }
}

impl<T: Drop> From<AllocFailed<T>> for FileRefusal {
    ghost from_gives = { λ _ e. e ≡ NoMemory };

    fn from(_: AllocFailed<T>) -> Self {
        FileRefusal::NoMemory
    }
}
