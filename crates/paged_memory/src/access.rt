// Why an access is refused.
ghost use Rattle.std.specs.Prelude.{◌≡◌};
ghost use Rattle.paged_memory.specs.declared.access.StoreRefusal.TheVariants.{NoMemory};

use std::alloc::{AllocError, AllocFailed};
use thiserror::Error;

/// Why a load or a store is not allowed. Of the addresses that lack the right the least decides.
#[derive(Clone, Copy, Debug, PartialEq, Eq, Error)]
pub enum Access {
    /// It is below 65,536.
    #[error("an address below 65536")]
    Low,
    /// The first address of its page.
    #[error("a page fault at {0}")]
    Fault(u32),
}

/// Why a store was not made.
#[derive(Clone, Copy, Debug, PartialEq, Eq, Error)]
pub enum StoreRefusal {
    /// Some byte may not be written.
    #[error("{0}")]
    Access(Access),
    #[error("out of memory")]
    NoMemory,
}

impl From<AllocError> for StoreRefusal {
    ghost from_gives = { λ _ e. e ≡ NoMemory };

    fn from(_: AllocError) -> Self {
        StoreRefusal::NoMemory
    }
}

impl<T: Drop> From<AllocFailed<T>> for StoreRefusal {
    ghost from_gives = { λ _ e. e ≡ NoMemory };

    fn from(_: AllocFailed<T>) -> Self {
        StoreRefusal::NoMemory
    }
}
