// Why a text was not assembled.
ghost use Rattle.std.specs.Prelude.{◌≡◌};
ghost use Rattle.pvm_asm.specs.declared.refusal.AsmRefusal.TheVariants.{NoMemory};

use crate::kind::AsmKind;
use std::alloc::AllocError;
use thiserror::Error;

/// Why a text was not assembled.
#[derive(Clone, Copy, Debug, PartialEq, Eq, Error)]
pub enum AsmRefusal {
    /// The first line that is refused, counted from 1, and why.
    #[error("line {line} is refused")]
    BadLine { line: u64, kind: AsmKind },
    #[error("out of memory")]
    NoMemory,
}

impl From<AllocError> for AsmRefusal {
    ghost from_gives = { λ _ e. e ≡ NoMemory };

    fn from(_: AllocError) -> Self {
        AsmRefusal::NoMemory
    }
}
