// Why a command was not done.
ghost use Rattle.std.specs.Prelude.{◌≡◌};
ghost use Rattle.jam_cli.specs.Parts.{status_of};
ghost use Rattle.jam_cli.specs.declared.refusal.Refusal.TheVariants.{NoMemory};

use crate::status::Status;
use pvm_asm::AsmKind;
use std::alloc::{AllocError, AllocFailed};

/// Every ending of a call but that all is done.
#[derive(Clone, Copy)]
pub enum Refusal {
    NoMemory,
    BadWords,
    ReadFault(u8),
    TooLong(u8),
    NotSpelled { word: u8, place: u64 },
    BadLine { line: u64, kind: AsmKind },
    SinkFault,
    StoreFault,
}

impl From<AllocError> for Refusal {
    ghost from_gives = { λ _ e. e ≡ NoMemory };

    fn from(_: AllocError) -> Self {
        Refusal::NoMemory
    }
}

impl<T: Drop> From<AllocFailed<T>> for Refusal {
    ghost from_gives = { λ _ e. e ≡ NoMemory };

    fn from(_: AllocFailed<T>) -> Self {
        Refusal::NoMemory
    }
}

/// The status of a call that ended so.
pub fn status_of(outcome: Result<(), Refusal>) -> Status
    ensures { result ≡ status_of outcome }
{
    match outcome {
        Ok(()) => Status::Done,
        Err(Refusal::NoMemory) => Status::NoMemory,
        Err(Refusal::BadWords) => Status::BadWords,
        Err(Refusal::ReadFault(word)) => Status::ReadFault(word),
        Err(Refusal::TooLong(word)) => Status::TooLong(word),
        Err(Refusal::NotSpelled { word, place }) => Status::Refused { word, place },
        Err(Refusal::BadLine { line, kind }) => Status::BadLine { line, kind },
        Err(Refusal::SinkFault) => Status::SinkFault,
        Err(Refusal::StoreFault) => Status::StoreFault,
    }
}
