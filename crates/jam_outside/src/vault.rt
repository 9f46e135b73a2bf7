// A vault of named files.
ghost use Rattle.std.specs.Prelude.{◌≡◌, ◌≤◌, length, IfOk, IfSome};
ghost use Rattle.jam_outside.specs.declared.vault.OutsideError.TheVariants.{NoMemory};
ghost use Rattle.jam_outside.specs.Files.{IsPiece, content};
ghost use Rattle.jam_outside.specs.Causes.{VaultState, read_leaves, store_leaves};

use std::alloc::{AllocError, AllocFailed};
use thiserror::Error;

/// Why the outside refused a call.
#[derive(Clone, Copy, Debug, PartialEq, Eq, Error)]
pub enum OutsideError {
    /// The device failed; the count of its kind of call was raised by one.
    #[error("the device failed")]
    Failed,
    #[error("out of memory")]
    NoMemory,
}

impl From<AllocError> for OutsideError {
    ghost from_gives = { λ _ e. e ≡ NoMemory };

    fn from(_: AllocError) -> Self {
        OutsideError::NoMemory
    }
}

impl<T: Drop> From<AllocFailed<T>> for OutsideError {
    ghost from_gives = { λ _ e. e ≡ NoMemory };

    fn from(_: AllocFailed<T>) -> Self {
        OutsideError::NoMemory
    }
}

/// Named files. An implementation tells what they hold (in memory), or does not (real files).
pub trait Vault {
    /// What is known of the vault: its files where they are told, how many stores were made, and
    /// for each kind of call how often it failed, the name at which it last did, and the place of
    /// the last read that failed. A count stands still at its type's end.
    ghost state: { Self → VaultState };

    /// Reads bytes of a file from a place on into the buffer, and answers how many. It is 0 only
    /// where the buffer is empty or the place is at or past the end.
    /// A name that is not there stands for no bytes, unless the call fails. A call that does not
    /// fail leaves all as it was; one that does raises its count by one and leaves the others.
    fn read_at(&mut self, name: &str, place: u64, buf: &mut [u8]) -> Result<usize, OutsideError>
        ensures fits { IfOk result (λ n. n ≤ length buf.new) }
        ensures gives { IfOk result (λ n. IfSome (state self.old).files (λ held. IsPiece (content held name.now) place buf.new n)) }
        ensures state { state self.new ≡ read_leaves result (state self.old) name.now place };

    /// Gives a name these bytes in place of what it held. A refusal leaves the files.
    fn store(&mut self, name: &str, bytes: &[u8]) -> Result<(), OutsideError>
        ensures state { state self.new ≡ store_leaves result (state self.old) name.now bytes.now };
}
