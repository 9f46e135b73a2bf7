// A whole file, by reads of a piece each.
ghost use Rattle.std.specs.Prelude.{◌≡◌, ◌+◌, ◌<◌, ◌≤◌, ◌^◌, List, ℕ, [], ◌++◌, length, take, IfOk, OnOk, IfSome, IsErrOf};
ghost use Rattle.jam_outside.specs.declared.whole.ReadRefusal.TheVariants.{NoMemory};
ghost use Rattle.jam_outside.specs.Files.{content};
ghost use Rattle.jam_outside.specs.Progress.{IsFront, HasNoMore};
ghost use Rattle.jam_outside.specs.Causes.{whole_read_leaves, refusal_of};

use crate::{OutsideError, Take, Vault};
use std::alloc::{AllocError, Global};
use thiserror::Error;

/// Why a whole file was not read.
#[derive(Clone, Copy, Debug, PartialEq, Eq, Error)]
pub enum ReadRefusal {
    /// A read of the vault failed.
    #[error("a read failed")]
    ReadFault,
    /// The file holds more bytes than the limit.
    #[error("the file is too long")]
    TooLong,
    #[error("out of memory")]
    NoMemory,
}

impl From<AllocError> for ReadRefusal {
    ghost from_gives = { λ _ e. e ≡ NoMemory };

    fn from(_: AllocError) -> Self {
        ReadRefusal::NoMemory
    }
}

impl From<OutsideError> for ReadRefusal {
    ghost from_gives = { λ x e. e ≡ refusal_of x };

    fn from(error: OutsideError) -> Self {
        match error {
            OutsideError::Failed => ReadRefusal::ReadFault,
            OutsideError::NoMemory => ReadRefusal::NoMemory,
        }
    }
}

/// The most bytes that one read asks for.
const PIECE: usize = 65_536;

/// Reads all the bytes of a file, which may be no more than the limit, and has them taken in their
/// order. A name that is not there stands for no bytes, unless the vault refuses it.
///
/// # Errors
///
/// `ReadFault` where a read failed: the vault's count of these was raised by one, its failed name
/// is this one and its failed place that of the read, which is no further than the limit and the
/// file go. `TooLong` where the file holds more bytes than the limit, and `NoMemory` for want of
/// memory. All else of the vault is as it was.
#[tactic(auto, using(std::proofs::lemmas::Result::err_from_is_err_and))]
pub fn read_into<V: Vault, T: Take>(
    alloc: Global,
    vault: &mut V,
    name: &str,
    limit: u64,
    into: &mut T,
) -> Result<(), ReadRefusal>
    requires limit { limit < 2 ^ 63 }
    requires nothing_yet { T.Took into.old [] }
    ensures bytes { OnOk result ((bytes : List ℕ) × T.Took into.new bytes × (length bytes ≤ limit) × IfSome (V.state vault.old).files (λ held. bytes ≡ content held name.now)) }
    ensures too_long { IsErrOf result ReadRefusal.TooLong → IfSome (V.state vault.old).files (λ held. limit < length (content held name.now)) }
    ensures state { V.state vault.new ≡ whole_read_leaves result (V.state vault.old) name.now (V.state vault.new).failed_place }
    ensures place { IsErrOf result ReadRefusal.ReadFault → (V.state vault.new).failed_place ≤ limit }
    ensures reached { IsErrOf result ReadRefusal.ReadFault → IfSome (V.state vault.old).files (λ held. (V.state vault.new).failed_place ≤ length (content held name.now)) }
{
    let mut room = make_room(alloc, PIECE)?;
    let room: &mut [u8] = &mut room;
    let mut place = 0;
    // One byte past the limit shows that the file is too long.
    'reads: while place <= limit {
        let missing = limit + 1 - place;
        let asked = missing.min(PIECE as u64) as usize;
        let given = read_piece(vault, name, place, &mut room[..asked], into)?;
        if given == 0 {
            return Ok(());
        }
        place += given as u64;
    }
    Err(ReadRefusal::TooLong)
}

/// The bytes of a file as [`read_into`] reads them, in memory as a whole.
///
/// # Errors
///
/// As there.
#[tactic(auto, using(std::proofs::lemmas::Result::err_from_is_err_and))]
pub fn read_whole<V: Vault>(
    alloc: Global,
    vault: &mut V,
    name: &str,
    limit: u64,
) -> Result<Vec<u8>, ReadRefusal>
    requires { limit < 2 ^ 63 }
    ensures fits { IfOk result (λ v. length v.items ≤ limit) }
    ensures bytes { IfOk result (λ v. IfSome (V.state vault.old).files (λ held. v.items ≡ content held name.now)) }
    ensures too_long { IsErrOf result ReadRefusal.TooLong → IfSome (V.state vault.old).files (λ held. limit < length (content held name.now)) }
    ensures state { V.state vault.new ≡ whole_read_leaves result (V.state vault.old) name.now (V.state vault.new).failed_place }
    ensures place { IsErrOf result ReadRefusal.ReadFault → (V.state vault.new).failed_place ≤ limit }
    ensures reached { IsErrOf result ReadRefusal.ReadFault → IfSome (V.state vault.old).files (λ held. (V.state vault.new).failed_place ≤ length (content held name.now)) }
{
    let mut bytes = Vec::new(alloc);
    read_into(alloc, vault, name, limit, &mut bytes)?;
    Ok(bytes)
}

// Reads once from a place, has what was given taken, and answers how many bytes that is.
#[tactic(auto, using(std::proofs::lemmas::Result::err_from_is_err_and))]
fn read_piece<V: Vault, T: Take>(
    vault: &mut V,
    name: &str,
    place: u64,
    room: &mut [u8],
    into: &mut T,
) -> Result<usize, ReadRefusal>
    requires { (bytes : List ℕ) × T.Took into.old bytes × (length bytes + length room.old ≤ 2 ^ 63) }
    ensures within { IfOk result (λ n. n ≤ length room.new) }
    ensures taken { IfOk result (λ n. (bytes : List ℕ) → T.Took into.old bytes → T.Took into.new (bytes ++ take n room.new)) }
    ensures front { IfOk result (λ n. (bytes : List ℕ) → length bytes ≡ place → IsFront (V.state vault.old).files name.now bytes → IsFront (V.state vault.old).files name.now (bytes ++ take n room.new)) }
    ensures end { result ≡ Ok 0 → 0 < length room.new → HasNoMore (V.state vault.old).files name.now place }
    ensures not_too_long { ¬ IsErrOf result ReadRefusal.TooLong }
    ensures state { V.state vault.new ≡ whole_read_leaves result (V.state vault.old) name.now place }
{
    let given = vault.read_at(name, place, room)?;
    into.take(&room[..given])?;
    Ok(given)
}

// Only the length counts.
fn make_room(alloc: Global, len: usize) -> Result<Vec<u8>, AllocError>
    ensures { IfOk result (λ v. length v.items ≡ len) }
{
    vec![in alloc; 0u8; len]
}
