// What is kept of a file that is read.
ghost use Rattle.std.specs.Prelude.{◌≡◌, ◌<◌, ◌≤◌, List, ℕ, length, IfOk, IfSome, IsErrOf};
ghost use Rattle.jam_outside.specs.Files.{content};
ghost use Rattle.jam_outside.specs.Causes.{whole_read_leaves};
ghost use Rattle.blake2b_core.specs.Blake2b.{digest};
ghost use Rattle.blake2b_core.specs.Hasher.{StandsFor};
ghost use Rattle.jam_cli.specs.Ending.{limit};
ghost use Rattle.jam_cli.specs.Parts.{IsKeptFile};

use crate::verb::Kind;
use blake2b_core::Hasher;
use jam_outside::{ReadRefusal, Take, Vault, read_into, read_whole};
use std::alloc::{AllocError, Global};

/// How many bytes of a file are read at the most.
const LIMIT: u64 = 67_108_864;

/// A file as it is kept: its bytes; or, where they are taken as they are, their digest alone.
#[derive(Drop)]
pub enum Kept {
    Whole(Vec<u8>),
    Digest([u8; 32]),
}

// Takes bytes for their digest.
#[derive(Drop)]
struct Digesting {
    hasher: Hasher,
}

impl Take for Digesting {
    ghost Took = { λ d bytes. StandsFor d.hasher bytes };

    fn take(&mut self, piece: &[u8]) -> Result<(), AllocError> {
        self.hasher.update(piece);
        Ok(())
    }
}

#[tactic(auto, using(std::proofs::lemmas::Result::err_from_is_err_and))]
fn read_digest<V: Vault>(alloc: Global, vault: &mut V, name: &str) -> Result<[u8; 32], ReadRefusal>
    ensures read { IfOk result (λ found. (bytes : List ℕ) × (found ≡ digest bytes) × (length bytes ≤ limit) × IfSome (V.state vault.old).files (λ held. bytes ≡ content held name.now)) }
    ensures too_long { IsErrOf result ReadRefusal.TooLong → IfSome (V.state vault.old).files (λ held. limit < length (content held name.now)) }
    ensures state { V.state vault.new ≡ whole_read_leaves result (V.state vault.old) name.now (V.state vault.new).failed_place }
    ensures place { IsErrOf result ReadRefusal.ReadFault → (V.state vault.new).failed_place ≤ limit }
{
    let mut into = Digesting {
        hasher: Hasher::new(),
    };
    read_into(alloc, vault, name, LIMIT, &mut into)?;
    Ok(into.hasher.finish())
}

/// Reads a file of a kind.
#[tactic(auto, using(std::proofs::lemmas::Result::err_from_is_err_and))]
pub fn read_kept<V: Vault>(
    alloc: Global,
    vault: &mut V,
    name: &str,
    kind: Kind,
) -> Result<Kept, ReadRefusal>
    ensures read { IfOk result (λ kept. (bytes : List ℕ) × IsKeptFile kind kept bytes × (length bytes ≤ limit) × IfSome (V.state vault.old).files (λ held. bytes ≡ content held name.now)) }
    ensures too_long { IsErrOf result ReadRefusal.TooLong → IfSome (V.state vault.old).files (λ held. limit < length (content held name.now)) }
    ensures state { V.state vault.new ≡ whole_read_leaves result (V.state vault.old) name.now (V.state vault.new).failed_place }
    ensures place { IsErrOf result ReadRefusal.ReadFault → (V.state vault.new).failed_place ≤ limit }
{
    match kind {
        Kind::Bytes => Ok(Kept::Digest(read_digest(alloc, vault, name)?)),
        Kind::Program | Kind::Standard | Kind::State | Kind::Batch | Kind::Text => {
            Ok(Kept::Whole(read_whole(alloc, vault, name, LIMIT)?))
        }
    }
}
