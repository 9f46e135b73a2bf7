// Preimages by digest.
ghost use Rattle.std.specs.Prelude.{◌≡◌, ◌^◌, ◌<◌, OnOk, OnErr, IfOk, None, IfSome, option_map, length};
ghost use Rattle.std.specs.FinMap as fin;
ghost use Rattle.std.specs.Iterator.{at_most};
ghost use Rattle.std.specs.Map.Iter.{TakesFirst, deref_pair};
ghost use Rattle.blake2b_core.specs.Blake2b.{digest};
ghost use Rattle.jam_accounts.specs.Accounts.{StandUnderDigests};

use std::alloc::{AllocError, Global};
use std::collections::BTreeMap;
use std::collections::btree_map::Iter;
use std::marker::Model;

/// Preimages, each under its digest.
#[derive(Drop)]
pub struct Preimages {
    map: BTreeMap<[u8; 32], Vec<u8>>,
}

impl Model for Preimages {
    ghost use Rattle.jam_accounts.specs.Accounts.{Preimages, StandUnderDigests, bytes_cmp};
    ghost use Rattle.jam_accounts.specs.Coded.{coded_preimages};
    ghost use Rattle.jam_accounts.specs.Seen.{seen_map};

    ghost Value = { Preimages };

    ghost coded = { coded_preimages };

    ghost view = { λ p. seen_map bytes_cmp (λ k. k) (λ v. v.items) p.map };

    ghost invariant = { λ p. StandUnderDigests (seen_map bytes_cmp (λ k. k) (λ v. v.items) p.map) };
}

impl Preimages {
    /// No preimage.
    pub fn new(alloc: Global) -> Preimages
        ensures { result ≡ fin.empty }
    {
        Preimages {
            map: BTreeMap::new(alloc),
        }
    }

    /// How many preimages there are.
    pub fn len(&self) -> usize
        ensures count { result ≡ fin.len self.now }
        ensures small { result < 2 ^ 63 }
    {
        self.map.len()
    }

    /// The preimage of a hash.
    pub fn get(&self, hash: &[u8; 32]) -> Option<&[u8]>
        ensures value { option_map (λ bytes. bytes.now) result ≡ fin.get self.now hash.now }
        ensures preimage { IfSome result (λ bytes. hash.now ≡ digest bytes.now) }
    {
        match self.map.get(hash) {
            Some(bytes) => Some(bytes.as_slice()),
            None => None,
        }
    }

    /// Keeps bytes under their digest.
    ///
    /// # Errors
    /// `AllocError` for want of memory, where they were not there; the preimages are then as
    /// before.
    pub fn put(&mut self, bytes: Vec<u8>) -> Result<(), AllocError>
        ensures ok { OnOk result (self.new ≡ fin.insert self.old (digest bytes.items) bytes.items) }
        ensures err { OnErr result (self.new ≡ self.old) }
        ensures absent { OnErr result (fin.get self.old (digest bytes.items) ≡ None) }
    {
        let hash = blake2b_core::digest(&bytes);
        self.put_under(hash, bytes)
    }

    /// Keeps bytes whose digest is known.
    ///
    /// # Errors
    /// `AllocError` for want of memory, where they were not there; the preimages are then as
    /// before.
    pub fn put_under(&mut self, hash: [u8; 32], bytes: Vec<u8>) -> Result<(), AllocError>
        requires { hash ≡ digest bytes.items }
        ensures ok { OnOk result (self.new ≡ fin.insert self.old hash bytes.items) }
        ensures err { OnErr result (self.new ≡ self.old) }
        ensures absent { OnErr result (fin.get self.old hash ≡ None) }
    {
        self.map.insert(hash, bytes)?;
        Ok(())
    }

    /// Takes out the preimage of a hash, if there is one.
    pub fn remove(&mut self, hash: &[u8; 32]) -> Option<Vec<u8>>
        ensures value { option_map (λ bytes. bytes.items) result ≡ fin.get self.old hash.now }
        ensures after { self.new ≡ fin.remove self.old hash.now }
    {
        self.map.remove(hash)
    }
}

/// Preimages in the order of their digests, from some place on.
#[derive(Drop)]
pub struct PreimagesEntries<'a> {
    rest: Iter<'a, [u8; 32], Vec<u8>>,
}

impl<'a> Model for PreimagesEntries<'a> {
    ghost use Rattle.std.specs.Prelude.{ℕ, List};
    ghost use Rattle.jam_accounts.specs.Seen.{seen_entries};

    ghost Value = { List (List ℕ × List ℕ) };

    ghost view = { λ s. seen_entries (λ k. k) (λ v. v.items) s.rest };
}

impl Preimages {
    /// The preimages in the order of their digests.
    pub fn entries(&self) -> PreimagesEntries<'_>
        ensures entries { result ≡ fin.entries self.now }
        ensures stand { StandUnderDigests self.now }
    {
        PreimagesEntries {
            rest: self.map.iter(),
        }
    }

    /// The same preimages.
    ///
    /// # Errors
    /// `AllocError` for want of memory.
    pub fn copy(&self) -> Result<Preimages, AllocError>
        ensures { IfOk result (λ copy. copy ≡ self.now) }
    {
        Ok(Preimages {
            map: self.map.clone()?,
        })
    }
}

impl<'a> Iterator for PreimagesEntries<'a> {
    type Item = (&'a [u8; 32], &'a [u8]);

    ghost next_gives = { TakesFirst deref_pair };

    ghost remaining = { λ s. at_most (length s) };

    fn next(&mut self) -> Option<(&'a [u8; 32], &'a [u8])> {
        let (hash, bytes) = self.rest.next()?;
        Some((hash, bytes.as_slice()))
    }
}
