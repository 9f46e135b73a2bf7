// Histories of the preimages that a service asked for.
ghost use Rattle.std.specs.Prelude.{◌≡◌, ◌^◌, ◌<◌, OnOk, OnErr, OnSome, IsSome, Some, None, IfOk, length};
ghost use Rattle.std.specs.FinMap as fin;
ghost use Rattle.std.specs.Iterator.{at_most};
ghost use Rattle.std.specs.Map.Iter.{TakesFirst};
ghost use Rattle.jam_accounts.specs.Footprint.{lookups_octets, fitting};

use crate::footprint::OCTETS_LIMIT;
use preimage_store::History;
use std::alloc::{AllocError, Global};
use std::collections::BTreeMap;
use std::collections::btree_map::Iter;
use std::marker::Model;

/// Histories, each under a digest and the length of the preimage.
#[derive(Drop)]
pub struct Lookups {
    map: BTreeMap<([u8; 32], u32), History>,
}

impl Model for Lookups {
    ghost use Rattle.jam_codec.specs.Lists.{hash_and_number_cmp};
    ghost use Rattle.jam_accounts.specs.Accounts.{Lookups, HaveShortLengths};
    ghost use Rattle.jam_accounts.specs.Coded.{coded_lookups};
    ghost use Rattle.jam_accounts.specs.Seen.{seen_map};

    ghost Value = { Lookups };

    ghost coded = { coded_lookups };

    ghost view = { λ l. seen_map hash_and_number_cmp (λ k. k) (λ v. v) l.map };

    ghost invariant = { λ l. HaveShortLengths (seen_map hash_and_number_cmp (λ k. k) (λ v. v) l.map) };
}

impl Lookups {
    /// No history.
    pub fn new(alloc: Global) -> Lookups
        ensures { result ≡ fin.empty }
    {
        Lookups {
            map: BTreeMap::new(alloc),
        }
    }

    /// How many histories there are.
    pub fn len(&self) -> usize
        ensures count { result ≡ fin.len self.now }
        ensures small { result < 2 ^ 63 }
    {
        self.map.len()
    }

    /// The history of a hash with a length.
    pub fn get(&self, hash: &[u8; 32], length: u32) -> Option<History>
        ensures { result ≡ fin.get self.now (hash.now, length) }
    {
        self.map.get(&(*hash, length)).copied()
    }

    /// The same for a length that may be too great for a history: there is none then.
    pub fn find(&self, hash: &[u8; 32], length: usize) -> Option<History>
        ensures value { result ≡ fin.get self.now (hash.now, length) }
        ensures short { OnSome result (length < 2 ^ 32) }
    {
        let map = &self.map;
        if length > u32::MAX as usize {
            return None;
        }
        map.get(&(*hash, length as u32)).copied()
    }

    /// Keeps a history in place of the one that was there.
    ///
    /// # Errors
    /// `AllocError` for want of memory, where there was none; the histories are then as before.
    pub fn put(&mut self, hash: &[u8; 32], length: u32, history: History) -> Result<(), AllocError>
        ensures ok { OnOk result (self.new ≡ fin.insert self.old (hash.now, length) history) }
        ensures err { OnErr result (self.new ≡ self.old) }
        ensures absent { OnErr result (fin.get self.old (hash.now, length) ≡ None) }
    {
        self.map.insert((*hash, length), history)?;
        Ok(())
    }

    /// Puts a history in place of the one that is there, which it gives back. This takes no memory.
    pub fn replace(&mut self, hash: &[u8; 32], length: u32, history: History) -> History
        requires { IsSome (fin.get self.old (hash.now, length)) }
        ensures value { Some result ≡ fin.get self.old (hash.now, length) }
        ensures after { self.new ≡ fin.insert self.old (hash.now, length) history }
    {
        match self.map.insert((*hash, length), history) {
            Ok(Some(old)) => old,
            Ok(None) => unreachable!(),
            Err(_) => unreachable!(),
        }
    }

    /// Takes out the history of a hash with a length, if there is one.
    pub fn remove(&mut self, hash: &[u8; 32], length: u32) -> Option<History>
        ensures value { result ≡ fin.get self.old (hash.now, length) }
        ensures after { self.new ≡ fin.remove self.old (hash.now, length) }
    {
        self.map.remove(&(*hash, length))
    }
}

/// Histories in the order of their digests and lengths, from some place on.
#[derive(Drop)]
pub struct LookupsEntries<'a> {
    rest: Iter<'a, ([u8; 32], u32), History>,
}

impl<'a> Model for LookupsEntries<'a> {
    ghost use Rattle.std.specs.Prelude.{ℕ, List};
    ghost use Rattle.jam_accounts.specs.Seen.{seen_entries};

    ghost Value = { List ((List ℕ × ℕ) × List ℕ) };

    ghost view = { λ s. seen_entries (λ k. k) (λ v. v) s.rest };
}

impl Lookups {
    /// The histories in the order of their digests, and then of their lengths.
    pub fn entries(&self) -> LookupsEntries<'_>
        ensures { result ≡ fin.entries self.now }
    {
        LookupsEntries {
            rest: self.map.iter(),
        }
    }

    /// What the histories take up: for each 81, and its length. None where that is 2^100 or more.
    pub fn octets(&self) -> Option<u128>
        ensures { result ≡ fitting (lookups_octets self.now) }
    {
        let mut octets = 0;
        for (_hash, length, _history) in self.entries() {
            octets += 81 + u128::from(length);
            if octets >= OCTETS_LIMIT {
                return None;
            }
        }
        Some(octets)
    }

    /// The same histories.
    ///
    /// # Errors
    /// `AllocError` for want of memory.
    pub fn copy(&self) -> Result<Lookups, AllocError>
        ensures { IfOk result (λ copy. copy ≡ self.now) }
    {
        Ok(Lookups {
            map: self.map.clone()?,
        })
    }
}

impl<'a> Iterator for LookupsEntries<'a> {
    type Item = (&'a [u8; 32], u32, History);

    ghost next_gives = { TakesFirst (λ p. ((p.0.now, p.1), p.2)) };

    ghost remaining = { λ s. at_most (length s) };

    fn next(&mut self) -> Option<(&'a [u8; 32], u32, History)> {
        let ((hash, length), history) = self.rest.next()?;
        Some((hash, *length, *history))
    }
}
