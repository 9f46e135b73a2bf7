// What a service keeps: values by key.
ghost use Rattle.std.specs.Prelude.{◌≡◌, ◌^◌, ◌<◌, OnOk, OnErr, IfOk, None, option_map, length};
ghost use Rattle.std.specs.FinMap as fin;
ghost use Rattle.std.specs.Iterator.{at_most};
ghost use Rattle.std.specs.Map.Iter.{TakesFirst, deref_pair};
ghost use Rattle.jam_accounts.specs.Footprint.{storage_octets, fitting};

use crate::footprint::OCTETS_LIMIT;
use std::alloc::{AllocError, Global};
use std::collections::BTreeMap;
use std::collections::btree_map::Iter;
use std::marker::Model;

/// Values by key, both strings of bytes.
#[derive(Drop)]
pub struct Storage {
    map: BTreeMap<Vec<u8>, Vec<u8>>,
}

impl Model for Storage {
    ghost use Rattle.jam_accounts.specs.Accounts.{Storage, bytes_cmp};
    ghost use Rattle.jam_accounts.specs.Coded.{coded_storage};
    ghost use Rattle.jam_accounts.specs.Seen.{seen_map};

    ghost Value = { Storage };

    ghost coded = { coded_storage };

    ghost view = { λ s. seen_map bytes_cmp (λ k. k.items) (λ v. v.items) s.map };
}

impl Storage {
    /// No value.
    pub fn new(alloc: Global) -> Storage
        ensures { result ≡ fin.empty }
    {
        Storage {
            map: BTreeMap::new(alloc),
        }
    }

    /// How many values there are.
    pub fn len(&self) -> usize
        ensures count { result ≡ fin.len self.now }
        ensures small { result < 2 ^ 63 }
    {
        self.map.len()
    }

    /// The value under a key.
    pub fn get(&self, key: &[u8]) -> Option<&[u8]>
        ensures { option_map (λ value. value.now) result ≡ fin.get self.now key.now }
    {
        match self.map.get(key) {
            Some(value) => Some(value.as_slice()),
            None => None,
        }
    }

    /// Keeps a value under a key, in place of the one that was there.
    ///
    /// # Errors
    /// `AllocError` for want of memory, where there was none; the values are then as before.
    pub fn put(&mut self, key: Vec<u8>, value: Vec<u8>) -> Result<(), AllocError>
        ensures ok { OnOk result (self.new ≡ fin.insert self.old key.items value.items) }
        ensures err { OnErr result (self.new ≡ self.old) }
        ensures absent { OnErr result (fin.get self.old key.items ≡ None) }
    {
        self.map.insert(key, value)?;
        Ok(())
    }

    /// Takes out the value under a key, if there is one.
    pub fn remove(&mut self, key: &[u8]) -> Option<Vec<u8>>
        ensures value { option_map (λ value. value.items) result ≡ fin.get self.old key.now }
        ensures after { self.new ≡ fin.remove self.old key.now }
    {
        self.map.remove(key)
    }
}

/// The values in the order of their keys, from some place on.
#[derive(Drop)]
pub struct StorageEntries<'a> {
    rest: Iter<'a, Vec<u8>, Vec<u8>>,
}

impl<'a> Model for StorageEntries<'a> {
    ghost use Rattle.std.specs.Prelude.{ℕ, List};
    ghost use Rattle.jam_accounts.specs.Seen.{seen_entries};

    ghost Value = { List (List ℕ × List ℕ) };

    ghost view = { λ s. seen_entries (λ k. k.items) (λ v. v.items) s.rest };
}

impl Storage {
    /// The values in the order of their keys.
    pub fn entries(&self) -> StorageEntries<'_>
        ensures { result ≡ fin.entries self.now }
    {
        StorageEntries {
            rest: self.map.iter(),
        }
    }

    /// What the values take up: for each 34, and the lengths of its key and of its own. None where
    /// that is 2^100 or more.
    pub fn octets(&self) -> Option<u128>
        ensures { result ≡ fitting (storage_octets self.now) }
    {
        let mut octets = 0;
        for (key, value) in self.entries() {
            octets += 34 + key.len() as u128 + value.len() as u128;
            if octets >= OCTETS_LIMIT {
                return None;
            }
        }
        Some(octets)
    }

    /// The same values.
    ///
    /// # Errors
    /// `AllocError` for want of memory.
    pub fn copy(&self) -> Result<Storage, AllocError>
        ensures { IfOk result (λ copy. copy ≡ self.now) }
    {
        Ok(Storage {
            map: self.map.clone()?,
        })
    }
}

impl<'a> Iterator for StorageEntries<'a> {
    type Item = (&'a [u8], &'a [u8]);

    ghost next_gives = { TakesFirst deref_pair };

    ghost remaining = { λ s. at_most (length s) };

    fn next(&mut self) -> Option<(&'a [u8], &'a [u8])> {
        let (key, value) = self.rest.next()?;
        Some((key.as_slice(), value.as_slice()))
    }
}
