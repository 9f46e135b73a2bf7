// The account of a service.
ghost use Rattle.std.specs.Prelude.{◌≡◌, ◌^◌, ◌<◌, ◌+◌, None, IfOk, OnOk, OnErr, option_map, nat_lt, is_some, IsSome, unwrap_or};
ghost use Rattle.std.specs.FinMap as fin;
ghost use Rattle.blake2b_core.specs.Blake2b.{digest};
ghost use Rattle.jam_accounts.specs.Accounts.{blank_account, preimage_at};
ghost use Rattle.jam_accounts.specs.Receipt.{received};
ghost use Rattle.jam_accounts.specs.Footprint.{footprint_of, storage_octets, lookups_octets, IsBounded};

use crate::footprint::OCTETS_LIMIT;
use crate::{Footprint, Lookups, Preimages, Storage};
use preimage_store::History;
use std::alloc::{AllocError, Global};
use std::marker::Model;

/// The account of a service: its code's hash, its balance, the least gas of its entries, how much of
/// its deposits is waived, the slot at which it was made, and what it keeps. It has fewer than 2^100
/// octets.
#[derive(Drop)]
pub struct Account {
    pub code_hash: [u8; 32],
    pub balance: u64,
    pub min_accumulate: u64,
    pub min_transfer: u64,
    /// How much of its deposits needs no balance.
    pub gratis: u64,
    /// The slot at which the service was made.
    pub created: u32,
    pub storage: Storage,
    pub preimages: Preimages,
    pub lookups: Lookups,
}

impl Model for Account {
    ghost use Rattle.jam_accounts.specs.Accounts.{Account};
    ghost use Rattle.jam_accounts.specs.Coded.{coded_account};
    ghost use Rattle.jam_accounts.specs.Footprint.{storage_octets, lookups_octets};
    ghost use Rattle.std.specs.Prelude.{◌<◌, ◌+◌, ◌^◌};

    ghost Value = { Account };

    ghost coded = { coded_account };

    ghost view = { λ a. record { code_hash = a.code_hash; balance = a.balance; min_accumulate = a.min_accumulate; min_transfer = a.min_transfer; gratis = a.gratis; created = a.created; storage = a.storage; preimages = a.preimages; lookups = a.lookups } };

    ghost invariant = { λ a. storage_octets a.storage + lookups_octets a.lookups < 2 ^ 100 };
}

/// Whether an account may keep these: their octets are below 2^100.
pub fn fits(storage: &Storage, lookups: &Lookups) -> bool
    ensures { result ≡ nat_lt (storage_octets storage.now + lookups_octets lookups.now) (2 ^ 100) }
{
    match (storage.octets(), lookups.octets()) {
        (Some(values), Some(histories)) => values + histories < OCTETS_LIMIT,
        _ => false,
    }
}

impl Account {
    /// An account that has nothing: all its numbers are 0, and it keeps nothing.
    pub fn blank(alloc: Global) -> Account
        ensures { result ≡ blank_account }
    {
        Account {
            code_hash: [0; 32],
            balance: 0,
            min_accumulate: 0,
            min_transfer: 0,
            gratis: 0,
            created: 0,
            storage: Storage::new(alloc),
            preimages: Preimages::new(alloc),
            lookups: Lookups::new(alloc),
        }
    }

    /// What the account takes up.
    pub fn footprint(&self) -> Footprint
        ensures value { result ≡ footprint_of self.now }
        ensures bounded { IsBounded result }
    {
        let items = self.storage.len() as u128 + 2 * self.lookups.len() as u128;
        let octets = self.storage.octets().unwrap() + self.lookups.octets().unwrap();
        Footprint::new(items, octets)
    }

    /// The preimage of a hash, where its history is there and says that it is available at a
    /// slot.
    pub fn lookup_at(&self, hash: &[u8; 32], slot: u32) -> Option<&[u8]>
        ensures { option_map (λ bytes. bytes.now) result ≡ preimage_at self.now hash.now slot }
    {
        let bytes = self.preimages.get(hash)?;
        let history = self.lookups.find(hash, bytes.len())?;
        if !history.available(slot) {
            return None;
        }
        Some(bytes)
    }

    /// The same account.
    ///
    /// # Errors
    /// `AllocError` for want of memory.
    pub fn copy(&self) -> Result<Account, AllocError>
        ensures { IfOk result (λ copy. copy ≡ self.now) }
    {
        Ok(Account {
            code_hash: self.code_hash,
            balance: self.balance,
            min_accumulate: self.min_accumulate,
            min_transfer: self.min_transfer,
            gratis: self.gratis,
            created: self.created,
            storage: self.storage.copy()?,
            preimages: self.preimages.copy()?,
            lookups: self.lookups.copy()?,
        })
    }
}

impl Account {
    /// Keeps a value under a key, in place of the one that was there.
    ///
    /// # Errors
    /// `AllocError` for want of memory, where there was none; the account is then as before.
    pub fn put_value(&mut self, key: Vec<u8>, value: Vec<u8>) -> Result<(), AllocError>
        requires { storage_octets (fin.insert self.old.storage key.items value.items) + lookups_octets self.old.lookups < 2 ^ 100 }
        ensures ok { OnOk result (self.new ≡ record self.old { storage = fin.insert self.old.storage key.items value.items }) }
        ensures err { OnErr result (self.new ≡ self.old) }
        ensures absent { OnErr result (fin.get self.old.storage key.items ≡ None) }
    {
        self.storage.put(key, value)
    }

    /// Takes out the value under a key, if there is one.
    pub fn remove_value(&mut self, key: &[u8]) -> Option<Vec<u8>>
        ensures value { option_map (λ value. value.items) result ≡ fin.get self.old.storage key.now }
        ensures after { self.new ≡ record self.old { storage = fin.remove self.old.storage key.now } }
    {
        self.storage.remove(key)
    }

    /// Keeps a preimage under its digest.
    ///
    /// # Errors
    /// `AllocError` for want of memory, where it was not there; the account is then as before.
    pub fn put_preimage(&mut self, bytes: Vec<u8>) -> Result<(), AllocError>
        ensures ok { OnOk result (self.new ≡ record self.old { preimages = fin.insert self.old.preimages (digest bytes.items) bytes.items }) }
        ensures err { OnErr result (self.new ≡ self.old) }
        ensures absent { OnErr result (fin.get self.old.preimages (digest bytes.items) ≡ None) }
    {
        self.preimages.put(bytes)
    }

    /// Takes out the preimage of a hash, if there is one.
    pub fn remove_preimage(&mut self, hash: &[u8; 32]) -> Option<Vec<u8>>
        ensures value { option_map (λ bytes. bytes.items) result ≡ fin.get self.old.preimages hash.now }
        ensures after { self.new ≡ record self.old { preimages = fin.remove self.old.preimages hash.now } }
    {
        self.preimages.remove(hash)
    }

    /// Keeps a history in place of the one that was there.
    ///
    /// # Errors
    /// `AllocError` for want of memory, where there was none; the account is then as before.
    pub fn put_history(
        &mut self,
        hash: &[u8; 32],
        length: u32,
        history: History,
    ) -> Result<(), AllocError>
        requires { storage_octets self.old.storage + lookups_octets (fin.insert self.old.lookups (hash.now, length) history) < 2 ^ 100 }
        ensures ok { OnOk result (self.new ≡ record self.old { lookups = fin.insert self.old.lookups (hash.now, length) history }) }
        ensures err { OnErr result (self.new ≡ self.old) }
        ensures absent { OnErr result (fin.get self.old.lookups (hash.now, length) ≡ None) }
    {
        self.lookups.put(hash, length, history)
    }

    /// Takes out the history of a hash with a length, if there is one.
    pub fn remove_history(&mut self, hash: &[u8; 32], length: u32) -> Option<History>
        ensures value { result ≡ fin.get self.old.lookups (hash.now, length) }
        ensures after { self.new ≡ record self.old { lookups = fin.remove self.old.lookups (hash.now, length) } }
    {
        self.lookups.remove(hash, length)
    }
}

impl Account {
    /// Stores a preimage that is delivered at a slot where its history is the empty one, and gives
    /// it that slot as its history; else passes it over. Answers whether it was stored.
    ///
    /// # Errors
    /// `AllocError` for want of memory, where it is to be stored; the account is then as before.
    #[tactic(auto, unfolding(crate::specs::Receipt::received))]
    pub fn receive(&mut self, alloc: Global, bytes: &[u8], slot: u32) -> Result<bool, AllocError>
        ensures stored { IfOk result (λ stored. stored ≡ is_some (received slot bytes.now self.old)) }
        ensures after { OnOk result (self.new ≡ unwrap_or (received slot bytes.now self.old) self.old) }
        ensures err { OnErr result (self.new ≡ self.old) }
        ensures awaited { OnErr result (IsSome (received slot bytes.now self.old)) }
    {
        let hash = blake2b_core::digest(bytes);
        let Some(history) = self.lookups.find(&hash, bytes.len()) else {
            return Ok(false);
        };
        let Some(delivered) = history.deliver(slot) else {
            return Ok(false);
        };
        let content = Vec::from_slice(alloc, bytes)?;
        self.preimages.put_under(hash, content)?;
        self.lookups.replace(&hash, bytes.len() as u32, delivered);
        Ok(true)
    }
}

impl Clone for Account {
    ghost is_clone = { λ account copy. copy ≡ account };

    fn clone(&self) -> Result<Account, AllocError> {
        self.copy()
    }
}
