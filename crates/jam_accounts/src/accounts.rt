// Accounts by the service's number.
ghost use Rattle.std.specs.Prelude.{◌≡◌, ◌^◌, ◌<◌, OnOk, OnErr, IfOk, Some, None, IsSome, option_map, length};
ghost use Rattle.std.specs.FinMap as fin;
ghost use Rattle.std.specs.Iterator.{at_most};
ghost use Rattle.std.specs.Map.Iter.{TakesFirst};

use crate::Account;
use std::alloc::{AllocError, Global};
use std::collections::BTreeMap;
use std::collections::btree_map::Iter;
use std::marker::Model;

/// Accounts by the service's number.
#[derive(Drop)]
pub struct Accounts {
    map: BTreeMap<u32, Account>,
}

impl Model for Accounts {
    ghost use Rattle.std.specs.Ordering.{nat_cmp};
    ghost use Rattle.jam_accounts.specs.Accounts.{Accounts};
    ghost use Rattle.jam_accounts.specs.Coded.{coded_accounts};
    ghost use Rattle.jam_accounts.specs.Seen.{seen_map};

    ghost Value = { Accounts };

    ghost coded = { coded_accounts };

    ghost view = { λ a. seen_map nat_cmp (λ k. k) (λ v. v) a.map };
}

impl Accounts {
    /// No account.
    pub fn new(alloc: Global) -> Accounts
        ensures { result ≡ fin.empty }
    {
        Accounts {
            map: BTreeMap::new(alloc),
        }
    }

    /// How many accounts there are.
    pub fn len(&self) -> usize
        ensures count { result ≡ fin.len self.now }
        ensures small { result < 2 ^ 63 }
    {
        self.map.len()
    }

    /// The account of a service.
    pub fn get(&self, id: u32) -> Option<&Account>
        ensures { option_map (λ account. account.now) result ≡ fin.get self.now id }
    {
        self.map.get(&id)
    }

    /// Keeps an account in place of the one that was there.
    ///
    /// # Errors
    /// `AllocError` for want of memory, where there was none; the accounts are then as before.
    pub fn put(&mut self, id: u32, account: Account) -> Result<(), AllocError>
        ensures ok { OnOk result (self.new ≡ fin.insert self.old id account) }
        ensures err { OnErr result (self.new ≡ self.old) }
        ensures absent { OnErr result (fin.get self.old id ≡ None) }
    {
        self.map.insert(id, account)?;
        Ok(())
    }

    /// Puts an account in place of the one that is there, which it gives back. This takes no
    /// memory, so an account that is taken out to be changed can always be put back.
    pub fn replace(&mut self, id: u32, account: Account) -> Account
        requires { IsSome (fin.get self.old id) }
        ensures value { Some result ≡ fin.get self.old id }
        ensures after { self.new ≡ fin.insert self.old id account }
    {
        match self.map.insert(id, account) {
            Ok(Some(old)) => old,
            Ok(None) => unreachable!(),
            Err(_) => unreachable!(),
        }
    }

    /// Takes out the account of a service, if there is one.
    pub fn remove(&mut self, id: u32) -> Option<Account>
        ensures value { result ≡ fin.get self.old id }
        ensures after { self.new ≡ fin.remove self.old id }
    {
        self.map.remove(&id)
    }
}

/// Accounts in the order of their numbers, from some place on.
#[derive(Drop)]
pub struct AccountsEntries<'a> {
    rest: Iter<'a, u32, Account>,
}

impl<'a> Model for AccountsEntries<'a> {
    ghost use Rattle.std.specs.Prelude.{ℕ, List};
    ghost use Rattle.std.specs.Coded.{coded_list, coded×, coded_ℕ};
    ghost use Rattle.jam_accounts.specs.Accounts.{Account};
    ghost use Rattle.jam_accounts.specs.Coded.{coded_account};
    ghost use Rattle.jam_accounts.specs.Seen.{seen_entries};

    ghost Value = { List (ℕ × Account) };

    ghost coded = { coded_list (coded× coded_ℕ coded_account) };

    ghost view = { λ s. seen_entries (λ k. k) (λ v. v) s.rest };
}

impl Accounts {
    /// The accounts in the order of their numbers.
    pub fn entries(&self) -> AccountsEntries<'_>
        ensures { result ≡ fin.entries self.now }
    {
        AccountsEntries {
            rest: self.map.iter(),
        }
    }

    /// The same accounts.
    ///
    /// # Errors
    /// `AllocError` for want of memory.
    pub fn copy(&self) -> Result<Accounts, AllocError>
        ensures { IfOk result (λ copy. copy ≡ self.now) }
    {
        Ok(Accounts {
            map: self.map.clone()?,
        })
    }
}

impl<'a> Iterator for AccountsEntries<'a> {
    type Item = (u32, &'a Account);

    ghost next_gives = { TakesFirst (λ p. (p.0, p.1.now)) };

    ghost remaining = { λ s. at_most (length s) };

    fn next(&mut self) -> Option<(u32, &'a Account)> {
        let (id, account) = self.rest.next()?;
        Some((*id, account))
    }
}
