// The accounts, as those at the start with those that were added and without those that were removed.
ghost use Rattle.std.specs.Prelude.{◌≡◌, ◌+◌, ◌^◌, ◌<◌, ◌||◌, [], false, not, filter, IsSome, IfOk, OnOk, OnErr, option_map};
ghost use Rattle.std.specs.FinMap as fin;
ghost use Rattle.jam_accounts.specs.Footprint.{footprint_of};
ghost use Rattle.account_context.specs.Context.{view_of};
ghost use Rattle.account_overlay.specs.Others.{added_in, added_count, accounts_of, Counts};

use crate::layer::{Change, Layer};
use account_context::{AccountView, Ids};
use jam_accounts::{Account, Accounts, Footprint};
use std::alloc::{AllocError, Global};
use std::collections::BTreeMap;
use std::marker::Model;

/// An account that was added, with what it takes up.
#[derive(Drop)]
pub struct Counted {
    account: Account,
    footprint: Footprint,
}

impl Model for Counted {
    ghost use Rattle.std.specs.Prelude.{◌≡◌};
    ghost use Rattle.jam_accounts.specs.Accounts.{Account};
    ghost use Rattle.jam_accounts.specs.Coded.{coded_account};
    ghost use Rattle.jam_accounts.specs.Footprint.{footprint_of};

    ghost Value = { Account };

    ghost coded = { coded_account };

    ghost view = { λ c. c.account };

    ghost invariant = { λ c. c.footprint ≡ footprint_of c.account };
}

// An account without what it keeps, by what it takes up.
fn view_with(account: &Account, footprint: Footprint) -> AccountView
    requires { footprint ≡ footprint_of account.now }
    ensures { result ≡ view_of account.now }
{
    AccountView {
        code_hash: account.code_hash,
        balance: account.balance,
        min_accumulate: account.min_accumulate,
        min_transfer: account.min_transfer,
        gratis: account.gratis,
        created: account.created,
        footprint,
    }
}

impl Counted {
    fn new(account: Account) -> Counted
        ensures { result ≡ account }
    {
        let footprint = account.footprint();
        Counted { account, footprint }
    }

    fn account(&self) -> &Account
        ensures { result.now ≡ self.now }
    {
        &self.account
    }

    fn view(&self) -> AccountView
        ensures { result ≡ view_of self.now }
    {
        view_with(&self.account, self.footprint)
    }

    fn into_account(self) -> Account
        ensures { result ≡ self }
    {
        self.account
    }
}

/// Accounts by the service's number, now and as they were saved, over those at the start. What each
/// of these takes up is looked at once, when the changes begin.
#[derive(Drop)]
pub struct Others<'a> {
    base: &'a Accounts,
    footprints: BTreeMap<u32, Footprint>,
    layer: Layer<u32, Change<Counted>>,
    // how many accounts there are now, and were when they were saved, that the base has not
    added: usize,
    saved_added: usize,
}

impl<'a> Model for Others<'a> {
    ghost use Rattle.account_overlay.specs.Others.{AccountsOver, coded_over, accounts_over, AreKept};

    ghost Value = { AccountsOver };

    ghost coded = { coded_over };

    ghost view = { λ o. accounts_over o.base.now o.layer.places.entries o.layer.journal.items };

    ghost invariant = { λ o. AreKept o.base.now o.footprints.entries o.layer.places.entries o.layer.journal.items o.added o.saved_added };
}

// What each account takes up.
fn footprints_of(alloc: Global, accounts: &Accounts) -> Result<BTreeMap<u32, Footprint>, AllocError>
    ensures { IfOk result (λ footprints. Counts accounts.now footprints.entries) }
{
    let mut footprints = BTreeMap::new(alloc);
    for (id, account) in accounts.entries() {
        footprints.insert(id, account.footprint())?;
    }
    Ok(footprints)
}

// The accounts that the places hold, which are taken from the last place on.
fn held_accounts(
    alloc: Global,
    mut places: BTreeMap<u32, Change<Counted>>,
) -> Result<Accounts, AllocError>
    ensures { IfOk result (λ accounts. accounts ≡ (accounts_of fin.empty places.entries []).now) }
{
    let mut accounts = Accounts::new(alloc);
    while let Some((id, change)) = places.pop_last() {
        match change {
            Change::Is(counted) => accounts.put(id, counted.into_account())?,
            Change::Gone => {}
            Change::AsBase => {}
        }
    }
    Ok(accounts)
}

// Removes the accounts that there were at the start.
fn keep_added(base: &Accounts, accounts: &mut Accounts)
    ensures { accounts.new ≡ added_in base.now accounts.old }
{
    for (id, _account) in base.entries() {
        accounts.remove(id);
    }
}

impl<'a> Others<'a> {
    /// The accounts of the base.
    ///
    /// # Errors
    /// `AllocError` for want of memory.
    pub fn new(alloc: Global, base: &'a Accounts) -> Result<Others<'a>, AllocError>
        ensures { IfOk result (λ others. others ≡ record { base = base.now; now = base.now; saved = base.now }) }
    {
        Ok(Others {
            base,
            footprints: footprints_of(alloc, base)?,
            layer: Layer::new(alloc),
            added: 0,
            saved_added: 0,
        })
    }

    /// The account of a service.
    pub fn get(&self, id: u32) -> Option<&Account>
        ensures { option_map (λ account. account.now) result ≡ fin.get self.now.now id }
    {
        let places = &self.layer.places;
        let base = self.base;
        match places.get(&id) {
            Some(Change::Is(counted)) => Some(counted.account()),
            Some(Change::Gone) => None,
            Some(Change::AsBase) => base.get(id),
            None => base.get(id),
        }
    }

    // An account of the base without what it keeps.
    fn base_view(&self, id: u32) -> Option<AccountView>
        ensures { result ≡ option_map view_of (fin.get self.now.base id) }
    {
        let account = self.base.get(id)?;
        let footprint = self.footprints.get(&id).copied().unwrap();
        Some(view_with(account, footprint))
    }

    /// An account without what it keeps. This looks at none of what it keeps.
    pub fn view(&self, id: u32) -> Option<AccountView>
        ensures { result ≡ option_map view_of (fin.get self.now.now id) }
    {
        match self.layer.places.get(&id) {
            Some(Change::Is(counted)) => Some(counted.view()),
            Some(Change::Gone) => None,
            Some(Change::AsBase) => self.base_view(id),
            None => self.base_view(id),
        }
    }

    /// Whether there is an account with this number, at the start or now.
    pub fn is_taken(&self, id: u32) -> bool
        ensures { result ≡ (fin.contains_key self.now.base id || fin.contains_key self.now.now id) }
    {
        self.base.get(id).is_some() || self.get(id).is_some()
    }

    /// How many numbers have an account, at the start or now.
    pub fn taken_count(&self) -> usize
        ensures { result ≡ fin.len self.now.base + added_count self.now.base self.now.now }
    {
        self.base.len() + self.added
    }

    /// Adds an account.
    ///
    /// # Errors
    /// `AllocError` for want of memory; the accounts are then as before.
    pub fn add(&mut self, id: u32, account: Account) -> Result<(), AllocError>
        requires free { (fin.contains_key self.old.base id || fin.contains_key self.old.now id) ≡ false }
        requires few { fin.len self.old.base + added_count self.old.base self.old.now < 2 ^ 24 }
        ensures ok { OnOk result (self.new ≡ record self.old { now = fin.insert self.old.now id account }) }
        ensures err { OnErr result (self.new ≡ self.old) }
    {
        let counted = Counted::new(account);
        self.layer.set(id, id, Change::Is(counted), Change::AsBase)?;
        self.added += 1;
        Ok(())
    }

    /// Removes an account.
    ///
    /// # Errors
    /// `AllocError` for want of memory; the accounts are then as before.
    pub fn remove(&mut self, id: u32) -> Result<(), AllocError>
        requires { IsSome (fin.get self.old.now id) }
        ensures ok { OnOk result (self.new ≡ record self.old { now = fin.remove self.old.now id }) }
        ensures err { OnErr result (self.new ≡ self.old) }
    {
        let is_new = self.base.get(id).is_none();
        self.layer.set(id, id, Change::Gone, Change::AsBase)?;
        if is_new {
            self.added -= 1;
        }
        Ok(())
    }

    /// Saves the accounts.
    pub fn checkpoint(&mut self)
        ensures { self.new ≡ record self.old { saved = self.old.now } }
    {
        self.layer.checkpoint();
        self.saved_added = self.added;
    }

    /// Makes the accounts those that were saved.
    pub fn rollback(&mut self)
        ensures { self.new ≡ record self.old { now = self.old.saved } }
    {
        self.layer.rollback();
        self.added = self.saved_added;
    }

    /// The numbers of the accounts that there are only at the start, in ascending order.
    ///
    /// # Errors
    /// `AllocError` for want of memory.
    pub fn removed_ids(&self, alloc: Global) -> Result<Ids, AllocError>
        ensures { IfOk result (λ ids. ids ≡ filter (λ id. not (fin.contains_key self.entry.now.now id)) (fin.keys self.entry.now.base)) }
    {
        let mut removed = Ids::new(alloc);
        for (id, _account) in self.base.entries() {
            if self.get(id).is_none() {
                removed.push(id)?;
            }
        }
        Ok(removed)
    }

    /// The accounts that there are only now.
    ///
    /// # Errors
    /// `AllocError` for want of memory.
    pub fn into_added(self, alloc: Global) -> Result<Accounts, AllocError>
        ensures { IfOk result (λ added. added ≡ added_in self.entry.base self.entry.now) }
    {
        let base = self.base;
        let layer = self.layer;
        let mut accounts = held_accounts(alloc, layer.places)?;
        keep_added(base, &mut accounts);
        Ok(accounts)
    }
}
