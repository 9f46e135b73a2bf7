// The service's own account, as changes over the one at the start.
ghost use Rattle.std.specs.Prelude.{◌≡◌, ◌+◌, ◌-◌, ◌≤◌, ◌<◌, ◌^◌, IfOk, OnOk, OnErr, length, option_map, unwrap_or, if◌then◌else◌};
ghost use Rattle.std.specs.FinMap as fin;
ghost use Rattle.jam_accounts.specs.Footprint.{octets_of, IsBounded};
ghost use Rattle.account_context.specs.Context.{view_of, with_history, without_preimage};
ghost use Rattle.account_overlay.specs.Own.{with_stored, IsRoomFor};

use crate::histories::Histories;
use crate::kept::KeptPreimages;
use crate::values::Values;
use account_context::AccountView;
use jam_accounts::{Account, Footprint};
use preimage_store::History;
use std::alloc::{AllocError, Global};
use std::marker::Model;

/// The service's own account, now and as it was saved. What it takes up is kept with each half, and
/// follows each change.
#[derive(Drop)]
pub struct OwnAccount<'a> {
    view: AccountView,
    saved: AccountView,
    values: Values<'a>,
    preimages: KeptPreimages<'a>,
    histories: Histories<'a>,
}

impl<'a> Model for OwnAccount<'a> {
    ghost use Rattle.jam_accounts.specs.Accounts.{Account};
    ghost use Rattle.jam_accounts.specs.Coded.{coded_account};
    ghost use Rattle.account_overlay.specs.Layers.{Halves, coded_halves};
    ghost use Rattle.account_overlay.specs.Own.{own_of, AreCounted};

    ghost Value = { Halves Account };

    ghost coded = { coded_halves coded_account };

    ghost view = { λ a. own_of a.view a.saved a.values a.preimages a.histories };

    ghost invariant = { λ a. AreCounted a.view a.saved (own_of a.view a.saved a.values a.preimages a.histories) };
}

// What a value takes up under a key, where there is one.
fn of_value(key: &[u8], value: Option<&[u8]>) -> Footprint
    ensures items { result.items ≡ unwrap_or (option_map (λ v. 1) value.entry) 0 }
    ensures octets { result.octets ≡ unwrap_or (option_map (λ v. 34 + length key.now + length v.now) value.entry) 0 }
{
    match value {
        Some(value) => Footprint::new(1, 34 + key.len() as u128 + value.len() as u128),
        None => Footprint::new(0, 0),
    }
}

// What a history takes up under a length, where there is one.
fn of_history(length: u32, there: bool) -> Footprint
    ensures items { result.items ≡ (if there then 2 else 0) }
    ensures octets { result.octets ≡ (if there then 81 + length else 0) }
{
    if there {
        Footprint::new(2, 81 + u128::from(length))
    } else {
        Footprint::new(0, 0)
    }
}

// The same bytes, where there are any.
fn copy_of(alloc: Global, bytes: Option<&[u8]>) -> Result<Option<Vec<u8>>, AllocError>
    ensures { IfOk result (λ copy. option_map (λ b. b.items) copy ≡ option_map (λ b. b.now) bytes.entry) }
{
    match bytes {
        Some(bytes) => Ok(Some(Vec::from_slice(alloc, bytes)?)),
        None => Ok(None),
    }
}

// What is taken up once some more comes and some goes.
fn exchanged(before: Footprint, gone: Footprint, more: Footprint) -> Footprint
    requires items { gone.items ≤ before.items + more.items }
    requires octets { gone.octets ≤ before.octets + more.octets }
    requires bounded { IsBounded (record { items = before.items + more.items - gone.items; octets = before.octets + more.octets - gone.octets }) }
    ensures { result ≡ record { items = before.items + more.items - gone.items; octets = before.octets + more.octets - gone.octets } }
{
    let items = before.items() + more.items() - gone.items();
    let octets = before.octets() + more.octets() - gone.octets();
    Footprint::new(items, octets)
}

impl<'a> OwnAccount<'a> {
    /// The account of the base.
    pub fn new(alloc: Global, account: &'a Account) -> OwnAccount<'a>
        ensures { result ≡ record { now = account.now; saved = account.now } }
    {
        let view = AccountView {
            code_hash: account.code_hash,
            balance: account.balance,
            min_accumulate: account.min_accumulate,
            min_transfer: account.min_transfer,
            gratis: account.gratis,
            created: account.created,
            footprint: account.footprint(),
        };
        let saved = view;
        OwnAccount {
            view,
            saved,
            values: Values::new(alloc, &account.storage),
            preimages: KeptPreimages::new(alloc, &account.preimages),
            histories: Histories::new(alloc, &account.lookups),
        }
    }

    /// The account without what it keeps.
    pub fn view(&self) -> AccountView
        ensures { result ≡ view_of self.now.now }
    {
        self.view
    }

    /// The value under a key.
    pub fn value(&self, key: &[u8]) -> Option<&[u8]>
        ensures { option_map (λ value. value.now) result ≡ fin.get self.now.now.storage key.now }
    {
        self.values.get(key)
    }

    /// The preimage of a hash.
    pub fn preimage(&self, hash: &[u8; 32]) -> Option<&[u8]>
        ensures { option_map (λ bytes. bytes.now) result ≡ fin.get self.now.now.preimages hash.now }
    {
        self.preimages.get(hash)
    }

    /// The history of a hash with a length.
    pub fn history(&self, hash: &[u8; 32], length: u32) -> Option<History>
        ensures { result ≡ fin.get self.now.now.lookups (hash.now, length) }
    {
        self.histories.get(hash, length)
    }

    /// Makes a value stand under a key, or none.
    ///
    /// # Errors
    /// `AllocError` for want of memory; the account is then as before.
    pub fn set_value(
        &mut self,
        alloc: Global,
        key: &[u8],
        value: Option<&[u8]>,
    ) -> Result<(), AllocError>
        requires { IsRoomFor key.now (option_map (λ bytes. bytes.now) value) self.old.now }
        ensures ok { OnOk result (self.new ≡ record self.old { now = with_stored key.now (option_map (λ bytes. bytes.now) value.entry) self.old.now }) }
        ensures err { OnErr result (self.new ≡ self.old) }
    {
        let gone = of_value(key, self.values.get(key));
        let more = of_value(key, value);
        let before = self.view.footprint;
        let footprint = exchanged(before, gone, more);
        let copy = copy_of(alloc, value)?;
        self.values.set(alloc, key, copy)?;
        self.view.footprint = footprint;
        Ok(())
    }

    /// Makes a history stand under a hash and a length, or none.
    ///
    /// # Errors
    /// `AllocError` for want of memory; the account is then as before.
    pub fn set_history(
        &mut self,
        hash: &[u8; 32],
        length: u32,
        history: Option<History>,
    ) -> Result<(), AllocError>
        requires { octets_of (with_history hash.now length history self.old.now) < 2 ^ 100 }
        ensures ok { OnOk result (self.new ≡ record self.old { now = with_history hash.now length history self.old.now }) }
        ensures err { OnErr result (self.new ≡ self.old) }
    {
        let gone = of_history(length, self.histories.get(hash, length).is_some());
        let more = of_history(length, history.is_some());
        let before = self.view.footprint;
        let footprint = exchanged(before, gone, more);
        self.histories.set(hash, length, history)?;
        self.view.footprint = footprint;
        Ok(())
    }

    /// Drops the preimage of a hash, where there is one.
    ///
    /// # Errors
    /// `AllocError` for want of memory; the account is then as before.
    pub fn drop_preimage(&mut self, hash: &[u8; 32]) -> Result<(), AllocError>
        ensures ok { OnOk result (self.new ≡ record self.old { now = without_preimage hash.now self.old.now }) }
        ensures err { OnErr result (self.new ≡ self.old) }
    {
        self.preimages.drop(hash)
    }

    /// Gives the account a balance.
    pub fn set_balance(&mut self, balance: u64)
        ensures { self.new ≡ record self.old { now = record self.old.now { balance = balance } } }
    {
        self.view.balance = balance;
    }

    /// Gives the account the hash of its code, and the least gas of its two entries.
    pub fn set_code(&mut self, code_hash: &[u8; 32], min_accumulate: u64, min_transfer: u64)
        ensures { self.new ≡ record self.old { now = record self.old.now { code_hash = code_hash.now; min_accumulate = min_accumulate; min_transfer = min_transfer } } }
    {
        let code_hash = *code_hash;
        self.view.code_hash = code_hash;
        self.view.min_accumulate = min_accumulate;
        self.view.min_transfer = min_transfer;
    }

    /// Saves the account.
    pub fn checkpoint(&mut self)
        ensures { self.new ≡ record self.old { saved = self.old.now } }
    {
        self.values.checkpoint();
        self.preimages.checkpoint();
        self.histories.checkpoint();
        self.saved = self.view;
    }

    /// Makes the account the one that was saved.
    pub fn rollback(&mut self)
        ensures { self.new ≡ record self.old { now = self.old.saved } }
    {
        self.values.rollback();
        self.preimages.rollback();
        self.histories.rollback();
        self.view = self.saved;
    }

    /// The account now, with maps of its own.
    ///
    /// # Errors
    /// `AllocError` for want of memory.
    pub fn into_account(self) -> Result<Account, AllocError>
        ensures { IfOk result (λ account. account ≡ self.entry.now) }
    {
        let view = self.view;
        let code_hash = view.code_hash;
        let storage = self.values.into_storage()?;
        let preimages = self.preimages.into_preimages()?;
        let lookups = self.histories.into_lookups()?;
        Ok(Account {
            code_hash,
            balance: view.balance,
            min_accumulate: view.min_accumulate,
            min_transfer: view.min_transfer,
            gratis: view.gratis,
            created: view.created,
            storage,
            preimages,
            lookups,
        })
    }
}
