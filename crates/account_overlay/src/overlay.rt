// The context of an invocation by changes over the state.
ghost use Rattle.std.specs.Prelude.{◌≡◌, ◌≢◌, ◌^◌, ◌≤◌, ◌<◌, ◌||◌, IsSome, IfOk};
ghost use Rattle.std.specs.Option.{option_map};
ghost use Rattle.std.specs.FinMap as fin;
ghost use Rattle.jam_accounts.specs.Footprint.{footprint_of};
ghost use Rattle.account_context.specs.NewIds.{ring_place};
ghost use Rattle.account_context.specs.Context.{started, account_in, checkpoint, restore};
ghost use Rattle.account_context.specs.FreeIds.{first_free};

use crate::issued::Issued;
use crate::others::Others;
use crate::own::OwnAccount;
use account_context::{
    AccountView, Delta, FIRST_NEW_ID, MAX_SERVICES, Provided, RING_SIZE, Scope, Transfer, bump,
    first_candidate,
};
use jam_accounts::{Account, Footprint, State};
use jam_fields::Blob;
use preimage_store::History;
use std::alloc::{AllocError, Global};
use std::marker::Model;

/// The context of an invocation as one set of changes over a state, with a journal of what they
/// replaced since the last checkpoint. A checkpoint drops the journal, and a rollback undoes it from
/// its end: neither needs memory, and neither looks at what the state holds.
#[derive(Drop)]
pub struct Overlay<'a> {
    alloc: Global,
    service: u32,
    own: OwnAccount<'a>,
    others: Others<'a>,
    issued: Issued,
}

impl<'a> Model for Overlay<'a> {
    ghost use Rattle.account_context.specs.Context.{Pair};
    ghost use Rattle.account_context.specs.Coded.{coded_pair};
    ghost use Rattle.account_overlay.specs.Pairs.{pair_with, IsOverlaid};

    ghost Value = { Pair };

    ghost coded = { coded_pair };

    ghost view = { λ o. pair_with o.service o.others o.own o.issued };

    ghost invariant = { λ o. IsOverlaid o.service o.others o.issued };
}

// The number that stands so many places after another along the ring.
fn ring_place(id: u32, places: u64) -> u32
    requires low { 2 ^ 8 ≤ id }
    requires few { places < 2 ^ 32 }
    ensures { result ≡ ring_place id places }
{
    let place = (u64::from(id) - FIRST_NEW_ID + places) % RING_SIZE;
    (FIRST_NEW_ID + place) as u32
}

// The first number that no account has, of so many along the ring from the candidate on.
fn first_free(others: &Others<'_>, candidate: u32, count: u64) -> Option<u32>
    requires low { 2 ^ 8 ≤ candidate }
    requires few { count < 2 ^ 32 }
    ensures { result ≡ first_free (λ id. fin.contains_key others.now.base id || fin.contains_key others.now.now id) candidate count 0 }
{
    for places in 0..count {
        let id = ring_place(candidate, places);
        if !others.is_taken(id) {
            return Some(id);
        }
    }
    None
}

impl<'a> Overlay<'a> {
    /// The context at the start of a service over a state, by an entropy and a slot. What each
    /// account takes up is looked at here, and not again.
    ///
    /// # Errors
    /// `AllocError` for want of memory.
    pub fn new(
        alloc: Global,
        base: &'a State,
        service: u32,
        entropy: &[u8; 32],
        slot: u32,
    ) -> Result<Overlay<'a>, AllocError>
        requires { IsSome (fin.get base.now.accounts service) }
        ensures { IfOk result (λ scope. scope ≡ started base.now.accounts service entropy.now slot) }
    {
        let account = base.accounts.get(service).unwrap();
        Ok(Overlay {
            alloc,
            service,
            own: OwnAccount::new(alloc, account),
            others: Others::new(alloc, &base.accounts)?,
            issued: Issued::new(alloc, first_candidate(service, entropy, slot)),
        })
    }

    // The account of another service.
    fn other(&self, id: u32) -> Option<&Account>
        requires { id ≢ self.now.service }
        ensures { option_map (λ account. account.now) result ≡ account_in self.now id }
    {
        self.others.get(id)
    }

    /// What an account takes up now; none where there is no such account. This looks at none of what
    /// the account keeps.
    pub fn totals(&self, id: u32) -> Option<Footprint>
        ensures { result ≡ option_map footprint_of (account_in self.now id) }
    {
        let view = self.view(id)?;
        Some(view.footprint)
    }

    /// Saves the context as it is now. This takes no memory.
    pub fn checkpoint(&mut self)
        ensures { self.new ≡ checkpoint self.old }
    {
        self.own.checkpoint();
        self.others.checkpoint();
        self.issued.checkpoint();
    }

    /// Makes the context as it was saved. This takes no memory.
    pub fn rollback(&mut self)
        ensures { self.new ≡ restore self.old }
    {
        self.own.rollback();
        self.others.rollback();
        self.issued.rollback();
    }
}

impl<'a> Scope for Overlay<'a> {
    ghost pair = { λ o. o };

    fn service(&self) -> u32 {
        self.service
    }

    fn view(&self, id: u32) -> Option<AccountView> {
        if id == self.service {
            return Some(self.own.view());
        }
        self.others.view(id)
    }

    fn value(&self, id: u32, key: &[u8]) -> Option<&[u8]> {
        if id == self.service {
            return self.own.value(key);
        }
        let account = self.other(id)?;
        account.storage.get(key)
    }

    fn preimage(&self, id: u32, hash: &[u8; 32]) -> Option<&[u8]> {
        if id == self.service {
            return self.own.preimage(hash);
        }
        let account = self.other(id)?;
        account.preimages.get(hash)
    }

    fn history(&self, id: u32, hash: &[u8; 32], length: u32) -> Option<History> {
        if id == self.service {
            return self.own.history(hash, length);
        }
        let account = self.other(id)?;
        account.lookups.get(hash, length)
    }

    fn transfers(&self) -> &[Transfer] {
        self.issued.transfers()
    }

    fn yielded(&self) -> Option<[u8; 32]> {
        self.issued.yielded()
    }

    fn provided(&self) -> &[Provided] {
        self.issued.provided()
    }

    fn free_id(&self) -> Option<u32> {
        if self.others.taken_count() >= MAX_SERVICES {
            return None;
        }
        first_free(&self.others, self.issued.candidate(), RING_SIZE)
    }

    fn put_value(&mut self, key: &[u8], value: &[u8]) -> Result<(), AllocError> {
        self.own.set_value(self.alloc, key, Some(value))
    }

    fn drop_value(&mut self, key: &[u8]) -> Result<(), AllocError> {
        self.own.set_value(self.alloc, key, None)
    }

    fn set_history(
        &mut self,
        hash: &[u8; 32],
        length: u32,
        history: Option<History>,
    ) -> Result<(), AllocError> {
        self.own.set_history(hash, length, history)
    }

    fn drop_preimage(&mut self, hash: &[u8; 32]) -> Result<(), AllocError> {
        self.own.drop_preimage(hash)
    }

    fn set_balance(&mut self, balance: u64) -> Result<(), AllocError> {
        self.own.set_balance(balance);
        Ok(())
    }

    fn set_code(
        &mut self,
        code_hash: &[u8; 32],
        min_accumulate: u64,
        min_transfer: u64,
    ) -> Result<(), AllocError> {
        self.own.set_code(code_hash, min_accumulate, min_transfer);
        Ok(())
    }

    fn add_account(&mut self, id: u32, account: Account) -> Result<(), AllocError> {
        self.others.add(id, account)?;
        self.issued.set_candidate(bump(id));
        Ok(())
    }

    fn remove_account(&mut self, id: u32) -> Result<(), AllocError> {
        self.others.remove(id)
    }

    fn push_transfer(&mut self, transfer: Transfer) -> Result<(), AllocError> {
        self.issued.push_transfer(transfer)
    }

    fn set_yield(&mut self, hash: [u8; 32]) -> Result<(), AllocError> {
        self.issued.set_yield(hash);
        Ok(())
    }

    fn push_provided(&mut self, service: u32, bytes: &[u8]) -> Result<(), AllocError> {
        let bytes = Blob::new(Vec::from_slice(self.alloc, bytes)?);
        self.issued.push_provided(Provided { service, bytes })
    }

    fn checkpoint(&mut self) -> Result<(), AllocError> {
        Overlay::checkpoint(self);
        Ok(())
    }

    fn restore(&mut self) {
        self.rollback();
    }

    fn into_delta(self) -> Result<Delta, AllocError> {
        let alloc = self.alloc;
        let yielded = self.issued.yielded();
        let removed = self.others.removed_ids(alloc)?;
        let own = self.own.into_account()?;
        let added = self.others.into_added(alloc)?;
        let (transfers, provided) = self.issued.into_lists(alloc)?;
        Ok(Delta {
            own,
            added,
            removed,
            transfers,
            yielded,
            provided,
        })
    }
}
