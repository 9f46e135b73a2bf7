// The context of an invocation by whole copies.
ghost use Rattle.std.specs.Prelude.{◌≡◌, IsSome, IfOk};
ghost use Rattle.std.specs.FinMap as fin;
ghost use Rattle.account_context.specs.Context.{started, view_of};

use crate::account_view::AccountView;
use crate::context_copy::ContextCopy;
use crate::delta::Delta;
use crate::difference::{count_added, difference};
use crate::halves::{copy_of, part};
use crate::new_ids::{RING_SIZE, bump, first_candidate, first_free};
use crate::own;
use crate::provided::Provided;
use crate::provided_list::ProvidedList;
use crate::scope::Scope;
use crate::transfer::Transfer;
use crate::transfers::Transfers;
use jam_accounts::{Account, State};
use jam_fields::Blob;
use preimage_store::History;
use std::alloc::{AllocError, Global};
use std::marker::Model;

/// No new service is made where this many numbers are taken.
pub const MAX_SERVICES: usize = 1 << 24;

/// The context of an invocation as two whole contexts, now and as it was saved. After the start and
/// after a restore one copy stands for both, until the next change makes the second first.
#[derive(Drop)]
pub struct Copies<'a> {
    alloc: Global,
    base: &'a State,
    service: u32,
    now: ContextCopy,
    saved: Option<ContextCopy>,
}

impl<'a> Model for Copies<'a> {
    ghost use Rattle.account_context.specs.Context.{Pair, IsLawful};
    ghost use Rattle.account_context.specs.Coded.{coded_pair};
    ghost use Rattle.account_context.specs.Held.{pair_of};

    ghost Value = { Pair };

    ghost coded = { coded_pair };

    ghost view = { λ c. pair_of c.base.now.accounts c.service c.now c.saved };

    ghost invariant = { λ c. IsLawful (pair_of c.base.now.accounts c.service c.now c.saved) };
}

impl<'a> Copies<'a> {
    /// The context at the start of a service over a state, by an entropy and a slot.
    ///
    /// # Errors
    /// `AllocError` for want of memory.
    pub fn new(
        alloc: Global,
        base: &'a State,
        service: u32,
        entropy: &[u8; 32],
        slot: u32,
    ) -> Result<Copies<'a>, AllocError>
        requires { IsSome (fin.get base.now.accounts service) }
        ensures { IfOk result (λ scope. scope ≡ started base.now.accounts service entropy.now slot) }
    {
        let now = ContextCopy {
            accounts: base.accounts.copy()?,
            candidate: first_candidate(service, entropy, slot),
            transfers: Transfers::new(alloc),
            yielded: None,
            provided: ProvidedList::new(alloc),
        };
        Ok(Copies {
            alloc,
            base,
            service,
            now,
            saved: None,
        })
    }
}

/// An account without what it keeps.
fn view_of(account: &Account) -> AccountView
    ensures { result ≡ view_of account.now }
{
    AccountView {
        code_hash: account.code_hash,
        balance: account.balance,
        min_accumulate: account.min_accumulate,
        min_transfer: account.min_transfer,
        gratis: account.gratis,
        created: account.created,
        footprint: account.footprint(),
    }
}

impl<'a> Scope for Copies<'a> {
    ghost pair = { λ c. c };

    fn service(&self) -> u32 {
        self.service
    }

    fn view(&self, id: u32) -> Option<AccountView> {
        let account = self.now.accounts.get(id)?;
        Some(view_of(account))
    }

    fn value(&self, id: u32, key: &[u8]) -> Option<&[u8]> {
        let account = self.now.accounts.get(id)?;
        account.storage.get(key)
    }

    fn preimage(&self, id: u32, hash: &[u8; 32]) -> Option<&[u8]> {
        let account = self.now.accounts.get(id)?;
        account.preimages.get(hash)
    }

    fn history(&self, id: u32, hash: &[u8; 32], length: u32) -> Option<History> {
        let account = self.now.accounts.get(id)?;
        account.lookups.get(hash, length)
    }

    fn transfers(&self) -> &[Transfer] {
        self.now.transfers.as_slice()
    }

    fn yielded(&self) -> Option<[u8; 32]> {
        self.now.yielded
    }

    fn provided(&self) -> &[Provided] {
        self.now.provided.as_slice()
    }

    fn free_id(&self) -> Option<u32> {
        let base = self.base;
        let taken = base.accounts.len() + count_added(&base.accounts, &self.now.accounts);
        if taken >= MAX_SERVICES {
            return None;
        }
        first_free(
            &base.accounts,
            &self.now.accounts,
            self.now.candidate,
            RING_SIZE,
        )
    }

    fn put_value(&mut self, key: &[u8], value: &[u8]) -> Result<(), AllocError> {
        part(self.alloc, &self.now, &mut self.saved)?;
        own::put_value(self.alloc, &mut self.now.accounts, self.service, key, value)
    }

    fn drop_value(&mut self, key: &[u8]) -> Result<(), AllocError> {
        part(self.alloc, &self.now, &mut self.saved)?;
        own::drop_value(self.alloc, &mut self.now.accounts, self.service, key);
        Ok(())
    }

    fn set_history(
        &mut self,
        hash: &[u8; 32],
        length: u32,
        history: Option<History>,
    ) -> Result<(), AllocError> {
        part(self.alloc, &self.now, &mut self.saved)?;
        own::set_history(
            self.alloc,
            &mut self.now.accounts,
            self.service,
            hash,
            length,
            history,
        )
    }

    fn drop_preimage(&mut self, hash: &[u8; 32]) -> Result<(), AllocError> {
        part(self.alloc, &self.now, &mut self.saved)?;
        own::drop_preimage(self.alloc, &mut self.now.accounts, self.service, hash);
        Ok(())
    }

    fn set_balance(&mut self, balance: u64) -> Result<(), AllocError> {
        part(self.alloc, &self.now, &mut self.saved)?;
        own::set_balance(self.alloc, &mut self.now.accounts, self.service, balance);
        Ok(())
    }

    fn set_code(
        &mut self,
        code_hash: &[u8; 32],
        min_accumulate: u64,
        min_transfer: u64,
    ) -> Result<(), AllocError> {
        part(self.alloc, &self.now, &mut self.saved)?;
        own::set_code(
            self.alloc,
            &mut self.now.accounts,
            self.service,
            code_hash,
            min_accumulate,
            min_transfer,
        );
        Ok(())
    }

    fn add_account(&mut self, id: u32, account: Account) -> Result<(), AllocError> {
        part(self.alloc, &self.now, &mut self.saved)?;
        self.now.accounts.put(id, account)?;
        self.now.candidate = bump(id);
        Ok(())
    }

    fn remove_account(&mut self, id: u32) -> Result<(), AllocError> {
        part(self.alloc, &self.now, &mut self.saved)?;
        self.now.accounts.remove(id);
        Ok(())
    }

    fn push_transfer(&mut self, transfer: Transfer) -> Result<(), AllocError> {
        part(self.alloc, &self.now, &mut self.saved)?;
        self.now.transfers.push(transfer)
    }

    fn set_yield(&mut self, hash: [u8; 32]) -> Result<(), AllocError> {
        part(self.alloc, &self.now, &mut self.saved)?;
        self.now.yielded = Some(hash);
        Ok(())
    }

    fn push_provided(&mut self, service: u32, bytes: &[u8]) -> Result<(), AllocError> {
        let bytes = Blob::new(Vec::from_slice(self.alloc, bytes)?);
        part(self.alloc, &self.now, &mut self.saved)?;
        self.now.provided.push(Provided { service, bytes })
    }

    fn checkpoint(&mut self) -> Result<(), AllocError> {
        self.saved = Some(copy_of(self.alloc, &self.now)?);
        Ok(())
    }

    fn restore(&mut self) {
        if let Some(saved) = self.saved.take() {
            self.now = saved;
        }
    }

    fn into_delta(self) -> Result<Delta, AllocError> {
        let base = self.base;
        difference(self.alloc, &base.accounts, self.service, self.now)
    }
}
