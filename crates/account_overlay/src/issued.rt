// What an invocation issues, and where its next new service is looked for.
ghost use Rattle.std.specs.Prelude.{◌≡◌, [], ◌∷◌, ◌++◌, Some, None, IfOk, OnOk, OnErr};

use account_context::{Provided, ProvidedList, Transfer, Transfers};
use std::alloc::{AllocError, Global};
use std::marker::Model;

/// The candidate for the next new service, the transfers, the yield and the preimages provided, now
/// and as they were saved. The two lists only grow, so of what was saved their lengths are kept.
#[derive(Drop)]
pub struct Issued {
    candidate: u32,
    saved_candidate: u32,
    transfers: Vec<Transfer>,
    saved_transfers: usize,
    yielded: Option<[u8; 32]>,
    saved_yielded: Option<[u8; 32]>,
    provided: Vec<Provided>,
    saved_provided: usize,
}

impl Model for Issued {
    ghost use Rattle.std.specs.Prelude.{length, ◌≤◌};
    ghost use Rattle.account_overlay.specs.Layers.{Halves, coded_halves};
    ghost use Rattle.account_overlay.specs.Pairs.{Issue, coded_issue, issued_of};

    ghost Value = { Halves Issue };

    ghost coded = { coded_halves coded_issue };

    ghost view = { λ i. issued_of i.candidate i.saved_candidate i.transfers.items i.saved_transfers i.yielded i.saved_yielded i.provided.items i.saved_provided };

    ghost invariant = { λ i. (i.saved_transfers ≤ length i.transfers.items) × (i.saved_provided ≤ length i.provided.items) };
}

// The same transfers as a list.
fn transfers_of(alloc: Global, transfers: &[Transfer]) -> Result<Transfers, AllocError>
    ensures { IfOk result (λ list. list ≡ transfers.now) }
{
    let mut list = Transfers::new(alloc);
    for transfer in transfers {
        list.push(*transfer)?;
    }
    Ok(list)
}

// The same preimages as a list.
fn provided_of(alloc: Global, provided: Vec<Provided>) -> Result<ProvidedList, AllocError>
    ensures { IfOk result (λ list. list ≡ provided.items) }
{
    let mut list = ProvidedList::new(alloc);
    for preimage in provided {
        list.push(preimage)?;
    }
    Ok(list)
}

impl Issued {
    /// Nothing issued, with a candidate.
    pub fn new(alloc: Global, candidate: u32) -> Issued
        ensures now { result.now ≡ record { candidate = candidate; transfers = []; yielded = None; provided = [] } }
        ensures saved { result.saved ≡ record { candidate = candidate; transfers = []; yielded = None; provided = [] } }
    {
        Issued {
            candidate,
            saved_candidate: candidate,
            transfers: Vec::new(alloc),
            saved_transfers: 0,
            yielded: None,
            saved_yielded: None,
            provided: Vec::new(alloc),
            saved_provided: 0,
        }
    }

    /// The number from which on the next new service is given one.
    pub fn candidate(&self) -> u32
        ensures { result ≡ self.now.now.candidate }
    {
        self.candidate
    }

    /// The transfers.
    pub fn transfers(&self) -> &[Transfer]
        ensures { result.now ≡ self.now.now.transfers }
    {
        self.transfers.as_slice()
    }

    /// The hash that was yielded.
    pub fn yielded(&self) -> Option<[u8; 32]>
        ensures { result ≡ self.now.now.yielded }
    {
        self.yielded
    }

    /// The preimages that were provided.
    pub fn provided(&self) -> &[Provided]
        ensures { result.now ≡ self.now.now.provided }
    {
        self.provided.as_slice()
    }

    /// Moves the candidate.
    pub fn set_candidate(&mut self, candidate: u32)
        ensures { self.new ≡ record self.old { now = record self.old.now { candidate = candidate } } }
    {
        self.candidate = candidate;
    }

    /// Adds a transfer behind the others.
    ///
    /// # Errors
    /// `AllocError` for want of memory; then nothing was added.
    pub fn push_transfer(&mut self, transfer: Transfer) -> Result<(), AllocError>
        ensures ok { OnOk result (self.new ≡ record self.old { now = record self.old.now { transfers = self.old.now.transfers ++ transfer ∷ [] } }) }
        ensures err { OnErr result (self.new ≡ self.old) }
    {
        self.transfers.push(transfer)?;
        Ok(())
    }

    /// Yields a hash, in place of the one before.
    pub fn set_yield(&mut self, hash: [u8; 32])
        ensures { self.new ≡ record self.old { now = record self.old.now { yielded = Some hash } } }
    {
        self.yielded = Some(hash);
    }

    /// Adds a preimage behind the others.
    ///
    /// # Errors
    /// `AllocError` for want of memory; then nothing was added.
    pub fn push_provided(&mut self, provided: Provided) -> Result<(), AllocError>
        ensures ok { OnOk result (self.new ≡ record self.old { now = record self.old.now { provided = self.old.now.provided ++ provided ∷ [] } }) }
        ensures err { OnErr result (self.new ≡ self.old) }
    {
        self.provided.push(provided)?;
        Ok(())
    }

    /// Saves all of it.
    pub fn checkpoint(&mut self)
        ensures { self.new ≡ record self.old { saved = self.old.now } }
    {
        let yielded = self.yielded;
        self.saved_candidate = self.candidate;
        self.saved_transfers = self.transfers.len();
        self.saved_yielded = yielded;
        self.saved_provided = self.provided.len();
    }

    /// Makes all of it what was saved.
    pub fn rollback(&mut self)
        ensures { self.new ≡ record self.old { now = self.old.saved } }
    {
        let yielded = self.saved_yielded;
        self.candidate = self.saved_candidate;
        self.transfers.truncate(self.saved_transfers);
        self.yielded = yielded;
        self.provided.truncate(self.saved_provided);
    }

    /// The transfers and the preimages provided, as lists.
    ///
    /// # Errors
    /// `AllocError` for want of memory.
    pub fn into_lists(self, alloc: Global) -> Result<(Transfers, ProvidedList), AllocError>
        ensures { IfOk result (λ lists. (lists.0 ≡ self.now.transfers) × (lists.1 ≡ self.now.provided)) }
    {
        let transfers = transfers_of(alloc, self.transfers.as_slice())?;
        let provided = provided_of(alloc, self.provided)?;
        Ok((transfers, provided))
    }
}
