// Transfers in their order.
ghost use Rattle.std.specs.Prelude.{◌≡◌, [], ◌∷◌, ◌++◌, IfOk, OnOk, OnErr};

use crate::transfer::Transfer;
use std::alloc::{AllocError, Global};
use std::marker::Model;

/// Transfers in the order in which they were issued.
#[derive(Drop)]
pub struct Transfers {
    transfers: Vec<Transfer>,
}

impl Model for Transfers {
    ghost use Rattle.std.specs.Prelude.{List};
    ghost use Rattle.account_context.specs.declared.transfer.Transfer.{Transfer};

    ghost Value = { List Transfer };

    ghost view = { λ t. t.transfers.items };
}

impl Transfers {
    /// No transfer.
    pub fn new(alloc: Global) -> Transfers
        ensures { result ≡ [] }
    {
        Transfers {
            transfers: Vec::new(alloc),
        }
    }

    /// The transfers.
    pub fn as_slice(&self) -> &[Transfer]
        ensures { result.now ≡ self.now }
    {
        self.transfers.as_slice()
    }

    /// Adds a transfer behind the others.
    ///
    /// # Errors
    /// `AllocError` for want of memory; then nothing was added.
    pub fn push(&mut self, transfer: Transfer) -> Result<(), AllocError>
        ensures ok { OnOk result (self.new ≡ self.old ++ transfer ∷ []) }
        ensures err { OnErr result (self.new ≡ self.old) }
    {
        self.transfers.push(transfer)?;
        Ok(())
    }

    /// The same transfers.
    ///
    /// # Errors
    /// `AllocError` for want of memory.
    pub fn copy(&self, alloc: Global) -> Result<Transfers, AllocError>
        ensures { IfOk result (λ copy. copy ≡ self.now) }
    {
        let transfers = Vec::from_slice(alloc, self.transfers.as_slice())?;
        Ok(Transfers { transfers })
    }
}
