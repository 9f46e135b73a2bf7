// Preimages that are provided, in their order.
ghost use Rattle.std.specs.Prelude.{◌≡◌, [], ◌∷◌, ◌++◌, IfOk, OnOk, OnErr};

use crate::provided::Provided;
use jam_fields::Blob;
use std::alloc::{AllocError, Global};
use std::marker::Model;

/// Preimages that were provided, in the order in which they were issued.
#[derive(Drop)]
pub struct ProvidedList {
    list: Vec<Provided>,
}

impl Model for ProvidedList {
    ghost use Rattle.std.specs.Prelude.{List};
    ghost use Rattle.account_context.specs.declared.provided.Provided.{Provided};

    ghost Value = { List Provided };

    ghost view = { λ p. p.list.items };
}

impl ProvidedList {
    /// No preimage.
    pub fn new(alloc: Global) -> ProvidedList
        ensures { result ≡ [] }
    {
        ProvidedList {
            list: Vec::new(alloc),
        }
    }

    /// The preimages.
    pub fn as_slice(&self) -> &[Provided]
        ensures { result.now ≡ self.now }
    {
        self.list.as_slice()
    }

    /// Adds a preimage behind the others.
    ///
    /// # Errors
    /// `AllocError` for want of memory; then nothing was added.
    pub fn push(&mut self, provided: Provided) -> Result<(), AllocError>
        ensures ok { OnOk result (self.new ≡ self.old ++ provided ∷ []) }
        ensures err { OnErr result (self.new ≡ self.old) }
    {
        self.list.push(provided)?;
        Ok(())
    }

    /// The same preimages.
    ///
    /// # Errors
    /// `AllocError` for want of memory.
    pub fn copy(&self, alloc: Global) -> Result<ProvidedList, AllocError>
        ensures { IfOk result (λ copy. copy ≡ self.now) }
    {
        let mut copy = ProvidedList::new(alloc);
        for provided in self.as_slice() {
            let bytes = Vec::from_slice(alloc, provided.bytes.as_slice())?;
            copy.push(Provided {
                service: provided.service,
                bytes: Blob::new(bytes),
            })?;
        }
        Ok(copy)
    }
}
