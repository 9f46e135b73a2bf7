// The histories of the service's own account, as changes over those at the start.
ghost use Rattle.std.specs.Prelude.{◌≡◌, [], IfOk, OnOk, OnErr};
ghost use Rattle.std.specs.FinMap as fin;
ghost use Rattle.account_overlay.specs.Layers.{with_value};
ghost use Rattle.account_overlay.specs.Parts.{histories_of};

use crate::layer::{Change, Layer};
use jam_accounts::Lookups;
use preimage_store::History;
use std::alloc::{AllocError, Global};
use std::collections::BTreeMap;
use std::marker::Model;

/// Histories by hash and length, now and as they were saved.
#[derive(Drop)]
pub struct Histories<'a> {
    base: &'a Lookups,
    layer: Layer<([u8; 32], u32), Change<History>>,
}

impl<'a> Model for Histories<'a> {
    ghost use Rattle.jam_codec.specs.Lists.{hash_and_number_cmp};
    ghost use Rattle.jam_accounts.specs.Accounts.{Lookups};
    ghost use Rattle.jam_accounts.specs.Coded.{coded_lookups};
    ghost use Rattle.account_overlay.specs.Layers.{Halves, coded_halves, Covered};
    ghost use Rattle.account_overlay.specs.Parts.{histories_of};

    ghost Value = { Halves Lookups };

    ghost coded = { coded_halves coded_lookups };

    ghost view = { λ h. histories_of h.base.now h.layer.places.entries h.layer.journal.items };

    ghost invariant = { λ h. Covered hash_and_number_cmp h.layer.places.entries h.layer.journal.items };
}

impl<'a> Histories<'a> {
    /// The histories of the base.
    pub fn new(alloc: Global, base: &'a Lookups) -> Histories<'a>
        ensures { result ≡ record { now = base.now; saved = base.now } }
    {
        Histories {
            base,
            layer: Layer::new(alloc),
        }
    }

    /// The history of a hash with a length.
    pub fn get(&self, hash: &[u8; 32], length: u32) -> Option<History>
        ensures { result ≡ fin.get self.now.now (hash.now, length) }
    {
        let places = &self.layer.places;
        let base = self.base;
        match places.get(&(*hash, length)) {
            Some(Change::Is(history)) => Some(*history),
            Some(Change::Gone) => None,
            Some(Change::AsBase) => base.get(hash, length),
            None => base.get(hash, length),
        }
    }

    /// Makes a history stand under a hash and a length, or none.
    ///
    /// # Errors
    /// `AllocError` for want of memory; the histories are then as before.
    pub fn set(
        &mut self,
        hash: &[u8; 32],
        length: u32,
        history: Option<History>,
    ) -> Result<(), AllocError>
        ensures ok { OnOk result (self.new ≡ record self.old { now = with_value self.old.now (hash.now, length) history }) }
        ensures err { OnErr result (self.new ≡ self.old) }
    {
        let key = (*hash, length);
        self.layer
            .set(key, key, Change::to(history), Change::AsBase)
    }

    /// Saves the histories.
    pub fn checkpoint(&mut self)
        ensures { self.new ≡ record self.old { saved = self.old.now } }
    {
        self.layer.checkpoint();
    }

    /// Makes the histories those that were saved.
    pub fn rollback(&mut self)
        ensures { self.new ≡ record self.old { now = self.old.saved } }
    {
        self.layer.rollback();
    }

    /// The histories now, in a map of their own.
    ///
    /// # Errors
    /// `AllocError` for want of memory.
    pub fn into_lookups(self) -> Result<Lookups, AllocError>
        ensures { IfOk result (λ lookups. lookups ≡ self.entry.now) }
    {
        let base = self.base;
        let layer = self.layer;
        lookups_after(base, layer.places)
    }
}

// The histories of a base after what the places hold, which is taken from the last place on.
fn lookups_after(
    base: &Lookups,
    mut places: BTreeMap<([u8; 32], u32), Change<History>>,
) -> Result<Lookups, AllocError>
    ensures { IfOk result (λ lookups. lookups ≡ (histories_of base.now places.entries []).now) }
{
    let mut lookups = base.copy()?;
    while let Some((key, change)) = places.pop_last() {
        let hash = key.0;
        let length = key.1;
        match change {
            Change::Is(history) => lookups.put(&hash, length, history)?,
            Change::Gone => {
                lookups.remove(&hash, length);
            }
            Change::AsBase => {}
        }
    }
    Ok(lookups)
}
