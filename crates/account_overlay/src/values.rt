// The values of the service's own account, as changes over those at the start.
ghost use Rattle.std.specs.Prelude.{◌≡◌, [], IfOk, OnOk, OnErr, option_map};
ghost use Rattle.std.specs.FinMap as fin;
ghost use Rattle.account_overlay.specs.Layers.{with_value};
ghost use Rattle.account_overlay.specs.Parts.{values_of};

use crate::layer::{Change, Layer};
use jam_accounts::Storage;
use std::alloc::{AllocError, Global};
use std::collections::BTreeMap;
use std::marker::Model;

/// Values by key, now and as they were saved.
#[derive(Drop)]
pub struct Values<'a> {
    base: &'a Storage,
    layer: Layer<Vec<u8>, Change<Vec<u8>>>,
}

impl<'a> Model for Values<'a> {
    ghost use Rattle.jam_accounts.specs.Accounts.{Storage, bytes_cmp};
    ghost use Rattle.jam_accounts.specs.Coded.{coded_storage};
    ghost use Rattle.account_overlay.specs.Layers.{Halves, coded_halves, Covered};
    ghost use Rattle.account_overlay.specs.Parts.{values_of};

    ghost Value = { Halves Storage };

    ghost coded = { coded_halves coded_storage };

    ghost view = { λ v. values_of v.base.now v.layer.places.entries v.layer.journal.items };

    ghost invariant = { λ v. Covered (λ x y. bytes_cmp x.items y.items) v.layer.places.entries v.layer.journal.items };
}

impl<'a> Values<'a> {
    /// The values of the base.
    pub fn new(alloc: Global, base: &'a Storage) -> Values<'a>
        ensures { result ≡ record { now = base.now; saved = base.now } }
    {
        Values {
            base,
            layer: Layer::new(alloc),
        }
    }

    /// The value under a key.
    pub fn get(&self, key: &[u8]) -> Option<&[u8]>
        ensures { option_map (λ value. value.now) result ≡ fin.get self.now.now key.now }
    {
        let places = &self.layer.places;
        let base = self.base;
        match places.get(key) {
            Some(Change::Is(value)) => Some(value.as_slice()),
            Some(Change::Gone) => None,
            Some(Change::AsBase) => base.get(key),
            None => base.get(key),
        }
    }

    /// Makes a value stand under a key, or none.
    ///
    /// # Errors
    /// `AllocError` for want of memory; the values are then as before.
    pub fn set(
        &mut self,
        alloc: Global,
        key: &[u8],
        value: Option<Vec<u8>>,
    ) -> Result<(), AllocError>
        ensures ok { OnOk result (self.new ≡ record self.old { now = with_value self.old.now key.now (option_map (λ value. value.items) value) }) }
        ensures err { OnErr result (self.new ≡ self.old) }
    {
        let place = Vec::from_slice(alloc, key)?;
        let undo = Vec::from_slice(alloc, key)?;
        self.layer
            .set(place, undo, Change::to(value), Change::AsBase)
    }

    /// Saves the values.
    pub fn checkpoint(&mut self)
        ensures { self.new ≡ record self.old { saved = self.old.now } }
    {
        self.layer.checkpoint();
    }

    /// Makes the values those that were saved.
    pub fn rollback(&mut self)
        ensures { self.new ≡ record self.old { now = self.old.saved } }
    {
        self.layer.rollback();
    }

    /// The values now, in a map of their own.
    ///
    /// # Errors
    /// `AllocError` for want of memory.
    pub fn into_storage(self) -> Result<Storage, AllocError>
        ensures { IfOk result (λ storage. storage ≡ self.entry.now) }
    {
        let base = self.base;
        let layer = self.layer;
        storage_after(base, layer.places)
    }
}

// The values of a base after what the places hold, which is taken from the last place on.
fn storage_after(
    base: &Storage,
    mut places: BTreeMap<Vec<u8>, Change<Vec<u8>>>,
) -> Result<Storage, AllocError>
    ensures { IfOk result (λ storage. storage ≡ (values_of base.now places.entries []).now) }
{
    let mut storage = base.copy()?;
    while let Some((key, change)) = places.pop_last() {
        match change {
            Change::Is(value) => storage.put(key, value)?,
            Change::Gone => {
                storage.remove(&key);
            }
            Change::AsBase => {}
        }
    }
    Ok(storage)
}
