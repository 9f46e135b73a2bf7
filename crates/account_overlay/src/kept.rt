// The preimages of the service's own account: those at the start, without those that were dropped.
ghost use Rattle.std.specs.Prelude.{◌≡◌, [], IfOk, OnOk, OnErr, option_map};
ghost use Rattle.std.specs.FinMap as fin;
ghost use Rattle.account_overlay.specs.Parts.{preimages_of};

use crate::layer::Layer;
use jam_accounts::Preimages;
use std::alloc::{AllocError, Global};
use std::collections::BTreeMap;
use std::marker::Model;

/// Preimages by digest, now and as they were saved. A place holds whether the preimage was dropped.
#[derive(Drop)]
pub struct KeptPreimages<'a> {
    base: &'a Preimages,
    layer: Layer<[u8; 32], bool>,
}

impl<'a> Model for KeptPreimages<'a> {
    ghost use Rattle.jam_accounts.specs.Accounts.{Preimages, bytes_cmp};
    ghost use Rattle.jam_accounts.specs.Coded.{coded_preimages};
    ghost use Rattle.account_overlay.specs.Layers.{Halves, coded_halves, Covered};
    ghost use Rattle.account_overlay.specs.Parts.{preimages_of};

    ghost Value = { Halves Preimages };

    ghost coded = { coded_halves coded_preimages };

    ghost view = { λ k. preimages_of k.base.now k.layer.places.entries k.layer.journal.items };

    ghost invariant = { λ k. Covered bytes_cmp k.layer.places.entries k.layer.journal.items };
}

impl<'a> KeptPreimages<'a> {
    /// The preimages of the base.
    pub fn new(alloc: Global, base: &'a Preimages) -> KeptPreimages<'a>
        ensures { result ≡ record { now = base.now; saved = base.now } }
    {
        KeptPreimages {
            base,
            layer: Layer::new(alloc),
        }
    }

    /// The preimage of a hash.
    pub fn get(&self, hash: &[u8; 32]) -> Option<&[u8]>
        ensures { option_map (λ bytes. bytes.now) result ≡ fin.get self.now.now hash.now }
    {
        let places = &self.layer.places;
        let base = self.base;
        match places.get(hash) {
            Some(true) => None,
            Some(false) => base.get(hash),
            None => base.get(hash),
        }
    }

    /// Drops the preimage of a hash, where there is one.
    ///
    /// # Errors
    /// `AllocError` for want of memory; the preimages are then as before.
    pub fn drop(&mut self, hash: &[u8; 32]) -> Result<(), AllocError>
        ensures ok { OnOk result (self.new ≡ record self.old { now = fin.remove self.old.now hash.now }) }
        ensures err { OnErr result (self.new ≡ self.old) }
    {
        self.layer.set(*hash, *hash, true, false)
    }

    /// Saves the preimages.
    pub fn checkpoint(&mut self)
        ensures { self.new ≡ record self.old { saved = self.old.now } }
    {
        self.layer.checkpoint();
    }

    /// Makes the preimages those that were saved.
    pub fn rollback(&mut self)
        ensures { self.new ≡ record self.old { now = self.old.saved } }
    {
        self.layer.rollback();
    }

    /// The preimages now, in a map of their own.
    ///
    /// # Errors
    /// `AllocError` for want of memory.
    pub fn into_preimages(self) -> Result<Preimages, AllocError>
        ensures { IfOk result (λ preimages. preimages ≡ self.entry.now) }
    {
        let base = self.base;
        let layer = self.layer;
        preimages_after(base, layer.places)
    }
}

// The preimages of a base without those whose places say that they were dropped.
fn preimages_after(
    base: &Preimages,
    mut places: BTreeMap<[u8; 32], bool>,
) -> Result<Preimages, AllocError>
    ensures { IfOk result (λ preimages. preimages ≡ (preimages_of base.now places.entries []).now) }
{
    let mut preimages = base.copy()?;
    while let Some(place) = places.pop_last() {
        let hash = place.0;
        if place.1 {
            preimages.remove(&hash);
        }
    }
    Ok(preimages)
}
