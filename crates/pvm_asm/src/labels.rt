// The labels of a text and their places.
ghost use Rattle.std.specs.Prelude.{◌≡◌, OnOk};
ghost use Rattle.pvm_asm.specs.Labels.{no_labels, place_of_label, with_label};

use std::alloc::{AllocError, Global};
use std::collections::BTreeMap;
use std::marker::Model;

/// The place of each label.
#[derive(Drop)]
pub struct Labels {
    alloc: Global,
    places: BTreeMap<Vec<u8>, u64>,
}

impl Model for Labels {
    ghost use Rattle.std.specs.Prelude.{ℕ};
    ghost use Rattle.std.specs.Coded.{coded_list, coded_ℕ};
    ghost use Rattle.std.specs.FinMap as fin;
    ghost use Rattle.pvm_asm.specs.Labels.{Labels, places_of};

    ghost Value = { Labels };

    ghost coded = { fin.code (coded_list coded_ℕ) coded_ℕ };

    ghost view = { λ l. places_of l.places };
}

impl Labels {
    /// No label.
    pub fn new(alloc: Global) -> Labels
        ensures { result ≡ no_labels }
    {
        Labels {
            alloc,
            places: BTreeMap::new(alloc),
        }
    }

    /// The place of a label.
    #[tactic(auto, using(crate::proofs::Places::place_found))]
    pub fn place(&self, name: &[u8]) -> Option<u64>
        ensures { result ≡ place_of_label self.now name.now }
    {
        self.places.get(name).copied()
    }

    /// Keeps the place of a label, unless it has one.
    ///
    /// # Errors
    /// Want of memory; then nothing was kept.
    #[tactic(auto, using(crate::proofs::Places::place_kept))]
    pub fn keep(&mut self, name: &[u8], place: u64) -> Result<(), AllocError>
        ensures { OnOk result (self.new ≡ with_label self.old name.now place) }
    {
        if self.place(name).is_some() {
            return Ok(());
        }
        let name = Vec::from_slice(self.alloc, name)?;
        self.places.insert(name, place)?;
        Ok(())
    }
}
