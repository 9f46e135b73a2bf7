// Changes over a map, and the journal by which they are undone.
ghost use Rattle.std.specs.Prelude.{◌≡◌, [], ◌∷◌, ◌++◌, OnOk, OnErr, IsSome, true};
ghost use Rattle.std.specs.Option.{unwrap_or};
ghost use Rattle.std.specs.BTreeMap as tree;
ghost use Rattle.std.specs.BTreeMap.{insert_entry, is_at};
ghost use Rattle.account_overlay.specs.Layers.{Covered, Keeps, put_back, becomes};

use std::alloc::{AllocError, Global};
use std::collections::BTreeMap;

/// What stands at a key of a map that is changed.
#[derive(Drop)]
pub enum Change<V> {
    /// What stands there in the map below.
    AsBase,
    /// Nothing.
    Gone,
    /// A value.
    Is(V),
}

impl<V> Change<V> {
    /// The change after which a value stands there, or none.
    pub fn to(value: Option<V>) -> Change<V>
        ensures { result ≡ becomes value }
    {
        match value {
            Some(value) => Change::Is(value),
            None => Change::Gone,
        }
    }
}

/// What holds at each key that was ever changed, and the journal: what was held at a key before it
/// was changed, for each change since the last checkpoint, in their order.
#[derive(Drop)]
pub struct Layer<K: Ord, C> {
    pub places: BTreeMap<K, C>,
    pub journal: Vec<(K, C)>,
}

// Makes a place hold something again. This takes no memory.
fn put_back<K: Ord + Drop, C: Drop>(places: &mut BTreeMap<K, C>, key: K, held: C)
    requires { IsSome (tree.get K.cmp places.old key) }
    ensures entries { places.new.entries ≡ insert_entry K.cmp places.old.entries key held }
    ensures kept { Keeps K.cmp places.old.entries places.new.entries }
{
    match places.insert(key, held) {
        Ok(_) => {}
        Err(_) => unreachable!(),
    }
}

impl<K: Ord + Drop, C: Drop> Layer<K, C> {
    /// No place.
    pub fn new(alloc: Global) -> Layer<K, C>
        ensures places { result.places.entries ≡ [] }
        ensures journal { result.journal.items ≡ [] }
    {
        Layer {
            places: BTreeMap::new(alloc),
            journal: Vec::new(alloc),
        }
    }

    /// Makes the place of a key hold this, and writes in the journal what it held before: nothing,
    /// where there was no place. The key is given twice, for the place and for the journal.
    ///
    /// # Errors
    /// `AllocError` for want of memory; then nothing is changed.
    pub fn set(&mut self, place: K, key: K, held: C, nothing: C) -> Result<(), AllocError>
        requires { is_at (K.cmp place) key ≡ true }
        ensures places { OnOk result (self.new.places.entries ≡ insert_entry K.cmp self.old.places.entries place held) }
        ensures journal { OnOk result (self.new.journal.items ≡ self.old.journal.items ++ (key, unwrap_or (tree.get K.cmp self.old.places place) nothing) ∷ []) }
        ensures err_places { OnErr result (self.new.places.entries ≡ self.old.places.entries) }
        ensures err_journal { OnErr result (self.new.journal.items ≡ self.old.journal.items) }
        ensures covered { Covered K.cmp self.old.places.entries self.old.journal.items → Covered K.cmp self.new.places.entries self.new.journal.items }
    {
        self.journal.reserve(1)?;
        let before = match self.places.insert(place, held)? {
            Some(before) => before,
            None => nothing,
        };
        self.journal.push((key, before))?;
        Ok(())
    }

    /// Drops the journal.
    pub fn checkpoint(&mut self)
        ensures places { self.new.places.entries ≡ self.old.places.entries }
        ensures journal { self.new.journal.items ≡ [] }
    {
        self.journal.clear();
    }

    /// Makes each place of the journal hold what it held before, the last change first. This takes
    /// no memory.
    pub fn rollback(&mut self)
        requires { Covered K.cmp self.old.places.entries self.old.journal.items }
        ensures places { self.new.places.entries ≡ put_back K.cmp self.old.places.entries self.old.journal.items }
        ensures journal { self.new.journal.items ≡ [] }
    {
        while let Some((key, held)) = self.journal.pop() {
            put_back(&mut self.places, key, held);
        }
    }
}
