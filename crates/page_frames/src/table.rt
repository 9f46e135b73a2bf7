// A table of two levels, from pages to the keys of their frames.
ghost use Rattle.std.specs.Prelude.{◌≡◌, ◌≢◌, ℕ, ◌<◌, ◌^◌, List, Option, Some, None, [], OnOk, OnErr, length, slice_index_or};
ghost use Rattle.page_frames.specs.FrameTable.{key_at};

use std::alloc::{AllocError, Global};
use std::marker::Model;

/// The keys of 1,024 pages, as far as there are any.
#[derive(Drop)]
pub struct Level {
    keys: Vec<Option<usize>>,
}

impl Model for Level {
    ghost Value = { List (Option ℕ) };

    ghost view = { λ a. a.keys.items };
}

// Makes a list of keys reach an index.
fn reach_key(keys: &mut Vec<Option<usize>>, index: usize) -> Result<(), AllocError>
    requires { index < 1024 }
    ensures reaches { OnOk result (index < length keys.new.items) }
    ensures same { (i : ℕ) → slice_index_or keys.new.items i None ≡ slice_index_or keys.old.items i None }
{
    for _missing in keys.len()..index + 1 {
        keys.push(None)?;
    }
    Ok(())
}

// Takes a key out of a list.
fn forget(keys: &mut Vec<Option<usize>>, index: usize)
    ensures at { slice_index_or keys.new.items index None ≡ None }
    ensures others { (i : ℕ) → i ≢ index → slice_index_or keys.new.items i None ≡ slice_index_or keys.old.items i None }
{
    if index < keys.len() {
        keys[index] = None;
    }
}

impl Level {
    fn new(alloc: Global) -> Level
        ensures { result ≡ [] }
    {
        Level {
            keys: Vec::new(alloc),
        }
    }

    #[inline(always)]
    fn get(&self, index: usize) -> Option<usize>
        ensures { result ≡ slice_index_or self.now index None }
    {
        self.keys.get(index).copied().flatten()
    }

    fn set(&mut self, index: usize, key: usize) -> Result<(), AllocError>
        requires { index < 1024 }
        ensures at { OnOk result (slice_index_or self.new index None ≡ Some key) }
        ensures others { (i : ℕ) → i ≢ index → slice_index_or self.new i None ≡ slice_index_or self.old i None }
        ensures err { OnErr result ((i : ℕ) → slice_index_or self.new i None ≡ slice_index_or self.old i None) }
    {
        reach_key(&mut self.keys, index)?;
        self.keys[index] = Some(key);
        Ok(())
    }

    fn clear(&mut self, index: usize)
        ensures at { slice_index_or self.new index None ≡ None }
        ensures others { (i : ℕ) → i ≢ index → slice_index_or self.new i None ≡ slice_index_or self.old i None }
    {
        forget(&mut self.keys, index)
    }
}

// Makes the table reach a level.
fn reach_level(table: &mut Vec<Level>, top: usize) -> Result<(), AllocError>
    requires { top < 1024 }
    ensures reaches { OnOk result (top < length table.new.items) }
    ensures same { (i : ℕ) → slice_index_or table.new.items i [] ≡ slice_index_or table.old.items i [] }
{
    for _missing in table.len()..top + 1 {
        table.push(Level::new(*table.allocator()))?;
    }
    Ok(())
}

/// The key of a page's frame.
#[inline(always)]
pub fn key_of(table: &[Level], page: u32) -> Option<usize>
    ensures { result ≡ key_at table.now page }
{
    match table.get((page / 1024) as usize) {
        Some(level) => level.get((page % 1024) as usize),
        None => None,
    }
}

/// Gives a page the key of its frame.
pub fn set_key(table: &mut Vec<Level>, page: u32, key: usize) -> Result<(), AllocError>
    requires { page < 2 ^ 20 }
    ensures at { OnOk result (key_at table.new.items page ≡ Some key) }
    ensures others { (q : ℕ) → q ≢ page → key_at table.new.items q ≡ key_at table.old.items q }
    ensures err { OnErr result ((q : ℕ) → key_at table.new.items q ≡ key_at table.old.items q) }
{
    let top = (page / 1024) as usize;
    reach_level(table, top)?;
    table[top].set((page % 1024) as usize, key)
}

/// Takes the key of a page's frame away.
pub fn clear_key(table: &mut Vec<Level>, page: u32)
    ensures at { key_at table.new.items page ≡ None }
    ensures others { (q : ℕ) → q ≢ page → key_at table.new.items q ≡ key_at table.old.items q }
{
    let top = (page / 1024) as usize;
    if top < table.len() {
        table[top].clear((page % 1024) as usize);
    }
}
