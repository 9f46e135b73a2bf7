// The bytes of one page, read and written.
ghost use Rattle.std.specs.Prelude.{◌≡◌, ◌≢◌, ℕ, ◌+◌, ◌<◌, ◌≤◌, ◌^◌, List, Some, None, OnOk, OnErr, IsOk, length, take, drop, slice_index};
ghost use Rattle.slab.specs.Slab.{get};
ghost use Rattle.page_frames.specs.PageBytes.{overwritten};
ghost use Rattle.page_frames.specs.FrameTable.{zero_page, key_at, page_bytes, IsSound, PageChanged, SamePages};

use crate::frame::Frame;
use crate::table::{Level, clear_key, key_of, set_key};
use slab::Slab;
use std::alloc::AllocError;

/// A byte of a page.
#[inline]
pub fn byte(table: &[Level], frames: &Slab<Frame>, page: u32, place: usize) -> u8
    requires { place < 4096 }
    ensures { result ≡ slice_index (page_bytes table.now frames.now page) place }
{
    match key_of(table, page) {
        Some(key) => match frames.get(key) {
            Some(frame) => frame.byte(place),
            None => 0,
        },
        None => 0,
    }
}

/// Bytes of a page from a place on.
#[inline(always)]
pub fn read(table: &[Level], frames: &Slab<Frame>, page: u32, place: usize, buf: &mut [u8])
    requires { place + length buf.old ≤ 4096 }
    ensures { buf.new ≡ take (length buf.old) (drop place (page_bytes table.now frames.now page)) }
{
    match key_of(table, page) {
        Some(key) => match frames.get(key) {
            Some(frame) => frame.read(place, buf),
            None => buf.fill(0),
        },
        None => buf.fill(0),
    }
}

// Writes bytes into a frame.
#[inline(always)]
fn write_frame(frames: &mut Slab<Frame>, key: usize, place: usize, bytes: &[u8])
    requires { place + length bytes.now ≤ 4096 }
    ensures at { (old : List ℕ) → get frames.old key ≡ Some old → get frames.new key ≡ Some (overwritten old place bytes.now) }
    ensures others { (other : ℕ) → other ≢ key → get frames.new other ≡ get frames.old other }
{
    match frames.get_mut(key) {
        Some(frame) => frame.write(place, bytes),
        None => {}
    }
}

/// Writes bytes of a page that has a frame.
#[tactic(auto, using(crate::specs::WrittenLaws::overwritten_length))]
#[inline(always)]
pub fn write(table: &[Level], frames: &mut Slab<Frame>, page: u32, place: usize, bytes: &[u8])
    requires sound { IsSound table.now frames.old }
    requires there { key_at table.now page ≢ None }
    requires fits { place + length bytes.now ≤ 4096 }
    ensures { PageChanged table.now frames.old table.now frames.new page (λ old. overwritten old place bytes.now) }
{
    match key_of(table, page) {
        Some(key) => write_frame(frames, key, place, bytes),
        None => {}
    }
}

// Makes the frame of a page that has none.
#[tactic(auto, using(crate::proofs::Zeros::zero_page_length))]
fn add(table: &mut Vec<Level>, frames: &mut Slab<Frame>, page: u32) -> Result<(), AllocError>
    requires sound { IsSound table.old.items frames.old }
    requires absent { key_at table.old.items page ≡ None }
    requires page { page < 2 ^ 20 }
    ensures same { SamePages table.old.items frames.old table.new.items frames.new }
    ensures made { OnOk result (key_at table.new.items page ≢ None) }
{
    let frame = Frame::new(*table.allocator())?;
    frames.reserve(1)?;
    let key = frames.vacant_key();
    set_key(table, page, key)?;
    frames.insert_reserved(frame);
    Ok(())
}

/// Makes the frame of a page, where it has none.
pub fn make(table: &mut Vec<Level>, frames: &mut Slab<Frame>, page: u32) -> Result<(), AllocError>
    requires sound { IsSound table.old.items frames.old }
    requires page { page < 2 ^ 20 }
    ensures same { SamePages table.old.items frames.old table.new.items frames.new }
    ensures made { OnOk result (key_at table.new.items page ≢ None) }
    ensures there { key_at table.old.items page ≢ None → IsOk result }
{
    if key_of(table, page).is_some() {
        return Ok(());
    }
    add(table, frames, page)
}

/// Makes a page zero. Its frame goes.
pub fn clear(table: &mut Vec<Level>, frames: &mut Slab<Frame>, page: u32)
    requires { IsSound table.old.items frames.old }
    ensures { PageChanged table.old.items frames.old table.new.items frames.new page (λ _. zero_page) }
{
    if let Some(key) = key_of(table, page) {
        clear_key(table, page);
        frames.try_remove(key);
    }
}
