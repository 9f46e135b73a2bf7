// The bytes of ranges over several pages.
ghost use Rattle.std.specs.Prelude.{◌≡◌, ◌+◌, ◌%◌, ◌<◌, ◌≤◌, ◌^◌, true, false, OnOk, OnErr, IsOk, length, take, drop};
ghost use Rattle.page_frames.specs.PageBytes.{byte_of, overwritten, zeroed, AreMarked};
ghost use Rattle.page_frames.specs.FrameTable.{bytes_below, IsSound, SamePages, HaveFrames, AreFramed};

use crate::frame::Frame;
use crate::pages;
use crate::table::{Level, key_of};
use slab::Slab;
use std::alloc::AllocError;

// Makes the frames of a range of pages that are missing.
fn make(
    table: &mut Vec<Level>,
    frames: &mut Slab<Frame>,
    first: u32,
    count: u32,
) -> Result<(), AllocError>
    requires sound { IsSound table.old.items frames.old }
    requires high { first + count ≤ 2 ^ 20 }
    ensures same { SamePages table.old.items frames.old table.new.items frames.new }
    ensures made { OnOk result (HaveFrames table.new.items first count) }
    ensures held { HaveFrames table.old.items first count → IsOk result }
{
    'pages: for page in first..first + count {
        pages::make(table, frames, page)?;
    }
    Ok(())
}

// Writes bytes of pages that have frames.
fn write_framed(table: &[Level], frames: &mut Slab<Frame>, place: u32, bytes: &[u8])
    requires sound { IsSound table.now frames.old }
    requires room { place + length bytes.now ≤ 2 ^ 32 }
    requires framed { AreFramed table.now place (length bytes.now) }
    ensures sound { IsSound table.now frames.new }
    ensures after { bytes_below (2 ^ 32) table.now frames.new ≡ overwritten (bytes_below (2 ^ 32) table.now frames.old) place bytes.now }
{
    let mut done = 0;
    'pieces: while done < bytes.len() {
        let address = u64::from(place) + done as u64;
        let at = (address % 4096) as usize;
        let count = (bytes.len() - done).min(4096 - at);
        pages::write(
            table,
            frames,
            (address / 4096) as u32,
            at,
            &bytes[done..done + count],
        );
        done += count;
    }
}

/// Writes bytes from a place on. All the frames that are missing are made first.
pub fn write(
    table: &mut Vec<Level>,
    frames: &mut Slab<Frame>,
    place: u32,
    bytes: &[u8],
) -> Result<(), AllocError>
    requires sound { IsSound table.old.items frames.old }
    requires room { place + length bytes.now ≤ 2 ^ 32 }
    ensures sound { IsSound table.new.items frames.new }
    ensures ok { OnOk result (bytes_below (2 ^ 32) table.new.items frames.new ≡ overwritten (bytes_below (2 ^ 32) table.old.items frames.old) place bytes.now) }
    ensures err { OnErr result (bytes_below (2 ^ 32) table.new.items frames.new ≡ bytes_below (2 ^ 32) table.old.items frames.old) }
    ensures held { AreMarked (byte_of (bytes_below (2 ^ 32) table.old.items frames.old)) place (length bytes.now) → IsOk result }
{
    if bytes.is_empty() {
        return Ok(());
    }
    let first = place / 4096;
    let last = ((u64::from(place) + (bytes.len() as u64 - 1)) / 4096) as u32;
    make(table, frames, first, last - first + 1)?;
    write_framed(table, frames, place, bytes);
    Ok(())
}

/// Writes bytes that stand in one page, where it has its frame; else nothing.
#[inline(always)]
pub fn write_in_frame(table: &[Level], frames: &mut Slab<Frame>, place: u32, bytes: &[u8]) -> bool
    requires sound { IsSound table.now frames.old }
    requires room { place % 4096 + length bytes.now ≤ 4096 }
    ensures sound { IsSound table.now frames.new }
    ensures done { result ≡ true → bytes_below (2 ^ 32) table.now frames.new ≡ overwritten (bytes_below (2 ^ 32) table.now frames.old) place bytes.now }
    ensures same { result ≡ false → frames.new ≡ frames.old }
{
    let page = place / 4096;
    if key_of(table, page).is_none() {
        return false;
    }
    pages::write(table, frames, page, (place % 4096) as usize, bytes);
    true
}

/// Reads bytes that stand in one page.
#[inline(always)]
pub fn read_in_page(table: &[Level], frames: &Slab<Frame>, place: u32, buf: &mut [u8])
    requires sound { IsSound table.now frames.now }
    requires room { place % 4096 + length buf.old ≤ 4096 }
    ensures { buf.new ≡ take (length buf.old) (drop place (bytes_below (2 ^ 32) table.now frames.now)) }
{
    pages::read(table, frames, place / 4096, (place % 4096) as usize, buf);
}

/// Reads bytes from a place on.
pub fn read(table: &[Level], frames: &Slab<Frame>, place: u32, buf: &mut [u8])
    requires sound { IsSound table.now frames.now }
    requires room { place + length buf.old ≤ 2 ^ 32 }
    ensures { buf.new ≡ take (length buf.old) (drop place (bytes_below (2 ^ 32) table.now frames.now)) }
{
    let mut done = 0;
    'pieces: while done < buf.len() {
        let address = u64::from(place) + done as u64;
        let at = (address % 4096) as usize;
        let count = (buf.len() - done).min(4096 - at);
        pages::read(
            table,
            frames,
            (address / 4096) as u32,
            at,
            &mut buf[done..done + count],
        );
        done += count;
    }
}

/// Makes the pages of a range zero. Their frames go.
pub fn zero(table: &mut Vec<Level>, frames: &mut Slab<Frame>, first: u32, count: u32)
    requires sound { IsSound table.old.items frames.old }
    requires high { first + count ≤ 2 ^ 20 }
    ensures sound { IsSound table.new.items frames.new }
    ensures after { bytes_below (2 ^ 32) table.new.items frames.new ≡ zeroed (bytes_below (2 ^ 32) table.old.items frames.old) first count }
{
    'pages: for page in first..first + count {
        pages::clear(table, frames, page);
    }
}
