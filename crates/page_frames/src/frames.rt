// The bytes of all pages as callers see them.
ghost use Rattle.std.specs.Prelude.{◌≡◌, ◌+◌, ◌%◌, ◌≤◌, ◌^◌, true, false, take, drop, OnOk, OnErr, IsOk, length};
ghost use Rattle.page_frames.specs.PageBytes.{all_zero, byte_of, overwritten, zeroed, AreMarked};

use crate::frame::Frame;
use crate::table::Level;
use crate::{pages, ranges};
use slab::Slab;
use std::alloc::{AllocError, Global};
use std::marker::Model;

/// The bytes at the 2^32 addresses, kept in frames of the pages that were written.
#[derive(Drop)]
pub struct Frames {
    table: Vec<Level>,
    frames: Slab<Frame>,
}

impl Model for Frames {
    ghost use Rattle.std.specs.Prelude.{List, ℕ, ◌^◌};
    ghost use Rattle.page_frames.specs.FrameTable.{bytes_below, IsSound};

    ghost Value = { List ℕ };

    ghost view = { λ a. bytes_below (2 ^ 32) a.table.items a.frames };

    ghost invariant = { λ a. IsSound a.table.items a.frames };
}

impl Frames {
    /// All bytes are zero.
    pub fn new(alloc: Global) -> Frames
        ensures { result ≡ all_zero }
    {
        Frames {
            table: Vec::new(alloc),
            frames: Slab::new(alloc),
        }
    }

    /// The byte at an address.
    pub fn byte(&self, place: u32) -> u8
        ensures { result ≡ byte_of self.now place }
    {
        pages::byte(
            &self.table,
            &self.frames,
            place / 4096,
            (place % 4096) as usize,
        )
    }

    /// Reads bytes from a place on.
    pub fn read(&self, place: u32, buf: &mut [u8])
        requires { place + length buf.old ≤ 2 ^ 32 }
        ensures { buf.new ≡ take (length buf.old) (drop place self.now) }
    {
        ranges::read(&self.table, &self.frames, place, buf)
    }

    /// Reads bytes that stand in one page.
    #[inline(always)]
    pub fn read_in_page(&self, place: u32, buf: &mut [u8])
        requires { place % 4096 + length buf.old ≤ 4096 }
        ensures { buf.new ≡ take (length buf.old) (drop place self.now) }
    {
        ranges::read_in_page(&self.table, &self.frames, place, buf)
    }

    /// Writes bytes that stand in one page, where it has its frame; else nothing, and the answer is false.
    #[inline(always)]
    pub fn write_in_frame(&mut self, place: u32, bytes: &[u8]) -> bool
        requires { place % 4096 + length bytes.now ≤ 4096 }
        ensures done { result ≡ true → self.new ≡ overwritten self.old place bytes.now }
        ensures same { result ≡ false → self.new ≡ self.old }
    {
        ranges::write_in_frame(&self.table, &mut self.frames, place, bytes)
    }

    /// Writes bytes from a place on. Room for all of them is made before the first is written.
    ///
    /// # Errors
    /// `AllocError` for want of memory, where some page has no frame; the bytes are then as before.
    /// A page with a byte that is not zero has its frame.
    pub fn write(&mut self, place: u32, bytes: &[u8]) -> Result<(), AllocError>
        requires { place + length bytes.now ≤ 2 ^ 32 }
        ensures ok { OnOk result (self.new ≡ overwritten self.old place bytes.now) }
        ensures err { OnErr result (self.new ≡ self.old) }
        ensures held { AreMarked (byte_of self.old) place (length bytes.now) → IsOk result }
    {
        ranges::write(&mut self.table, &mut self.frames, place, bytes)
    }

    /// Makes the pages of a range zero. Their frames go.
    pub fn zero(&mut self, first: u32, count: u32)
        requires { first + count ≤ 2 ^ 20 }
        ensures { self.new ≡ zeroed self.old first count }
    {
        ranges::zero(&mut self.table, &mut self.frames, first, count)
    }
}
