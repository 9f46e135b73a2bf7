// The bytes of one page.
ghost use Rattle.std.specs.Prelude.{◌≡◌, ℕ, ◌+◌, ◌<◌, ◌≤◌, List, IfOk, length, take, drop, slice_index};
ghost use Rattle.page_frames.specs.PageBytes.{overwritten};
ghost use Rattle.page_frames.specs.FrameTable.{zero_page};

use std::alloc::{AllocError, Global};
use std::marker::Model;

/// The bytes of one page.
#[derive(Drop)]
pub struct Frame {
    bytes: Box<[u8; 4096]>,
}

impl Model for Frame {
    ghost Value = { List ℕ };

    ghost view = { λ f. f.bytes.value };
}

impl Frame {
    /// All zero.
    #[tactic(auto, unfolding(crate::specs::FrameTable::zero_page))]
    pub fn new(alloc: Global) -> Result<Frame, AllocError>
        ensures { IfOk result (λ frame. frame ≡ zero_page) }
    {
        Ok(Frame {
            bytes: Box::new(alloc, [0u8; 4096])?,
        })
    }

    #[inline]
    pub fn byte(&self, place: usize) -> u8
        requires { place < 4096 }
        ensures { result ≡ slice_index self.now place }
    {
        self.bytes[place]
    }

    /// Reads bytes from a place on.
    #[inline(always)]
    pub fn read(&self, place: usize, buf: &mut [u8])
        requires { place + length buf.old ≤ 4096 }
        ensures { buf.new ≡ take (length buf.old) (drop place self.now) }
    {
        let end = place + buf.len();
        buf.copy_from_slice(&self.bytes[place..end]);
    }

    /// Writes bytes from a place on.
    #[inline(always)]
    pub fn write(&mut self, place: usize, bytes: &[u8])
        requires { place + length bytes.now ≤ 4096 }
        ensures { self.new ≡ overwritten self.old place bytes.now }
    {
        let end = place + bytes.len();
        self.bytes[place..end].copy_from_slice(bytes);
    }
}
