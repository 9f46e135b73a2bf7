// The memory as its callers see it.
ghost use Rattle.std.specs.Prelude.{◌≡◌, ◌+◌, ◌≤◌, ◌<◌, ◌^◌, ◌↔◌, [], Some, None, Err, IsTrue, IfOk, IsOk, OnOk, OnErr, length, if◌then◌else◌};
ghost use Rattle.std.specs.FinMap as fin;
ghost use Rattle.page_rights.specs.declared.rights.Rights.TheVariants as may;
ghost use Rattle.byte_numbers.specs.Numbers.{little_endian};
ghost use Rattle.paged_memory.specs.PageMap.{HasWholePages, HaveRights, HaveAlready, AreMarked, rights, byte, is_width, loaded, refusal, put_bytes, bytes_from, readable, writable, set_pages, lift_pages};

use crate::pages::Pages;
use crate::{Access, Rights, StoreRefusal, reads, writes};
use page_frames::Frames;
use page_rights::Runs;
use std::alloc::{AllocError, Global};
use std::marker::Model;

/// A machine's memory: 2^20 pages of 4,096 bytes, each with its rights. The 16 lowest pages never
/// have any.
#[derive(Drop)]
pub struct Memory {
    alloc: Global,
    pages: Pages,
}

impl Model for Memory {
    ghost use Rattle.paged_memory.specs.PageMap.{Memory};
    ghost use Rattle.paged_memory.specs.Codes.{memory_code};
    ghost use Rattle.paged_memory.specs.Seen.{seen, IsWhole};

    ghost Value = { Memory };

    ghost coded = { memory_code };

    ghost view = { λ m. seen m.pages };

    ghost invariant = { λ m. IsWhole m.pages };
}

fn zeros(alloc: Global, count: u64) -> Result<Vec<u8>, AllocError>
    ensures { IfOk result (λ bytes. length bytes.items ≡ count) }
{
    vec![in alloc; 0u8; count as usize]
}

impl Memory {
    /// No page has rights.
    pub fn new(alloc: Global) -> Memory
        ensures { result ≡ fin.empty }
    {
        Memory {
            alloc,
            pages: Pages {
                rights: Runs::new(alloc),
                bytes: Frames::new(alloc),
            },
        }
    }

    /// The rights of a page, by its number.
    #[inline]
    pub fn rights(&self, page: u32) -> Rights
        ensures value { result ≡ rights self.now page }
        ensures whole { HasWholePages self.now }
    {
        reads::rights_of(&self.pages, page)
    }

    /// The number of the `width` bytes at an address, the lowest first. Addresses are modulo 2^32.
    ///
    /// # Errors
    /// Low where some byte below 65,536 may not be read; else Fault with the start of the lowest
    /// page that holds a byte which may not be read.
    #[inline(always)]
    pub fn load(&self, addr: u32, width: u8) -> Result<u64, Access>
        requires { IsTrue (is_width width) }
        ensures value { result ≡ loaded self.now addr width }
        ensures bounded { IfOk result (λ value. value < 256 ^ width) }
    {
        reads::load(&self.pages, addr, width)
    }

    /// Stores the `width` low bytes of a number, the lowest first. Addresses are modulo 2^32.
    ///
    /// # Errors
    /// Access, by the rule of `load` for bytes that may not be written; NoMemory for want of memory, where some page was
    /// never written. No byte has changed then.
    #[inline(always)]
    pub fn store(&mut self, addr: u32, width: u8, value: u64) -> Result<(), StoreRefusal>
        requires { IsTrue (is_width width) }
        ensures ok { OnOk result (self.new ≡ put_bytes self.old addr (little_endian width value)) }
        ensures allowed { OnOk result (refusal self.old may.Write addr width ≡ None) }
        ensures refused { (access : Access) → (result ≡ Err (StoreRefusal.Access access)) ↔ (refusal self.old may.Write addr width ≡ Some access) }
        ensures err { OnErr result (self.new ≡ self.old) }
        ensures held { AreMarked (byte self.old) addr width → refusal self.old may.Write addr width ≡ None → IsOk result }
    {
        writes::store(&mut self.pages, addr, width, value)
    }

    /// Whether `n` bytes may be read: there are none, or they end at or below 2^32 and each may.
    pub fn readable(&self, addr: u64, n: u64) -> bool
        ensures { result ≡ readable self.now addr n }
    {
        reads::accessible(&self.pages, addr, n, Rights::Read)
    }

    /// Whether `n` bytes may be written: there are none, or they end at or below 2^32 and each may.
    pub fn writable(&self, addr: u64, n: u64) -> bool
        ensures { result ≡ writable self.now addr n }
    {
        reads::accessible(&self.pages, addr, n, Rights::Write)
    }

    /// Reads bytes that may be read.
    pub fn copy_out(&self, addr: u64, buf: &mut [u8])
        requires { IsTrue (readable self.now addr (length buf.old)) }
        ensures { buf.new ≡ bytes_from self.now addr (length buf.old) }
    {
        let pages = &self.pages;
        if !buf.is_empty() {
            reads::read(pages, addr as u32, buf);
        }
    }

    /// A new list of bytes that may be read; where some may not, an empty one.
    ///
    /// # Errors
    /// `AllocError` for want of memory.
    pub fn copied(&self, addr: u64, n: u64) -> Result<Vec<u8>, AllocError>
        ensures { IfOk result (λ bytes. bytes.items ≡ (if readable self.now addr n then bytes_from self.now addr n else [])) }
    {
        if !self.readable(addr, n) {
            return Ok(Vec::new(self.alloc));
        }
        let mut bytes = zeros(self.alloc, n)?;
        self.copy_out(addr, &mut bytes);
        Ok(bytes)
    }

    /// Writes bytes that may be written.
    ///
    /// # Errors
    /// `AllocError` for want of memory, where some page was never written; the memory is then as before. A page with a
    /// byte that is not zero was written.
    pub fn copy_in(&mut self, addr: u64, bytes: &[u8]) -> Result<(), AllocError>
        requires { IsTrue (writable self.old addr (length bytes.now)) }
        ensures ok { OnOk result (self.new ≡ put_bytes self.old addr bytes.now) }
        ensures err { OnErr result (self.new ≡ self.old) }
        ensures held { AreMarked (byte self.old) addr (length bytes.now) → IsOk result }
    {
        if bytes.is_empty() {
            return Ok(());
        }
        writes::put(&mut self.pages, addr as u32, bytes)
    }

    /// Writes bytes that may be read, to lay out pages that may not be written.
    ///
    /// # Errors
    /// `AllocError` for want of memory, as for `copy_in`; the memory is then as before.
    pub fn fill(&mut self, addr: u64, bytes: &[u8]) -> Result<(), AllocError>
        requires { IsTrue (readable self.old addr (length bytes.now)) }
        ensures ok { OnOk result (self.new ≡ put_bytes self.old addr bytes.now) }
        ensures err { OnErr result (self.new ≡ self.old) }
        ensures held { AreMarked (byte self.old) addr (length bytes.now) → IsOk result }
    {
        if bytes.is_empty() {
            return Ok(());
        }
        writes::put(&mut self.pages, addr as u32, bytes)
    }

    /// Gives each of `count` pages these rights. Their bytes become 0 unless they are kept; with
    /// No they become 0 in any case. Bytes are kept only of pages that have rights.
    ///
    /// # Errors
    /// `AllocError` for want of memory, where some page has other rights; the memory is then as before.
    pub fn set_pages(
        &mut self,
        first: u32,
        count: u32,
        rights: Rights,
        keep: bool,
    ) -> Result<(), AllocError>
        requires low { 16 ≤ first }
        requires high { first + count ≤ 2 ^ 20 }
        requires kept { IsTrue keep → HaveRights self.old first count }
        ensures ok { OnOk result (self.new ≡ set_pages self.old first count rights keep) }
        ensures err { OnErr result (self.new ≡ self.old) }
        ensures held { HaveAlready self.old first count rights → IsOk result }
    {
        writes::set_range(&mut self.pages, first, count, rights, keep)
    }

    /// Lets each of `count` pages that has no rights be written, and makes it 0. Others stay.
    ///
    /// # Errors
    /// `AllocError` for want of memory, where some page has no rights; the memory is then as before.
    pub fn lift_pages(&mut self, first: u32, count: u32) -> Result<(), AllocError>
        requires low { 16 ≤ first }
        requires high { first + count ≤ 2 ^ 20 }
        ensures ok { OnOk result (self.new ≡ lift_pages self.old first count) }
        ensures err { OnErr result (self.new ≡ self.old) }
        ensures held { HaveRights self.old first count → IsOk result }
    {
        writes::lift_range(&mut self.pages, first, count)
    }
}
