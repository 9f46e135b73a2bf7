// What is written to the pages.
ghost use Rattle.std.specs.Prelude.{◌≡◌, ◌+◌, ◌%◌, ◌≤◌, ◌<◌, ◌^◌, ◌↔◌, ◌&&◌, ℕ, true, false, Some, None, Err, IsTrue, IsOk, OnOk, OnErr, length};
ghost use Rattle.page_rights.specs.declared.rights.Rights.TheVariants as may;
ghost use Rattle.byte_numbers.specs.Numbers.{little_endian};
ghost use Rattle.paged_memory.specs.PageMap.{AreMarked, HaveAlready, is_width, has, byte, reaches, put_bytes, refusal, set_pages, lift_pages, HaveRights};
ghost use Rattle.paged_memory.specs.Seen.{seen, IsWhole};

use crate::pages::Pages;
use crate::reads::{is_within, refusal};
use crate::{Access, Rights, StoreRefusal};
use std::alloc::AllocError;

/// Writes bytes of pages that have rights, from an address on.
#[inline]
pub fn put(held: &mut Pages, from: u32, bytes: &[u8]) -> Result<(), AllocError>
    requires room { from + length bytes.now ≤ 2 ^ 32 }
    requires there { (address : ℕ) → from ≤ address → address < from + length bytes.now → has (seen held.old) may.Read address ≡ true }
    requires whole { IsWhole held.old }
    ensures ok { OnOk result (seen held.new ≡ put_bytes (seen held.old) from bytes.now) }
    ensures err { OnErr result (seen held.new ≡ seen held.old) }
    ensures held { AreMarked (byte (seen held.old)) from (length bytes.now) → IsOk result }
    ensures whole { IsWhole held.new }
{
    held.bytes.write(from, bytes)
}

// Stores the low bytes of a number in one page, where it has its frame; else nothing.
#[inline(always)]
fn put_in_frame(held: &mut Pages, addr: u32, width: u8, value: u64) -> bool
    requires size { IsTrue (is_width width) }
    requires page { addr % 4096 + width ≤ 4096 }
    requires allowed { refusal (seen held.old) may.Write addr width ≡ None }
    requires whole { IsWhole held.old }
    ensures done { result ≡ true → seen held.new ≡ put_bytes (seen held.old) addr (little_endian width value) }
    ensures same { result ≡ false → held.new ≡ held.old }
    ensures whole { IsWhole held.new }
{
    let bytes = value.to_le_bytes();
    held.bytes
        .write_in_frame(addr, &bytes[..usize::from(width)])
}

// The same where the page may be written; else nothing.
#[inline(always)]
fn put_at_once(held: &mut Pages, addr: u32, width: u8, value: u64) -> bool
    requires size { IsTrue (is_width width) }
    requires whole { IsWhole held.old }
    ensures done { result ≡ true → seen held.new ≡ put_bytes (seen held.old) addr (little_endian width value) }
    ensures allowed { result ≡ true → refusal (seen held.old) may.Write addr width ≡ None }
    ensures same { result ≡ false → held.new ≡ held.old }
    ensures whole { IsWhole held.new }
{
    if !is_within(held, addr, width, Rights::Write) {
        return false;
    }
    put_in_frame(held, addr, width, value)
}

/// Stores the low bytes of a number. The common store stands in one page that has its frame.
#[inline(always)]
pub fn store(held: &mut Pages, addr: u32, width: u8, value: u64) -> Result<(), StoreRefusal>
    requires size { IsTrue (is_width width) }
    requires whole { IsWhole held.old }
    ensures ok { OnOk result (seen held.new ≡ put_bytes (seen held.old) addr (little_endian width value)) }
    ensures allowed { OnOk result (refusal (seen held.old) may.Write addr width ≡ None) }
    ensures refused { (access : Access) → (result ≡ Err (StoreRefusal.Access access)) ↔ (refusal (seen held.old) may.Write addr width ≡ Some access) }
    ensures err { OnErr result (seen held.new ≡ seen held.old) }
    ensures held { AreMarked (byte (seen held.old)) addr width → refusal (seen held.old) may.Write addr width ≡ None → IsOk result }
    ensures whole { IsWhole held.new }
{
    if put_at_once(held, addr, width, value) {
        return Ok(());
    }
    store_anywhere(held, addr, width, value)
}

// The same of any bytes. Room for all of them is made before the first is written.
#[cold]
#[inline(never)]
fn store_anywhere(held: &mut Pages, addr: u32, width: u8, value: u64) -> Result<(), StoreRefusal>
    requires size { IsTrue (is_width width) }
    requires whole { IsWhole held.old }
    ensures ok { OnOk result (seen held.new ≡ put_bytes (seen held.old) addr (little_endian width value)) }
    ensures allowed { OnOk result (refusal (seen held.old) may.Write addr width ≡ None) }
    ensures refused { (access : Access) → (result ≡ Err (StoreRefusal.Access access)) ↔ (refusal (seen held.old) may.Write addr width ≡ Some access) }
    ensures err { OnErr result (seen held.new ≡ seen held.old) }
    ensures held { AreMarked (byte (seen held.old)) addr width → refusal (seen held.old) may.Write addr width ≡ None → IsOk result }
    ensures whole { IsWhole held.new }
{
    if let Some(access) = refusal(held, addr, width, Rights::Write) {
        return Err(StoreRefusal::Access(access));
    }
    let bytes = value.to_le_bytes();
    put(held, addr, &bytes[..usize::from(width)])?;
    Ok(())
}

// Whether the bytes of pages that get these rights stay.
fn keeps(rights: Rights, keep: bool) -> bool
    ensures { result ≡ (keep && reaches rights may.Read) }
{
    keep && rights.reaches(Rights::Read)
}

/// Gives a range of pages these rights, and then drops the bytes that are not kept.
pub fn set_range(
    held: &mut Pages,
    first: u32,
    count: u32,
    rights: Rights,
    keep: bool,
) -> Result<(), AllocError>
    requires low { 16 ≤ first }
    requires high { first + count ≤ 2 ^ 20 }
    requires kept { IsTrue keep → HaveRights (seen held.old) first count }
    requires whole { IsWhole held.old }
    ensures ok { OnOk result (seen held.new ≡ set_pages (seen held.old) first count rights keep) }
    ensures err { OnErr result (seen held.new ≡ seen held.old) }
    ensures held { HaveAlready (seen held.old) first count rights → IsOk result }
    ensures whole { IsWhole held.new }
{
    held.rights.set(first, count, rights)?;
    if keeps(rights, keep) {
        return Ok(());
    }
    held.bytes.zero(first, count);
    Ok(())
}

/// Lifts a range of pages.
pub fn lift_range(held: &mut Pages, first: u32, count: u32) -> Result<(), AllocError>
    requires low { 16 ≤ first }
    requires high { first + count ≤ 2 ^ 20 }
    requires whole { IsWhole held.old }
    ensures ok { OnOk result (seen held.new ≡ lift_pages (seen held.old) first count) }
    ensures err { OnErr result (seen held.new ≡ seen held.old) }
    ensures held { HaveRights (seen held.old) first count → IsOk result }
    ensures whole { IsWhole held.new }
{
    held.rights.lift(first, count)
}
