// What is read of the pages.
ghost use Rattle.std.specs.Prelude.{◌≡◌, ◌+◌, ◌%◌, ◌≤◌, ◌^◌, IsTrue, true, None, length, map};
ghost use Rattle.byte_numbers.specs.Numbers.{little_number};
ghost use Rattle.paged_memory.specs.PageMap.{is_width, rights, byte, addresses, lower, access_at, refusal, loaded, accessible, all_have, bytes_from};
ghost use Rattle.paged_memory.specs.Seen.{seen, IsWhole};

use crate::numbers::number_of;
use crate::pages::Pages;
use crate::{Access, Rights};

/// How many bytes a page has.
const PAGE: u32 = 4096;

/// How many pages there are.
const PAGES: u32 = 1 << 20;

#[inline]
pub fn rights_of(held: &Pages, page: u32) -> Rights
    requires { IsWhole held.now }
    ensures { result ≡ rights (seen held.now) page }
{
    if page < PAGES {
        held.rights.rights(page)
    } else {
        Rights::No
    }
}

fn lower(address: u32, other: Option<u32>) -> u32
    ensures { result ≡ lower address other }
{
    match other {
        Some(other) => address.min(other),
        None => address,
    }
}

fn access_at(address: u32) -> Access
    ensures { result ≡ access_at address }
{
    if address < 65536 {
        Access::Low
    } else {
        Access::Fault(address / PAGE * PAGE)
    }
}

// Why an access is refused, byte for byte.
#[cold]
fn refusal_anywhere(held: &Pages, addr: u32, width: u8, need: Rights) -> Option<Access>
    requires { IsWhole held.now }
    ensures { result ≡ refusal (seen held.now) need addr width }
{
    let mut lowest = None;
    'places: for k in (0..width).rev() {
        let address = addr.wrapping_add(u32::from(k));
        if !rights_of(held, address / PAGE).reaches(need) {
            lowest = Some(lower(address, lowest));
        }
    }
    match lowest {
        Some(address) => Some(access_at(address)),
        None => None,
    }
}

/// Whether an access of `width` bytes stands in one page, and the page has the right. It is not refused then.
#[inline(always)]
pub fn is_within(held: &Pages, addr: u32, width: u8, need: Rights) -> bool
    requires { IsWhole held.now }
    ensures page { result ≡ true → addr % 4096 + width ≤ 4096 }
    ensures allowed { result ≡ true → refusal (seen held.now) need addr width ≡ None }
{
    addr % PAGE + u32::from(width) <= PAGE && rights_of(held, addr / PAGE).reaches(need)
}

/// Why an access of `width` bytes is refused.
#[inline]
pub fn refusal(held: &Pages, addr: u32, width: u8, need: Rights) -> Option<Access>
    requires { IsWhole held.now }
    ensures { result ≡ refusal (seen held.now) need addr width }
{
    if is_within(held, addr, width, need) {
        return None;
    }
    refusal_anywhere(held, addr, width, need)
}

// The number of bytes that end at or below 2^32.
#[inline]
fn number_at(held: &Pages, addr: u32, width: u8) -> u64
    requires size { IsTrue (is_width width) }
    requires room { addr + width ≤ 2 ^ 32 }
    requires whole { IsWhole held.now }
    ensures { result ≡ little_number (map (byte (seen held.now)) (addresses addr width)) }
{
    let mut bytes = [0u8; 8];
    let part = &mut bytes[..usize::from(width)];
    held.bytes.read(addr, part);
    number_of(part, width)
}

// The number of bytes that stand in one page.
#[inline(always)]
fn number_in_page(held: &Pages, addr: u32, width: u8) -> u64
    requires size { IsTrue (is_width width) }
    requires page { addr % 4096 + width ≤ 4096 }
    requires whole { IsWhole held.now }
    ensures { result ≡ little_number (map (byte (seen held.now)) (addresses addr width)) }
{
    let mut bytes = [0u8; 8];
    let part = &mut bytes[..usize::from(width)];
    held.bytes.read_in_page(addr, part);
    number_of(part, width)
}

/// The number of the bytes at an address. The common load stands in one page.
#[inline(always)]
pub fn load(held: &Pages, addr: u32, width: u8) -> Result<u64, Access>
    requires size { IsTrue (is_width width) }
    requires whole { IsWhole held.now }
    ensures { result ≡ loaded (seen held.now) addr width }
{
    if is_within(held, addr, width, Rights::Read) {
        return Ok(number_in_page(held, addr, width));
    }
    load_anywhere(held, addr, width)
}

// The same of any bytes.
#[cold]
#[inline(never)]
fn load_anywhere(held: &Pages, addr: u32, width: u8) -> Result<u64, Access>
    requires size { IsTrue (is_width width) }
    requires whole { IsWhole held.now }
    ensures { result ≡ loaded (seen held.now) addr width }
{
    match refusal(held, addr, width, Rights::Read) {
        Some(access) => Err(access),
        None => Ok(number_at(held, addr, width)),
    }
}

/// Whether `n` bytes from an address on have the right.
pub fn accessible(held: &Pages, addr: u64, n: u64, need: Rights) -> bool
    requires { IsWhole held.now }
    ensures { result ≡ accessible (seen held.now) need addr n }
{
    if n == 0 {
        return true;
    }
    if addr > 1 << 32 || n > (1 << 32) - addr {
        return false;
    }
    all_have(held, addr, n, need)
}

fn all_have(held: &Pages, addr: u64, n: u64, need: Rights) -> bool
    requires end { addr + n ≤ 2 ^ 32 }
    requires whole { IsWhole held.now }
    ensures { result ≡ all_have (seen held.now) need addr n }
{
    let mut address = addr;
    let mut rest = n;
    'pages: while rest > 0 {
        if !rights_of(held, (address / 4096) as u32).reaches(need) {
            return false;
        }
        let count = rest.min(4096 - address % 4096);
        address += count;
        rest -= count;
    }
    true
}

/// Reads bytes from an address on; those of pages that are not there are 0.
pub fn read(held: &Pages, addr: u32, buf: &mut [u8])
    requires room { addr + length buf.old ≤ 2 ^ 32 }
    requires whole { IsWhole held.now }
    ensures { buf.new ≡ bytes_from (seen held.now) addr (length buf.old) }
{
    held.bytes.read(addr, buf);
}
