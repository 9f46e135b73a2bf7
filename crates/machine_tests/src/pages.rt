//! Loads, stores and pages by hand.
ghost use Rattle.std.specs.Prelude.{◌+◌, ◌≤◌, ◌<◌, ◌^◌};

use paged_memory::{Access, Memory, Rights, StoreRefusal};
use std::alloc::{AllocError, Global};
use std::process::Abort;

// Pages 16 (from 65,536 on) and on, which may be written.
fn pages(alloc: Global, count: u32) -> Result<Memory, AllocError>
    requires { count ≤ 1000 }
{
    let mut memory = Memory::new(alloc);
    memory.set_pages(16, count, Rights::Write, false)?;
    Ok(memory)
}

// Pages with these rights, whose bytes become 0.
fn set(memory: &mut Memory, first: u32, count: u32, rights: Rights) -> Result<(), AllocError>
    requires low { 16 ≤ first }
    requires high { first + count ≤ 2 ^ 20 }
{
    memory.set_pages(first, count, rights, false)
}

fn lift(memory: &mut Memory, first: u32, count: u32) -> Result<(), AllocError>
    requires low { 16 ≤ first }
    requires high { first + count ≤ 2 ^ 20 }
{
    memory.lift_pages(first, count)
}

// Lets a page be read alone, and keeps its bytes.
fn seal(rt: &impl Abort, memory: &mut Memory, page: u32) -> Result<(), AllocError>
    requires low { 16 ≤ page }
    requires high { page < 1000 }
{
    assert!(rt; memory.rights(page).reaches(Rights::Read));
    memory.set_pages(page, 1, Rights::Read, true)
}

// A load of 1, 2, 4 or 8 bytes answers so.
fn loads(rt: &impl Abort, memory: &Memory, addr: u32, width: u8, wanted: Result<u64, Access>) {
    assert!(rt; width == 1 || width == 2 || width == 4 || width == 8);
    assert_eq!(rt; memory.load(addr, width), wanted, "{width} bytes at {addr}");
}

// A store of 1, 2, 4 or 8 bytes is made.
fn stores(rt: &impl Abort, memory: &mut Memory, addr: u32, width: u8, value: u64) {
    assert!(rt; width == 1 || width == 2 || width == 4 || width == 8);
    assert_eq!(rt;
        memory.store(addr, width, value),
        Ok(()),
        "{width} bytes at {addr}"
    );
}

// A store of 1, 2, 4 or 8 bytes is refused so.
fn refuses(rt: &impl Abort, memory: &mut Memory, addr: u32, width: u8, value: u64, wanted: Access) {
    assert!(rt; width == 1 || width == 2 || width == 4 || width == 8);
    let end = memory.store(addr, width, value);
    assert_eq!(rt;
        end,
        Err(StoreRefusal::Access(wanted)),
        "{width} bytes at {addr}"
    );
}

#[test]
fn a_refused_store_changes_no_byte(rt: HostRuntime) -> Result<(), AllocError> {
    let mut memory = pages(rt.alloc(), 1)?;
    stores(&rt, &mut memory, 69_624, 8, 0x0102_0304_0506_0708);
    refuses(&rt, &mut memory, 69_628, 8, u64::MAX, Access::Fault(69_632));
    refuses(&rt, &mut memory, 65_532, 8, u64::MAX, Access::Low);
    loads(&rt, &memory, 69_624, 8, Ok(0x0102_0304_0506_0708));
    loads(&rt, &memory, 65_536, 8, Ok(0));
    stores(&rt, &mut memory, 65_536, 8, 258);
    loads(&rt, &memory, 65_536, 2, Ok(258));
    loads(&rt, &memory, 65_537, 1, Ok(1));
    Ok(())
}

#[test]
fn the_least_forbidden_byte_decides(rt: HostRuntime) -> Result<(), AllocError> {
    let mut memory = Memory::new(rt.alloc());
    let none: [(u32, u8, Access); 7] = [
        (4_294_967_294, 4, Access::Low),
        (65_536, 1, Access::Fault(65_536)),
        (0, 1, Access::Low),
        (65_535, 2, Access::Low),
        (69_630, 4, Access::Fault(65_536)),
        (4_294_967_288, 8, Access::Fault(4_294_963_200)),
        (4_294_967_289, 8, Access::Low),
    ];
    for (addr, width, access) in none {
        loads(&rt, &memory, addr, width, Err(access));
    }
    set(&mut memory, 1_048_575, 1, Rights::Read)?;
    loads(&rt, &memory, 4_294_967_294, 2, Ok(0));
    loads(&rt, &memory, 4_294_967_295, 2, Err(Access::Low));
    let fault = Access::Fault(4_294_963_200);
    refuses(&rt, &mut memory, 4_294_967_294, 2, 1, fault);
    Ok(())
}

#[test]
fn a_store_goes_over_two_pages(rt: HostRuntime) -> Result<(), AllocError> {
    let mut memory = pages(rt.alloc(), 2)?;
    stores(&rt, &mut memory, 69_630, 4, 0x0403_0201);
    let rows: [(u32, u8, u64); 5] = [
        (69_630, 4, 0x0403_0201),
        (69_632, 2, 0x0403),
        (69_631, 2, 0x0302),
        (69_628, 4, 0x0201_0000),
        (69_634, 1, 0),
    ];
    for (addr, width, value) in rows {
        loads(&rt, &memory, addr, width, Ok(value));
    }
    Ok(())
}

// tests/failing-stores runs it with each allocation failing in turn.
#[test]
fn a_store_over_two_pages_is_whole_or_changes_nothing(rt: HostRuntime) -> Result<(), StoreRefusal> {
    let mut memory = pages(rt.alloc(), 2)?;
    memory.store(69_624, 4, 77)?;
    let end = memory.store(69_630, 4, 0x0403_0201);
    loads(&rt, &memory, 69_624, 4, Ok(77));
    match end {
        Ok(()) => loads(&rt, &memory, 69_630, 4, Ok(0x0403_0201)),
        Err(_) => loads(&rt, &memory, 69_630, 4, Ok(0)),
    }
    end
}

fn has_rights(rt: &impl Abort, memory: &Memory, page: u32, rights: Rights) {
    assert_eq!(rt; memory.rights(page), rights, "of page {page}");
}

#[test]
fn lifted_pages_keep_what_they_have(rt: HostRuntime) -> Result<(), AllocError> {
    let mut memory = pages(rt.alloc(), 1)?;
    stores(&rt, &mut memory, 69_624, 8, 77);
    lift(&mut memory, 16, 2)?;
    loads(&rt, &memory, 69_624, 8, Ok(77));
    loads(&rt, &memory, 69_632, 8, Ok(0));
    stores(&rt, &mut memory, 69_632, 1, 9);
    let rows = [
        (15, Rights::No),
        (16, Rights::Write),
        (17, Rights::Write),
        (18, Rights::No),
    ];
    for (page, rights) in rows {
        has_rights(&rt, &memory, page, rights);
    }
    set(&mut memory, 16, 1_048_560, Rights::Write)?;
    loads(&rt, &memory, 4_294_967_295, 1, Ok(0));
    loads(&rt, &memory, 69_624, 8, Ok(0));
    Ok(())
}

#[test]
fn bytes_are_kept_where_that_is_asked(rt: HostRuntime) -> Result<(), AllocError> {
    let mut memory = pages(rt.alloc(), 2)?;
    stores(&rt, &mut memory, 65_536, 4, 77);
    stores(&rt, &mut memory, 69_632, 4, 88);
    seal(&rt, &mut memory, 16)?;
    refuses(&rt, &mut memory, 65_536, 4, 99, Access::Fault(65_536));
    loads(&rt, &memory, 65_536, 4, Ok(77));
    set(&mut memory, 16, 1, Rights::Write)?;
    loads(&rt, &memory, 65_536, 4, Ok(0));
    loads(&rt, &memory, 69_632, 4, Ok(88));
    set(&mut memory, 17, 1, Rights::No)?;
    loads(&rt, &memory, 69_632, 4, Err(Access::Fault(69_632)));
    lift(&mut memory, 17, 1)?;
    loads(&rt, &memory, 69_632, 4, Ok(0));
    Ok(())
}

// Whether n bytes may be read; none of them may be written.
fn is_readable(rt: &impl Abort, memory: &Memory, addr: u64, n: u64, answer: bool) {
    let found = (memory.readable(addr, n), memory.writable(addr, n));
    assert_eq!(rt; found, (answer, n == 0), "{n} bytes at {addr}");
}

#[test]
fn ranges_end_at_the_last_address(rt: HostRuntime) -> Result<(), AllocError> {
    let mut memory = Memory::new(rt.alloc());
    set(&mut memory, 1_048_575, 1, Rights::Read)?;
    let rows: [(u64, u64, bool); 7] = [
        (4_294_963_200, 4096, true),
        (4_294_963_200, 4097, false),
        (4_294_963_199, 4097, false),
        (4_294_967_295, 1, true),
        (4_294_967_296, 1, false),
        (u64::MAX, 0, true),
        (u64::MAX, 1, false),
    ];
    for (addr, n, answer) in rows {
        is_readable(&rt, &memory, addr, n, answer);
    }
    Ok(())
}

fn count_up(bytes: &mut [u8]) {
    for (i, byte) in bytes.iter_mut().enumerate() {
        *byte = (i % 251) as u8;
    }
}

fn copy_in(
    rt: &impl Abort,
    memory: &mut Memory,
    addr: u64,
    bytes: &[u8],
) -> Result<(), AllocError> {
    assert!(rt; memory.writable(addr, bytes.len() as u64));
    memory.copy_in(addr, bytes)
}

fn copy_out(rt: &impl Abort, memory: &Memory, addr: u64, bytes: &mut [u8]) {
    assert!(rt; memory.readable(addr, bytes.len() as u64));
    memory.copy_out(addr, bytes);
}

// Fills bytes that may be read and not written.
fn fill(rt: &impl Abort, memory: &mut Memory, addr: u64, bytes: &[u8]) -> Result<(), AllocError> {
    assert!(rt; !memory.writable(addr, bytes.len() as u64));
    assert!(rt; memory.readable(addr, bytes.len() as u64));
    memory.fill(addr, bytes)
}

#[test]
fn bytes_are_copied_in_and_out(rt: HostRuntime) -> Result<(), AllocError> {
    let mut memory = pages(rt.alloc(), 3)?;
    // Byte i is i modulo 251.
    let mut bytes = [0; 5000];
    count_up(&mut bytes);
    copy_in(&rt, &mut memory, 69_000, &bytes)?;
    let mut out = [7u8; 5002];
    copy_out(&rt, &memory, 68_999, &mut out);
    assert_eq!(rt; &out[1..5001], bytes.as_slice());
    assert_eq!(rt; [out[0], out[5001]], [0, 0]);
    seal(&rt, &mut memory, 17)?;
    fill(&rt, &mut memory, 69_631, &[200, 201])?;
    loads(&rt, &memory, 69_630, 4, Ok(0x83c9_c880));
    Ok(())
}
