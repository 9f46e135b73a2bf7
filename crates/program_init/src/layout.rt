// The first memory of a standard program.
ghost use Rattle.std.specs.Prelude.{◌≡◌, ◌≢◌, ◌<◌, ◌≤◌, ◌+◌, ◌*◌, ◌%◌, ◌^◌, length, IfOk, OnOk};
ghost use Rattle.page_rights.specs.declared.rights.Rights.TheVariants as may;
ghost use Rattle.program_init.specs.Read.{plain_parts};
ghost use Rattle.program_init.specs.Refusal.{argument_limit};
ghost use Rattle.program_init.specs.Areas.{in_pages, in_zones, area, with_area, writable_start, first_memory};

use crate::parts::Parts;
use paged_memory::{Memory, Rights, accessible_laws, page_laws};
use std::alloc::{AllocError, Global};

const PAGE: u64 = 4096;

pub const ZONE: u64 = 65536;

/// Where the stack ends.
pub const STACK_END: u64 = (1 << 32) - 2 * ZONE - (1 << 24);

/// Where the arguments begin.
pub const ARGUMENTS_START: u64 = (1 << 32) - ZONE - (1 << 24);

// How many bytes the pages have that hold n bytes.
fn in_pages(n: u64) -> u64
    requires { n ≤ 2 ^ 24 }
    ensures exact { result ≡ in_pages n }
    ensures pages { result % 4096 ≡ 0 }
    ensures room { n ≤ result }
    ensures most { result ≤ 2 ^ 24 }
{
    n.div_ceil(PAGE) * PAGE
}

// How many bytes the zones have that hold n bytes.
pub fn in_zones(n: u64) -> u64
    requires { n ≤ 2 ^ 24 }
    ensures exact { result ≡ in_zones n }
    ensures pages { result % 4096 ≡ 0 }
    ensures most { result ≤ 2 ^ 24 }
{
    n.div_ceil(ZONE) * ZONE
}

// Lays an area out, with bytes at its front.
fn lay_out(
    memory: &mut Memory,
    start: u64,
    size: u64,
    rights: Rights,
    bytes: &[u8],
) -> Result<(), AllocError>
    requires low { 65536 ≤ start }
    requires high { start + size ≤ 2 ^ 32 }
    requires from_page { start % 4096 ≡ 0 }
    requires pages { size % 4096 ≡ 0 }
    requires room { length bytes.now ≤ size }
    requires some { rights ≢ may.No }
    ensures { OnOk result (memory.new ≡ with_area memory.old (area start size rights bytes.now)) }
{
    memory.set_pages((start / PAGE) as u32, (size / PAGE) as u32, rights, false)?;
    // By these laws the area's front may be read now.
    page_laws();
    accessible_laws();
    memory.fill(start, bytes)
}

// Where the area that may be written begins.
pub fn writable_start(parts: &Parts<'_>) -> u64
    ensures exact { result ≡ writable_start (length parts.now.ro.now) }
    ensures pages { result % 4096 ≡ 0 }
    ensures low { 65536 ≤ result }
    ensures most { result ≤ 2 ^ 17 + 2 ^ 24 }
{
    2 * ZONE + in_zones(parts.ro.len() as u64)
}

// How many bytes that area has.
pub fn writable_size(parts: &Parts<'_>) -> u64
    ensures exact { result ≡ in_pages (length parts.now.rw.now) + 4096 * parts.now.heap_pages }
    ensures pages { result % 4096 ≡ 0 }
    ensures room { length parts.now.rw.now ≤ result }
    ensures most { result ≤ 2 ^ 24 + 2 ^ 28 }
{
    in_pages(parts.rw.len() as u64) + PAGE * u64::from(parts.heap_pages)
}

/// The memory with the four areas of a standard program and its arguments.
pub fn first_memory(alloc: Global, parts: &Parts<'_>, args: &[u8]) -> Result<Memory, AllocError>
    requires { length args.now ≤ argument_limit }
    ensures { IfOk result (λ memory. memory ≡ first_memory (plain_parts parts.now) args.now) }
{
    let mut memory = Memory::new(alloc);
    let read_only = in_pages(parts.ro.len() as u64);
    lay_out(&mut memory, ZONE, read_only, Rights::Read, parts.ro)?;
    lay_out(
        &mut memory,
        writable_start(parts),
        writable_size(parts),
        Rights::Write,
        parts.rw,
    )?;
    let stack = in_pages(u64::from(parts.stack));
    lay_out(&mut memory, STACK_END - stack, stack, Rights::Write, &[])?;
    let arguments = in_pages(args.len() as u64);
    lay_out(&mut memory, ARGUMENTS_START, arguments, Rights::Read, args)?;
    Ok(memory)
}
