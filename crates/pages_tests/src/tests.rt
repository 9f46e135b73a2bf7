//! Calls of `Runs` and `Frames`, each made of a plain list too, and both compared.
ghost use Rattle.std.specs.Prelude.{◌<◌, ◌+◌, ◌≤◌, ◌^◌};

use page_frames::Frames;
use page_rights::{Rights, Runs};
use std::alloc::AllocError;
use std::process::Abort;

const PAGES: u32 = 40;

// The next of the numbers that choose the calls.
fn next(number: u32) -> u32
    requires { number < 65536 }
    ensures { result < 65536 }
{
    (number * 25173 + 13849) % 65536
}

fn chosen(number: u32) -> Rights {
    match number {
        0 => Rights::No,
        1 => Rights::Read,
        _ => Rights::Write,
    }
}

fn plain_set(plain: &mut [Rights; 40], first: u32, count: u32, rights: Rights)
    requires { first + count ≤ 40 }
{
    for page in first..first + count {
        plain[page as usize] = rights;
    }
}

fn plain_lift(plain: &mut [Rights; 40], first: u32, count: u32)
    requires { first + count ≤ 40 }
{
    for page in first..first + count {
        if plain[page as usize] == Rights::No {
            plain[page as usize] = Rights::Write;
        }
    }
}

fn compare_rights(rt: &impl Abort, runs: &Runs, plain: &[Rights; 40], call: u32) {
    for page in 0..PAGES {
        assert_eq!(rt;
            runs.rights(page),
            plain[page as usize],
            "page {page} after call {call}"
        );
    }
}

// The lowest of the pages from the first on that does not reach the right.
fn plain_below(plain: &[Rights; 40], first: u32, count: u32, least: Rights) -> Option<u32>
    requires { first + count ≤ 40 }
{
    for page in first..first + count {
        if !plain[page as usize].reaches(least) {
            return Some(page);
        }
    }
    None
}

#[test]
fn runs_are_the_plain_rights(rt: HostRuntime) -> Result<(), AllocError> {
    let mut runs = Runs::new(rt.alloc());
    let mut plain = [Rights::No; 40];
    let mut number: u32 = 1;
    for call in 0..300u32 {
        number = next(number);
        let first = number % 32;
        let count = number / 32 % 9;
        let kind = number / 512 % 4;
        if kind == 3 {
            runs.lift(first, count)?;
            plain_lift(&mut plain, first, count);
        } else {
            runs.set(first, count, chosen(kind))?;
            plain_set(&mut plain, first, count, chosen(kind));
        }
        compare_rights(&rt, &runs, &plain, call);
        assert_eq!(rt;
            runs.first_below(first, count, Rights::Write),
            plain_below(&plain, first, count, Rights::Write)
        );
        assert_eq!(rt;
            runs.first_below(first, 8, Rights::Read),
            plain_below(&plain, first, 8, Rights::Read)
        );
    }
    Ok(())
}

const START: u32 = 65_536;

fn compare_bytes(rt: &impl Abort, frames: &Frames, plain: &[u8; 16384], from: usize, call: u32)
    requires { from ≤ 16000 }
{
    let mut part = [0u8; 384];
    frames.read(START + from as u32, &mut part);
    for place in 0..384usize {
        assert_eq!(rt;
            part[place],
            plain[from + place],
            "byte {place} from {from} after call {call}"
        );
    }
    assert_eq!(rt; frames.byte(START + from as u32), plain[from]);
}

#[test]
fn frames_are_the_plain_bytes(rt: HostRuntime) -> Result<(), AllocError> {
    let mut frames = Frames::new(rt.alloc());
    let mut plain = [0u8; 16384];
    let mut number: u32 = 1;
    for call in 0..300u32 {
        number = next(number);
        let from = (number / 4) as usize % 16_000;
        let byte = (number % 256) as u8;
        if number % 8 == 0 {
            let page = number / 8 % 4;
            frames.zero(16 + page, 1);
            plain[page as usize * 4096..page as usize * 4096 + 4096].fill(0);
        } else {
            let bytes = [byte; 300];
            frames.write(START + from as u32, &bytes)?;
            plain[from..from + 300].copy_from_slice(&bytes);
        }
        compare_bytes(&rt, &frames, &plain, from, call);
        compare_bytes(&rt, &frames, &plain, (number / 3) as usize % 16_000, call);
    }
    Ok(())
}
