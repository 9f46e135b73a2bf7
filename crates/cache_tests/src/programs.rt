//! What a cache answers.
use blake2b_core::digest;
use blob_decode::{Program, ProgramRefusal};
use program_cache::Cache;
use std::alloc::{AllocError, Global};
use std::process::Abort;
use std::rc::Rc;
use std::test::Fail;

// sbrk r2, r8; trap.
const GROWS: [u8; 7] = [0, 0, 3, 0x65, 0x82, 0, 5];

// load_imm r7, 42; load_imm r0, 2^64 - 65536; jump_ind r0.
const HALTS: [u8; 15] = [
    0, 0, 10, 0x33, 7, 42, 0x33, 0, 0, 0, 0xff, 0x32, 0, 0x09, 0x01,
];

// The same with a bit of the mask past the code.
const SPARE_BIT: [u8; 15] = [
    0, 0, 10, 0x33, 7, 42, 0x33, 0, 0, 0, 0xff, 0x32, 0, 0x09, 0x05,
];

fn get(cache: &mut Cache, bytes: &[u8]) -> Result<Rc<Program>, ProgramRefusal> {
    let hash = digest(bytes);
    cache.get(&hash, bytes)
}

// The program that is got is the one of these bytes, whose code is this long.
fn gives(
    rt: &impl Abort,
    cache: &mut Cache,
    bytes: &[u8],
    size: usize,
) -> Result<(), ProgramRefusal> {
    let program = get(cache, bytes)?;
    let spelled = program.spell()?;
    assert_eq!(rt; spelled.as_slice(), bytes);
    assert_eq!(rt; program.code().len(), size);
    Ok(())
}

fn refuses(rt: &impl Abort, cache: &mut Cache, bytes: &[u8], place: u64) {
    match get(cache, bytes) {
        Ok(_) => panic!(rt; "taken, and not refused at {place}"),
        Err(refusal) => assert_eq!(rt; refusal, ProgramRefusal::NotProgram { place }),
    }
}

#[test]
fn a_program_that_is_asked_for_twice_is_the_same(rt: HostRuntime) -> Result<(), Fail> {
    let mut cache = Cache::new(rt.alloc(), 64)?;
    for _time in 0..2 {
        gives(&rt, &mut cache, &GROWS, 3)?;
    }
    gives(&rt, &mut cache, &HALTS, 10)?;
    gives(&rt, &mut cache, &GROWS, 3)?;
    Ok(())
}

#[test]
fn two_programs_take_turns_in_a_cache_of_one(rt: HostRuntime) -> Result<(), Fail> {
    let mut cache = Cache::new(rt.alloc(), 1)?;
    for _time in 0..3 {
        gives(&rt, &mut cache, &GROWS, 3)?;
        gives(&rt, &mut cache, &HALTS, 10)?;
    }
    Ok(())
}

#[test]
fn what_is_no_program_is_refused_each_time(rt: HostRuntime) -> Result<(), Fail> {
    let mut cache = Cache::new(rt.alloc(), 1)?;
    for _time in 0..2 {
        refuses(&rt, &mut cache, &SPARE_BIT, 13);
        refuses(&rt, &mut cache, &HALTS[..14], 13);
        gives(&rt, &mut cache, &HALTS, 10)?;
        refuses(&rt, &mut cache, &[], 0);
    }
    Ok(())
}
