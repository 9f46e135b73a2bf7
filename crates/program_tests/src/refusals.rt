//! Bytes that are no standard program, and arguments that are too long.
use jam_codec::FileRefusal;
use program_init::{StartRefusal, read_standard, split, start};
use std::alloc::{AllocError, Global};
use std::process::Abort;

/// One page of heap; sbrk r2, r8 and trap.
const GROWS: [u8; 22] = [
    0, 0, 0, 0, 0, 0, 1, 0, 0, 0, 0, 7, 0, 0, 0, 0, 0, 3, 0x65, 0x82, 0, 5,
];

#[test]
fn more_than_16_mebibytes_of_arguments_are_too_long(rt: HostRuntime) -> Result<(), AllocError> {
    let alloc = rt.alloc();
    let args = vec![in alloc; 7u8; 16_777_217]?;
    match start(alloc, &GROWS, 0, 10, &args) {
        Err(StartRefusal::ArgsTooLong) => {}
        _ => panic!(rt; "one byte too many was taken"),
    }
    match start(alloc, &GROWS, 0, 10, &args[1..]) {
        Ok(machine) => {
            assert_eq!(rt; machine.registers[8], 16_777_216);
            assert_eq!(rt; machine.memory.load(4_294_901_759, 1), Ok(7));
        }
        Err(_) => panic!(rt; "the most arguments were refused"),
    }
    Ok(())
}

// Bytes are refused at this place, also where the arguments are too long; by the outer fields alone at the other.
fn is_refused_at(
    rt: &impl Abort,
    alloc: Global,
    bytes: &[u8],
    args: &[u8],
    place: u64,
    outer: Option<u64>,
) {
    match start(alloc, bytes, 0, 10, args) {
        Err(refusal) => assert_eq!(rt; refusal, StartRefusal::NotStandard { place }),
        Ok(_) => panic!(rt; "taken, and not refused at {place}"),
    }
    match read_standard(alloc, bytes) {
        Err(refusal) => assert_eq!(rt; refusal, FileRefusal::Malformed { place }),
        Ok(_) => panic!(rt; "read, and not refused at {place}"),
    }
    match split(bytes) {
        Err(refusal) => assert_eq!(rt; Some(refusal.place), outer),
        Ok(_) => assert_eq!(rt; None, outer, "split at {place}"),
    }
}

#[test]
fn a_bad_program_is_refused_where_its_field_begins(rt: HostRuntime) -> Result<(), AllocError> {
    let alloc = rt.alloc();
    let args = vec![in alloc; 0u8; 16_777_217]?;
    for length in 0..22usize {
        let place = match length {
            0..3 => 0,
            3..6 => 3,
            6..8 => 6,
            8..11 => 8,
            11..15 => 11,
            _ => 15,
        };
        is_refused_at(&rt, alloc, &GROWS[..length], &args, place, Some(place));
    }
    let mut longer = Vec::from_slice(alloc, &GROWS)?;
    longer.push(0)?;
    is_refused_at(&rt, alloc, &longer, &[], 22, Some(22));
    // The mask has a bit past the code.
    longer[21] = 13;
    is_refused_at(&rt, alloc, &longer, &[], 15, Some(22));
    is_refused_at(&rt, alloc, &longer[..22], &args, 15, None);
    Ok(())
}
