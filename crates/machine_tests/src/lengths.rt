//! Programs, runs and outputs past their small sizes, and jumps of each width.
use crate::runs::{has_registers, is_at, machine, runs, with_heap};
use blob_decode::{Program, ProgramRefusal};
use pvm_step::{Exit, Heap, Machine, Progress};
use std::alloc::{AllocError, Global};
use std::process::Abort;
use std::test::Fail;

// A blob of 5,000 fallthroughs and a trap.
fn long_blob(alloc: Global) -> Result<Vec<u8>, AllocError> {
    let mut blob = vec![in alloc; 1u8; 4 + 5_001 + 626]?;
    blob[..4].copy_from_slice(&[0, 0, 0x93, 0x89]);
    blob[4 + 5_000] = 0;
    blob[4 + 5_001..].copy_from_slice(&[0xff; 626]);
    blob[4 + 5_001 + 625] = 1;
    Ok(blob)
}

fn long_machine(alloc: Global) -> Result<Machine, ProgramRefusal> {
    let blob = long_blob(alloc)?;
    let machine = machine(alloc, &blob, 6_000)?;
    Ok(machine)
}

#[test]
fn a_long_program_runs(rt: HostRuntime) -> Result<(), Fail> {
    let mut machine = long_machine(rt.alloc())?;
    runs(&rt, &mut machine, 4_000, Progress::Paused)?;
    is_at(&rt, &machine, 4_000, 2_000);
    runs(&rt, &mut machine, 4_000, Progress::Ended(Exit::Panic))?;
    is_at(&rt, &machine, 5_000, 999);
    Ok(())
}

fn long_spelling(alloc: Global) -> Result<(Vec<u8>, Vec<u8>), ProgramRefusal> {
    let blob = long_blob(alloc)?;
    let program = Program::deblob(alloc, &blob)?;
    let spelled = program.spell()?;
    Ok((blob, spelled))
}

#[test]
fn a_long_program_is_spelled(rt: HostRuntime) -> Result<(), Fail> {
    let (blob, spelled) = long_spelling(rt.alloc())?;
    assert_eq!(rt; spelled.as_slice(), blob.as_slice());
    Ok(())
}

// load_imm r0, 8192; sbrk r7, r0; store_imm_ind_u8 200 at r7 + 8191; add_imm_64 r8, r0, 0; load_imm r0, 2^64 - 65536;
// jump_ind r0.
const LONG_OUTPUT: [u8; 26] = [
    0, 0, 0x14, 0x33, 0, 0, 0x20, 0x65, 7, 0x46, 0x27, 0xff, 0x1f, 0xc8, 0x95, 8, 0x33, 0, 0, 0,
    0xff, 0x32, 0, 0x51, 0x28, 4,
];

fn long_output(alloc: Global) -> Result<(Progress, Vec<u8>), ProgramRefusal> {
    let heap = Heap::new(65_536, 1 << 20);
    let mut machine = with_heap(alloc, &LONG_OUTPUT, 100, heap)?;
    let progress = machine.run(100)?;
    let output = machine.output()?;
    Ok((progress, output))
}

#[test]
fn a_long_output_is_whole(rt: HostRuntime) -> Result<(), Fail> {
    let (progress, output) = long_output(rt.alloc())?;
    assert_eq!(rt; progress, Progress::Ended(Exit::Halt));
    assert_eq!(rt; output.len(), 8_192);
    for place in [0, 1, 64, 4_095, 4_096, 8_190] {
        assert_eq!(rt; output.get(place), Some(&0), "byte {place}");
    }
    assert_eq!(rt; output.get(8_191), Some(&200));
    Ok(())
}

fn ends(
    rt: &impl Abort,
    alloc: Global,
    (blob, exit, pc, left): (&[u8], Exit, u64, u64),
) -> Result<(), ProgramRefusal> {
    let mut machine = machine(alloc, blob, 10)?;
    runs(rt, &mut machine, 100, Progress::Ended(exit))?;
    is_at(rt, &machine, pc, left);
    Ok(())
}

// Jumps by offsets of 1 to 4 bytes, each to the next instruction, and a trap. Jumps through tables of each width to the
// trap after them; of width 0 to place 0.
#[test]
fn jumps_have_each_width(rt: HostRuntime) -> Result<(), Fail> {
    let rows: [(&[u8], Exit, u64, u64); 10] = [
        (
            &[
                0, 0, 15, 0x28, 2, 0x28, 3, 0, 0x28, 4, 0, 0, 0x28, 5, 0, 0, 0, 0, 0x25, 0x42,
            ],
            Exit::Panic,
            14,
            5,
        ),
        (&[1, 0, 4, 0x32, 0, 2, 0, 9], Exit::OutOfGas, 0, 0),
        (&[1, 1, 4, 3, 0x32, 0, 2, 0, 9], Exit::Panic, 3, 8),
        (&[1, 2, 4, 3, 0, 0x32, 0, 2, 0, 9], Exit::Panic, 3, 8),
        (&[1, 3, 4, 3, 0, 0, 0x32, 0, 2, 0, 9], Exit::Panic, 3, 8),
        (&[1, 4, 4, 3, 0, 0, 0, 0x32, 0, 2, 0, 9], Exit::Panic, 3, 8),
        (
            &[1, 5, 4, 3, 0, 0, 0, 0, 0x32, 0, 2, 0, 9],
            Exit::Panic,
            3,
            8,
        ),
        (
            &[1, 6, 4, 3, 0, 0, 0, 0, 0, 0x32, 0, 2, 0, 9],
            Exit::Panic,
            3,
            8,
        ),
        (
            &[1, 7, 4, 3, 0, 0, 0, 0, 0, 0, 0x32, 0, 2, 0, 9],
            Exit::Panic,
            3,
            8,
        ),
        (
            &[1, 8, 4, 3, 0, 0, 0, 0, 0, 0, 0, 0x32, 0, 2, 0, 9],
            Exit::Panic,
            3,
            8,
        ),
    ];
    for row in rows {
        ends(&rt, rt.alloc(), row)?;
    }
    Ok(())
}

fn jumps_and_loads(rt: &impl Abort, alloc: Global) -> Result<(), ProgramRefusal> {
    // load_imm_jump_ind r2, r0, 9, 2; trap.
    let mut machine = machine(alloc, &[1, 1, 6, 5, 0xb4, 2, 1, 9, 2, 0, 0x21], 10)?;
    runs(rt, &mut machine, 100, Progress::Ended(Exit::Panic))?;
    is_at(rt, &machine, 5, 8);
    has_registers(rt, &machine, &[(2, 9)]);
    Ok(())
}

#[test]
fn a_register_is_set_before_the_jump(rt: HostRuntime) -> Result<(), Fail> {
    jumps_and_loads(&rt, rt.alloc())?;
    Ok(())
}
