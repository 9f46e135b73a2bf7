//! Blobs byte by byte, as a reader would write them out.
use blob_decode::{Fetched, Program, ProgramRefusal};
use pvm_isa::Op;
use std::alloc::Global;
use std::process::Abort;

// No jumps of width 0, ten bytes of code, the mask: instructions begin at places 0, 3 and 8.
const BLOB: [u8; 15] = [
    0x00, 0x00, 0x0a, 0x33, 0x07, 0x2a, 0x33, 0x00, 0x00, 0x00, 0xff, 0x32, 0x00, 0x09, 0x01,
];

fn program_of(alloc: Global, blob: &[u8]) -> Result<Program, ProgramRefusal> {
    Program::deblob(alloc, blob)
}

// What is fetched is what the other calls say of the place, with these eight bytes, registers and immediate.
fn fetches(rt: &impl Abort, program: &Program, place: u64, read: Option<(u64, u8, u8, u64)>) {
    let op = program.op_at(place);
    let skip = program.skip(place);
    let next = place.wrapping_add(1 + u64::from(skip));
    let fetched = program.fetch(place);
    if let Some((bytes, a, b, x)) = read {
        let wanted = Fetched {
            op,
            pc: place,
            skip,
            next,
            a,
            b,
            x,
            bytes,
        };
        assert_eq!(rt; fetched, Some(wanted), "fetched at {place}");
    } else {
        assert_eq!(rt; fetched, None, "fetched at {place}");
    }
}

// Whether an instruction begins at the place, its opcode and its skip, and whether a block begins there.
fn stands(
    rt: &impl Abort,
    program: &Program,
    (place, begins, op, skip, starts): (u64, bool, Op, u8, bool),
) {
    let found = (
        program.mask_at(place),
        program.op_at(place),
        program.skip(place),
        program.is_start(place),
    );
    assert_eq!(rt; found, (begins, op, skip, starts), "at {place}");
}

#[test]
fn a_program_is_read(rt: HostRuntime) -> Result<(), ProgramRefusal> {
    let program = program_of(rt.alloc(), &BLOB)?;
    assert!(rt; program.code() == &BLOB[3..13]);
    assert_eq!(rt; program.jump_count(), 0);
    assert_eq!(rt; program.width(), 0);
    let places = [
        (0, true, Op::LoadImm, 2, true),
        (1, false, Op::Trap, 1, false),
        (3, true, Op::LoadImm, 4, false),
        (8, true, Op::JumpInd, 1, false),
        (9, false, Op::Trap, 0, false),
        (10, true, Op::Trap, 0, false),
        (u64::MAX, true, Op::Trap, 0, false),
    ];
    // The eight bytes, registers A and B, and the immediate X of up to four bytes, as two registers and an immediate.
    let read = [
        (0, Some((0xff00_0000_332a_0733, 7, 0, 42))),
        (1, Some((0x32ff_0000_0033_2a07, 10, 2, 0))),
        (2, Some((0x0032_ff00_0000_332a, 3, 3, 0))),
        (
            3,
            Some((0x0000_32ff_0000_0033, 0, 0, 0xffff_ffff_ffff_0000)),
        ),
        (8, Some((0x32, 0, 0, 0))),
        (9, Some((0, 0, 0, 0))),
        (10, None),
        (u64::MAX, None),
    ];
    for (place, read) in read {
        fetches(&rt, &program, place, read);
    }
    for row in places {
        stands(&rt, &program, row);
    }
    Ok(())
}

// Forty bytes of code, all traps; instructions begin at places 0, 24 + i for each bit i of the mask's part, and 39.
fn traps(mask: u8) -> [u8; 48] {
    let mut blob = [0; 48];
    blob[2] = 40;
    blob[43] = 1;
    blob[46] = mask;
    blob
}

fn skips(
    rt: &impl Abort,
    alloc: Global,
    blob: &[u8],
    skip: u8,
    starts: bool,
) -> Result<(), ProgramRefusal> {
    let program = program_of(alloc, blob)?;
    let found = (program.skip(0), program.skip(27));
    assert_eq!(rt; found, (skip, 12));
    let starts_late = program.is_start(25) || program.is_start(26);
    assert_eq!(rt; starts_late, starts);
    Ok(())
}

#[test]
fn an_instruction_has_at_most_24_bytes_of_arguments(rt: HostRuntime) -> Result<(), ProgramRefusal> {
    // Instructions begin at places 0 and 25, or 0 and 26.
    skips(&rt, rt.alloc(), &traps(0x02), 24, true)?;
    skips(&rt, rt.alloc(), &traps(0x04), 24, false)?;
    Ok(())
}

#[test]
fn a_jump_table_is_read(rt: HostRuntime) -> Result<(), ProgramRefusal> {
    let blob = [
        0x01, 0x01, 0x06, 0x05, 0x33, 0x01, 0x02, 0x32, 0x01, 0x00, 0x29,
    ];
    let program = program_of(rt.alloc(), &blob)?;
    assert_eq!(rt; program.jump_count(), 1);
    jumps(&rt, &program, 0, Some(5));
    jumps(&rt, &program, 1, None);
    assert!(rt; program.is_start(5), "after jump_ind");
    let most = [
        0xff, 0xff, 0xff, 0xff, 0xff, 0xff, 0xff, 0xff, 0xff, 0x00, 0x00,
    ];
    let program = program_of(rt.alloc(), &most)?;
    jumps(&rt, &program, u64::MAX - 1, Some(0));
    jumps(&rt, &program, u64::MAX, None);
    Ok(())
}

fn jumps(rt: &impl Abort, program: &Program, index: u64, wanted: Option<u64>) {
    assert_eq!(rt; program.jump_at(index), wanted, "jump {index}");
}

fn refuses(rt: &impl Abort, alloc: Global, bytes: &[u8], place: u64) {
    let refusal = program_of(alloc, bytes).err();
    assert_eq!(rt; refusal, Some(ProgramRefusal::NotProgram { place }));
}

// The blob with another last byte.
fn with_spare_bits(last: u8) -> [u8; 15] {
    let mut blob = BLOB;
    blob[14] = last;
    blob
}

// The blob and one byte more.
fn longer() -> [u8; 16] {
    let mut longer = [0; 16];
    longer[..15].copy_from_slice(&BLOB);
    longer
}

#[test]
fn other_bytes_are_refused_where_a_field_does_not_spell(rt: HostRuntime) {
    let spare = with_spare_bits(0x05);
    let longer = longer();
    let table: [(&[u8], u64); 12] = [
        (&[], 0),
        (&[0x80], 0),
        (&[0x00], 1),
        (&[0x00, 0x09, 0x00], 1),
        (&[0x00, 0x00], 2),
        (&[0x00, 0x00, 0x05, 0x01, 0x02], 3),
        (&spare, 13),
        (&BLOB[..14], 13),
        (&longer, 15),
        // Of two jumps of four bytes the second is not whole.
        (&[0x02, 0x04, 0x00, 0x01, 0x00, 0x00, 0x00, 0x02, 0x00], 7),
        (&[0x01, 0x04, 0x00, 0x01, 0x00, 0x00, 0x00, 0x02, 0x00], 7),
        (
            &[
                0xff, 0xff, 0xff, 0xff, 0xff, 0xff, 0xff, 0xff, 0xff, 0x08, 0x00,
            ],
            11,
        ),
    ];
    for (bytes, place) in table {
        refuses(&rt, rt.alloc(), bytes, place);
    }
}

fn is_spelled(rt: &impl Abort, alloc: Global, blob: &[u8]) -> Result<(), ProgramRefusal> {
    let program = program_of(alloc, blob)?;
    let spelled = program.spell()?;
    assert!(rt; spelled.as_slice() == blob);
    Ok(())
}

#[test]
fn a_program_is_spelled_by_its_blob(rt: HostRuntime) -> Result<(), ProgramRefusal> {
    let table: [&[u8]; 4] = [
        &[0x00, 0x08, 0x00],
        &BLOB,
        &[
            0x02, 0x02, 0x06, 0x05, 0x00, 0xff, 0xff, 0x33, 0x01, 0x02, 0x32, 0x01, 0x00, 0x29,
        ],
        &[
            0xff, 0xff, 0xff, 0xff, 0xff, 0xff, 0xff, 0xff, 0xff, 0x00, 0x00,
        ],
    ];
    for bytes in table {
        is_spelled(&rt, rt.alloc(), bytes)?;
    }
    Ok(())
}
