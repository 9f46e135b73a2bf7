//! Spellings byte by byte, as a reader would write them out.
use jam_codec::{Cursor, Malformed, push_bits, push_blob, push_fixed, push_natural, spell_natural};
use std::alloc::{AllocError, Global};
use std::process::Abort;

fn reads_natural(rt: &impl Abort, cursor: &mut Cursor<'_>, wanted: Result<u64, Malformed>) {
    assert_eq!(rt; cursor.natural(), wanted);
}

fn reads_fixed(
    rt: &impl Abort,
    cursor: &mut Cursor<'_>,
    width: u8,
    wanted: Result<u64, Malformed>,
) {
    assert!(rt; width <= 8);
    assert_eq!(rt; cursor.fixed(width), wanted);
}

fn reads_bits(
    rt: &impl Abort,
    cursor: &mut Cursor<'_>,
    count: u64,
    wanted: Result<&[u8], Malformed>,
) {
    assert!(rt; cursor.bits(count) == wanted, "{count} bits");
}

fn reads_bytes(
    rt: &impl Abort,
    cursor: &mut Cursor<'_>,
    count: u64,
    wanted: Result<&[u8], Malformed>,
) {
    assert!(rt; cursor.bytes(count) == wanted, "{count} bytes");
}

fn reads_blob(rt: &impl Abort, cursor: &mut Cursor<'_>, wanted: Result<&[u8], Malformed>) {
    assert!(rt; cursor.blob() == wanted);
}

fn reads_tag(rt: &impl Abort, cursor: &mut Cursor<'_>, wanted: Result<bool, Malformed>) {
    assert_eq!(rt; cursor.option_tag(), wanted);
}

// How many bytes were read, and how many are left.
fn is_at(rt: &impl Abort, cursor: &Cursor<'_>, place: u64, remaining: u64) {
    let at = (cursor.place(), cursor.remaining(), cursor.at_end());
    assert_eq!(rt; at, (place, remaining, remaining == 0));
}

// The whole of the bytes is read as this number.
fn reads_back(rt: &impl Abort, number: u64, bytes: &[u8]) {
    let mut cursor = Cursor::new(bytes);
    reads_natural(rt, &mut cursor, Ok(number));
    is_at(rt, &cursor, bytes.len() as u64, 0);
}

fn is_no_natural(rt: &impl Abort, bytes: &[u8]) {
    let mut cursor = Cursor::new(bytes);
    reads_natural(rt, &mut cursor, Err(Malformed { place: 0 }));
    is_at(rt, &cursor, 0, bytes.len() as u64);
}

#[test]
fn naturals_are_read_back(rt: HostRuntime) {
    let table: [(u64, &[u8]); 7] = [
        (0, &[0x00]),
        (127, &[0x7f]),
        (128, &[0x80, 0x80]),
        (16383, &[0xbf, 0xff]),
        (16384, &[0xc0, 0x00, 0x40]),
        (
            0xff_ffff_ffff_ffff,
            &[0xfe, 0xff, 0xff, 0xff, 0xff, 0xff, 0xff, 0xff],
        ),
        (
            0x100_0000_0000_0000,
            &[0xff, 0x00, 0x00, 0x00, 0x00, 0x00, 0x00, 0x00, 0x01],
        ),
    ];
    for (number, bytes) in table {
        reads_back(&rt, number, bytes);
    }
}

#[test]
fn a_natural_has_no_second_spelling_and_no_missing_byte(rt: HostRuntime) {
    let table: [&[u8]; 5] = [
        &[],
        &[0x80],
        &[0x80, 0x7f],
        &[0xff, 0x00, 0x00, 0x00, 0x00, 0x00, 0x00, 0x01],
        &[0xff, 0xff, 0xff, 0xff, 0xff, 0xff, 0xff, 0xff, 0x00],
    ];
    for bytes in table {
        is_no_natural(&rt, bytes);
    }
}

#[test]
fn bits_fill_their_bytes_from_the_lowest(rt: HostRuntime) {
    let mut cursor = Cursor::new(&[0x09, 0xff, 0x01]);
    reads_bits(&rt, &mut cursor, 0, Ok(&[]));
    is_at(&rt, &cursor, 0, 3);
    // A spare bit.
    reads_bits(&rt, &mut cursor, 3, Err(Malformed { place: 0 }));
    reads_bits(&rt, &mut cursor, 4, Ok(&[0x09]));
    // More bits than bytes.
    reads_bits(&rt, &mut cursor, u64::MAX, Err(Malformed { place: 1 }));
    reads_bits(&rt, &mut cursor, 9, Ok(&[0xff, 0x01]));
    is_at(&rt, &cursor, 3, 0);
}

#[test]
fn a_refused_field_stays_unread(rt: HostRuntime) {
    let mut cursor = Cursor::new(&[0x02, 0x01, 0x00, 0x05, 0xc0, 0x00]);
    reads_fixed(&rt, &mut cursor, 3, Ok(258));
    reads_fixed(&rt, &mut cursor, 0, Ok(0));
    reads_fixed(&rt, &mut cursor, 4, Err(Malformed { place: 3 }));
    reads_bytes(&rt, &mut cursor, 4, Err(Malformed { place: 3 }));
    reads_bytes(&rt, &mut cursor, 1, Ok(&[0x05]));
    reads_natural(&rt, &mut cursor, Err(Malformed { place: 4 }));
    is_at(&rt, &cursor, 4, 2);
}

fn natural_after_0xaa(alloc: Global, number: u64) -> Result<Vec<u8>, AllocError> {
    let mut out = Vec::new(alloc);
    out.push(0xaa)?;
    push_natural(&mut out, number)?;
    Ok(out)
}

fn is_added(rt: &impl Abort, alloc: Global, number: u64, bytes: &[u8]) -> Result<(), AllocError> {
    let out = natural_after_0xaa(alloc, number)?;
    assert!(rt; out.starts_with(&[0xaa]));
    assert!(rt; out.ends_with(bytes), "of {number}");
    assert_eq!(rt; out.len() as u64, bytes.len() as u64 + 1, "of {number}");
    Ok(())
}

#[test]
fn naturals_are_added_as_they_are_read(rt: HostRuntime) -> Result<(), AllocError> {
    let table: [(u64, &[u8]); 7] = [
        (0, &[0x00]),
        (127, &[0x7f]),
        (128, &[0x80, 0x80]),
        (16383, &[0xbf, 0xff]),
        (16384, &[0xc0, 0x00, 0x40]),
        (
            0xff_ffff_ffff_ffff,
            &[0xfe, 0xff, 0xff, 0xff, 0xff, 0xff, 0xff, 0xff],
        ),
        (
            0x100_0000_0000_0000,
            &[0xff, 0x00, 0x00, 0x00, 0x00, 0x00, 0x00, 0x00, 0x01],
        ),
    ];
    for (number, bytes) in table {
        is_added(&rt, rt.alloc(), number, bytes)?;
    }
    Ok(())
}

fn six_fields(alloc: Global) -> Result<Vec<u8>, AllocError> {
    let mut out = Vec::new(alloc);
    push_bits(&mut out, &[true, false, false, true])?;
    push_blob(&mut out, &[0x6b])?;
    push_fixed(&mut out, 3, 258)?;
    push_fixed(&mut out, 0, 0)?;
    push_bits(&mut out, &[])?;
    push_bits(&mut out, &[true; 9])?;
    Ok(out)
}

#[test]
fn fields_are_added_one_after_another(rt: HostRuntime) -> Result<(), AllocError> {
    let out = six_fields(rt.alloc())?;
    assert!(rt; out.as_slice() == [0x09, 0x01, 0x6b, 0x02, 0x01, 0x00, 0xff, 0x01].as_slice());
    Ok(())
}

#[test]
fn blobs_and_tags_are_read_or_stay_unread(rt: HostRuntime) {
    let mut cursor = Cursor::new(&[0x01, 0x6b, 0x00, 0x01, 0x02, 0x6b]);
    reads_blob(&rt, &mut cursor, Ok(&[0x6b]));
    reads_tag(&rt, &mut cursor, Ok(false));
    reads_tag(&rt, &mut cursor, Ok(true));
    reads_tag(&rt, &mut cursor, Err(Malformed { place: 4 }));
    // A byte is missing.
    reads_blob(&rt, &mut cursor, Err(Malformed { place: 5 }));
    is_at(&rt, &cursor, 4, 2);
    // No length.
    reads_blob(&rt, &mut Cursor::new(&[0xff]), Err(Malformed { place: 0 }));
    reads_tag(&rt, &mut Cursor::new(&[]), Err(Malformed { place: 0 }));
}
