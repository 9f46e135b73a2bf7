//! Counted lists and rows, and where the cursor stands after them.
use jam_codec::{Cursor, FileRefusal};
use jam_fields::{Blob, read_list, read_natural, read_rows, write_items, write_list};
use std::alloc::{AllocError, Global};

// The numbers of a list within a limit, and the place after it.
fn numbers_of(alloc: Global, bytes: &[u8], limit: u64) -> (Result<Vec<u16>, FileRefusal>, u64) {
    let mut cursor = Cursor::new(bytes);
    let numbers = read_list(alloc, &mut cursor, limit);
    (numbers, cursor.place())
}

#[test]
fn lists_within_a_limit(rt: HostRuntime) {
    let bytes = [2, 1, 0, 2, 0, 9];
    let (numbers, place) = numbers_of(rt.alloc(), &bytes, 2);
    assert!(rt; matches!(&numbers, Ok(numbers) if numbers.as_slice() == [1, 2].as_slice()));
    assert_eq!(rt; place, 5);
}

// Each list is refused there, and the cursor stays at its front.
#[test]
fn lists_that_do_not_spell(rt: HostRuntime) {
    let table: [(&[u8], u64, u64); 4] = [
        (&[2, 1, 0, 2, 0], 1, 0),
        (&[2, 1, 0, 2], 9, 3),
        (&[], 9, 0),
        // A count of 2^64 - 1, and nothing behind it.
        (&[255, 255, 255, 255, 255, 255, 255, 255, 255], u64::MAX, 9),
    ];
    for (bytes, limit, place) in table {
        let (numbers, at) = numbers_of(rt.alloc(), bytes, limit);
        assert!(rt;
            numbers.err() == Some(FileRefusal::Malformed { place }),
            "to {place}"
        );
        assert_eq!(rt; at, 0);
    }
}

fn spelling_of(alloc: Global, numbers: &[u16]) -> Result<Vec<u8>, AllocError> {
    let mut out = Vec::new(alloc);
    write_items(numbers, &mut out)?;
    if numbers.len() <= 3 {
        write_list(numbers, 3, &mut out)?;
    }
    Ok(out)
}

#[test]
fn items_with_and_without_their_count(rt: HostRuntime) -> Result<(), AllocError> {
    let out = spelling_of(rt.alloc(), &[1, 0x302])?;
    assert!(rt; out.as_slice() == [1, 0, 2, 3, 2, 1, 0, 2, 3].as_slice());
    Ok(())
}

// A natural within a limit, and the place after it.
fn natural_within(bytes: &[u8], limit: u64) -> (Result<u64, FileRefusal>, u64) {
    let mut cursor = Cursor::new(bytes);
    let natural = read_natural(&mut cursor, limit);
    (natural, cursor.place())
}

#[test]
fn naturals_within_a_limit(rt: HostRuntime) {
    let malformed = Err(FileRefusal::Malformed { place: 0 });
    assert!(rt; natural_within(&[0x80, 0x80], 128) == (Ok(128), 2));
    assert!(rt; natural_within(&[0x80, 0x80], 127) == (malformed, 0));
    assert!(rt; natural_within(&[0x80], 127) == (malformed, 0));
}

// The entries of a map, and the place after them.
fn entries_of(alloc: Global, bytes: &[u8]) -> (Result<Vec<(u32, u8)>, FileRefusal>, u64) {
    let mut cursor = Cursor::new(bytes);
    let entries = read_rows(alloc, &mut cursor);
    (entries, cursor.place())
}

#[test]
fn maps_by_their_entries(rt: HostRuntime) {
    let bytes = [2, 1, 0, 0, 0, 9, 2, 0, 0, 0, 8, 7];
    let (entries, place) = entries_of(rt.alloc(), &bytes);
    assert!(rt;
        matches!(&entries, Ok(entries) if entries.as_slice() == [(1, 9), (2, 8)].as_slice())
    );
    assert_eq!(rt; place, 11);
}

#[test]
fn maps_that_do_not_spell(rt: HostRuntime) {
    let table: [(&[u8], u64); 5] = [
        // A key below the one before it, and the same key.
        (&[2, 2, 0, 0, 0, 9, 1, 0, 0, 0, 8], 6),
        (&[2, 2, 0, 0, 0, 9, 2, 0, 0, 0, 8], 6),
        (&[3, 1, 0, 0, 0, 9, 2, 0, 0, 0, 8], 11),
        (&[1, 1, 0, 0, 0], 5),
        (&[255, 255, 255, 255, 255, 255, 255, 255, 255], 9),
    ];
    for (bytes, place) in table {
        let (entries, at) = entries_of(rt.alloc(), bytes);
        assert!(rt;
            entries.err() == Some(FileRefusal::Malformed { place }),
            "to {place}"
        );
        assert_eq!(rt; at, 0);
    }
}

// Where blobs that ascend are refused, and the place after them.
fn blobs_of(alloc: Global, bytes: &[u8]) -> (Option<FileRefusal>, u64) {
    let mut cursor = Cursor::new(bytes);
    let blobs: Result<Vec<Blob>, FileRefusal> = read_rows(alloc, &mut cursor);
    (blobs.err(), cursor.place())
}

#[test]
fn blobs_ascend_byte_by_byte(rt: HostRuntime) {
    // The empty blob, one byte, the same and one more, and a greater byte.
    let blobs = blobs_of(rt.alloc(), &[4, 0, 1, 7, 2, 7, 0, 1, 8]);
    assert!(rt; blobs == (None, 9));
    let table: [(&[u8], u64); 3] = [
        (&[2, 1, 7, 1, 7], 4),
        (&[2, 2, 7, 0, 1, 7], 5),
        (&[2, 1, 7, 2, 8], 4),
    ];
    for (bytes, place) in table {
        let refused = blobs_of(rt.alloc(), bytes);
        assert!(rt;
            refused == (Some(FileRefusal::Malformed { place }), 0),
            "to {place}"
        );
    }
}
