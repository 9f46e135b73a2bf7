//! Small files, byte by byte.
use jam_codec::FileRefusal;
use jam_fields::{Blob, Spell, read_file, read_file_with_tail, write_file};
use std::alloc::{AllocError, Global};

// The bytes as they are written again after they were read.
fn again<T: Spell>(alloc: Global, bytes: &[u8]) -> Result<Vec<u8>, FileRefusal> {
    let value: T = read_file(alloc, bytes)?;
    let again = write_file(alloc, &value)?;
    Ok(again)
}

fn byte_of(alloc: Global, bytes: &[u8]) -> Result<u8, FileRefusal> {
    read_file(alloc, bytes)
}

fn number_of(alloc: Global, bytes: &[u8]) -> Result<u16, FileRefusal> {
    read_file(alloc, bytes)
}

fn word_of(alloc: Global, bytes: &[u8]) -> Result<u32, FileRefusal> {
    read_file(alloc, bytes)
}

fn long_word_of(alloc: Global, bytes: &[u8]) -> Result<u64, FileRefusal> {
    read_file(alloc, bytes)
}

fn hash_of(alloc: Global, bytes: &[u8]) -> Result<[u8; 32], FileRefusal> {
    read_file(alloc, bytes)
}

fn blob_of(alloc: Global, bytes: &[u8]) -> Result<Blob, FileRefusal> {
    read_file(alloc, bytes)
}

fn option_of(alloc: Global, bytes: &[u8]) -> Result<Option<u8>, FileRefusal> {
    read_file(alloc, bytes)
}

const COUNTED: [u8; 32] = [
    1, 2, 3, 4, 5, 6, 7, 8, 9, 10, 11, 12, 13, 14, 15, 16, 17, 18, 19, 20, 21, 22, 23, 24, 25, 26,
    27, 28, 29, 30, 31, 32,
];

#[test]
fn files_of_one_field(rt: HostRuntime) -> Result<(), FileRefusal> {
    let alloc = rt.alloc();
    assert_eq!(rt; byte_of(alloc, &[0x34]), Ok(0x34));
    assert_eq!(rt; number_of(alloc, &[0x34, 0x12]), Ok(0x1234));
    assert_eq!(rt; word_of(alloc, &[0x78, 0x56, 0x34, 0x12]), Ok(0x1234_5678));
    assert_eq!(rt;
        long_word_of(alloc, &[1, 2, 3, 4, 5, 6, 7, 8]),
        Ok(0x0807_0605_0403_0201)
    );
    let hash = hash_of(alloc, &COUNTED)?;
    assert!(rt; hash == COUNTED);
    let blob = blob_of(alloc, &[0x02, 0x07, 0x08])?;
    assert_eq!(rt; blob.as_slice(), [0x07, 0x08].as_slice());
    assert_eq!(rt; option_of(alloc, &[0x01, 0x05]), Ok(Some(5)));
    assert_eq!(rt; option_of(alloc, &[0x00]), Ok(None));
    Ok(())
}

fn is_again<T: Spell>(alloc: Global, bytes: &[u8]) -> bool {
    match again::<T>(alloc, bytes) {
        Ok(again) => again.as_slice() == bytes,
        Err(_) => false,
    }
}

#[test]
fn what_is_read_is_written_again(rt: HostRuntime) {
    let alloc = rt.alloc();
    assert!(rt; is_again::<u8>(alloc, &[0x34]));
    assert!(rt; is_again::<u16>(alloc, &[0x34, 0x12]));
    assert!(rt; is_again::<u32>(alloc, &[0x78, 0x56, 0x34, 0x12]));
    assert!(rt; is_again::<u64>(alloc, &[1, 2, 3, 4, 5, 6, 7, 8]));
    assert!(rt; is_again::<[u8; 32]>(alloc, &COUNTED));
    assert!(rt; is_again::<Blob>(alloc, &[0x02, 0x07, 0x08]));
    assert!(rt; is_again::<Option<u8>>(alloc, &[0x01, 0x05]));
    assert!(rt; is_again::<Option<u8>>(alloc, &[0x00]));
}

// The length 5,000 is 0x1388, whose high part is in the first byte; byte i of the body is i modulo 251.
fn long_blob(alloc: Global) -> Result<Vec<u8>, AllocError> {
    let mut bytes = Vec::from_slice(alloc, &[0x93, 0x88])?;
    for i in 0..5000u32 {
        bytes.push((i % 251) as u8)?;
    }
    Ok(bytes)
}

#[test]
fn a_long_blob_is_written_again(rt: HostRuntime) -> Result<(), AllocError> {
    let bytes = long_blob(rt.alloc())?;
    assert_eq!(rt; bytes.len(), 5002);
    assert!(rt; is_again::<Blob>(rt.alloc(), &bytes));
    Ok(())
}

#[test]
fn files_that_spell_nothing(rt: HostRuntime) {
    let table: [(&[u8], u64); 5] = [
        (&[], 0),
        (&[0x02], 0),
        (&[0x01], 1),
        (&[0x00, 0x00], 1),
        (&[0x01, 0x05, 0x05], 2),
    ];
    for (bytes, place) in table {
        let read = option_of(rt.alloc(), bytes);
        assert!(rt; read == Err(FileRefusal::Malformed { place }), "to {place}");
    }
}

fn parts_of(alloc: Global, bytes: &[u8]) -> Result<(u8, Option<u16>), FileRefusal> {
    read_file_with_tail(alloc, bytes)
}

#[test]
fn a_file_may_end_before_its_last_part(rt: HostRuntime) {
    let table: [(&[u8], Result<(u8, Option<u16>), FileRefusal>); 8] = [
        (&[5], Ok((5, None))),
        (&[5, 1, 2, 3], Ok((5, Some(0x302)))),
        (&[], Err(FileRefusal::Malformed { place: 0 })),
        (&[5, 0], Err(FileRefusal::Malformed { place: 1 })),
        (&[5, 2, 2, 3], Err(FileRefusal::Malformed { place: 1 })),
        (&[5, 1], Err(FileRefusal::Malformed { place: 2 })),
        (&[5, 1, 2], Err(FileRefusal::Malformed { place: 2 })),
        (&[5, 1, 2, 3, 4], Err(FileRefusal::Malformed { place: 4 })),
    ];
    for (bytes, wanted) in table {
        let parts = parts_of(rt.alloc(), bytes);
        assert!(rt; parts == wanted, "of {} bytes", bytes.len());
    }
}

fn text_of(alloc: Global, refusal: FileRefusal) -> Result<String, AllocError> {
    format!(in alloc; "{refusal}")
}

#[test]
fn refusals_as_text(rt: HostRuntime) -> Result<(), AllocError> {
    let place = text_of(rt.alloc(), FileRefusal::Malformed { place: 46 })?;
    assert!(rt; place.as_str() == "no field spells at byte 46");
    let memory = text_of(rt.alloc(), FileRefusal::NoMemory)?;
    assert!(rt; memory.as_str() == "out of memory");
    Ok(())
}
