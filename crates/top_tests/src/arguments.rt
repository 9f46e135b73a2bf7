//! Words of bytes in hexadecimal.
use jam_cli::{Misfit, hexadecimal};
use std::alloc::Global;

// Whether a word spells these bytes; where none are wanted, whether it spells none within the bounds.
fn is_as_wanted(
    alloc: Global,
    word: &str,
    least: usize,
    most: usize,
    wanted: Option<&[u8]>,
) -> bool {
    match hexadecimal(alloc, word, least, most) {
        Ok(bytes) => match wanted {
            Some(wanted) => bytes.as_slice() == wanted,
            None => false,
        },
        Err(Misfit::OtherWords) => wanted.is_none(),
        Err(Misfit::NoMemory) => false,
    }
}

#[test]
fn digits_of_either_case_spell_bytes(rt: HostRuntime) {
    let alloc = rt.alloc();
    let rows: [(&str, usize, usize, Option<&[u8]>); 14] = [
        ("-", 0, 4, Some(&[])),
        ("-", 1, 4, None),
        ("", 0, 4, None),
        ("--", 0, 4, None),
        ("00", 0, 4, Some(&[0])),
        ("0aFf", 0, 4, Some(&[10, 255])),
        ("0AfF", 2, 2, Some(&[10, 255])),
        ("000102ff", 0, 4, Some(&[0, 1, 2, 255])),
        ("000102ff00", 0, 4, None),
        ("00", 2, 4, None),
        ("0", 0, 4, None),
        ("000", 0, 4, None),
        ("0x00", 0, 4, None),
        ("0g", 0, 4, None),
    ];
    for (word, least, most, wanted) in rows {
        let as_wanted = is_as_wanted(alloc, word, least, most, wanted);
        assert!(rt; as_wanted, "{word}");
    }
}
