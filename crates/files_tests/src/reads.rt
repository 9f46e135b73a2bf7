//! Reads of files: what they give, and which file they are of.
use crate::calls::{
    gives, gives_whole_anew, links, makes_folder, many_bytes, refuses_to_read, removes_folder,
    writes,
};
use crate::watched::{Counts, Trouble, Watched};
use jam_files::FileVault;
use jam_outside::Vault;
use std::alloc::AllocError;
use std::fs;

fn is_read_whole(rt: &HostRuntime, counts: &Counts, trouble: Trouble, bytes: &[u8]) -> bool {
    let files = Watched {
        rt,
        counts,
        trouble,
    };
    gives_whole_anew(&files, rt.alloc(), "whole/long", bytes)
}

#[test]
fn a_long_file_is_read_whole(rt: HostRuntime) -> Result<(), AllocError> {
    let bytes = many_bytes(rt.alloc(), 200_000)?;
    assert!(rt; makes_folder(&rt, "whole"));
    assert!(rt; writes(&rt, "whole/long", &bytes));
    let counts = Counts::new();
    assert!(rt; is_read_whole(&rt, &counts, Trouble::Nothing, &bytes));
    assert!(rt; is_read_whole(&rt, &counts, Trouble::Interrupts, &bytes));
    // Once for each of the two.
    assert_eq!(rt; counts.opens.get(), 2);
    assert_eq!(rt; counts.seeks.get(), 0);
    assert!(rt; removes_folder(&rt, "whole"));
    Ok(())
}

// Whether the file of which the vault has read the first bytes is read on, and the one that has its
// name now where it is opened again.
fn is_read_on(vault: &mut FileVault<'_, HostRuntime>) -> bool {
    gives(vault, "replaced/name", 4, 4, b"byte")
        && gives(vault, "replaced/name", 8, 4, b"s")
        && gives(vault, "replaced/name", 9, 4, b"")
        // The file was closed at its end, so that the name is opened again.
        && gives(vault, "replaced/name", 4, 4, b"BYTE")
        // Another place, and another name, open anew too.
        && gives(vault, "replaced/name", 0, 4, b"NEW ")
        && gives(vault, "replaced/more", 4, 4, b"5678")
}

fn is_replaced(rt: &HostRuntime) -> bool {
    writes(rt, "replaced/other", b"NEW BYTES")
        && fs::rename(rt, "replaced/other", "replaced/name").is_ok()
}

#[test]
fn a_file_that_is_replaced_is_read_as_it_was(rt: HostRuntime) {
    assert!(rt; makes_folder(&rt, "replaced"));
    assert!(rt; writes(&rt, "replaced/name", b"old bytes"));
    assert!(rt; writes(&rt, "replaced/more", b"12345678"));
    let mut vault = FileVault::new(&rt, rt.alloc());
    assert!(rt; gives(&mut vault, "replaced/name", 0, 4, b"old "));
    assert!(rt; is_replaced(&rt));
    assert!(rt; is_read_on(&mut vault));
    assert!(rt; removes_folder(&rt, "replaced"));
}

// Whether a read of four bytes gives so many, and leaves so many opens and seeks.
fn counts_are<V: Vault>(
    vault: &mut V,
    counts: &Counts,
    (name, place): (&str, u64),
    given: usize,
    (opens, seeks): (u64, u64),
) -> bool {
    let mut room = [0; 4];
    match vault.read_at(name, place, &mut room) {
        Ok(count) => {
            count == given && counts.opens.get() == opens && counts.seeks.get() == seeks
        }
        Err(_) => false,
    }
}

// The name, the place, how many bytes are given, and the opens and seeks until then.
const READS: [(&str, u64, usize, u64, u64); 10] = [
    ("counted/digits", 0, 4, 1, 0),
    ("counted/digits", 4, 4, 1, 0),
    ("counted/digits", 8, 2, 1, 0),
    ("counted/digits", 10, 0, 1, 0),
    ("counted/digits", 10, 0, 2, 1),
    ("counted/digits", 4, 4, 3, 2),
    ("counted/digits", 4, 4, 4, 3),
    ("counted/digits", 8, 2, 4, 3),
    ("./counted/digits", 10, 0, 5, 4),
    ("counted/digits", 0, 4, 6, 4),
];

#[test]
fn a_file_is_opened_once_for_one_read(rt: HostRuntime) {
    assert!(rt; makes_folder(&rt, "counted"));
    assert!(rt; writes(&rt, "counted/digits", b"0123456789"));
    let counts = Counts::new();
    let files = Watched {
        rt: &rt,
        counts: &counts,
        trouble: Trouble::Nothing,
    };
    let mut vault = FileVault::new(&files, rt.alloc());
    for (name, place, given, opens, seeks) in READS {
        let is_so = counts_are(&mut vault, &counts, (name, place), given, (opens, seeks));
        assert!(rt; is_so, "{name} from {place}, {opens} opens");
    }
    // A failure closes the file.
    assert!(rt; refuses_to_read(&mut vault, "counted", 1));
    assert!(rt; counts_are(&mut vault, &counts, ("counted/digits", 4), 4, (8, 5)));
    assert!(rt; removes_folder(&rt, "counted"));
}

#[test]
fn a_link_to_a_file_is_read(rt: HostRuntime) {
    assert!(rt; makes_folder(&rt, "linked"));
    assert!(rt; writes(&rt, "linked/file", b"its bytes"));
    assert!(rt; links(&rt, "file", "linked/link"));
    assert!(rt; gives_whole_anew(&rt, rt.alloc(), "linked/link", b"its bytes"));
    assert!(rt; removes_folder(&rt, "linked"));
}
