//! Stores under names of files, links and devices: what they leave.
use crate::calls::{
    gives_whole, holds, is_free, is_link, links, makes_folder, many_bytes, names_again,
    refuses_anew, refuses_to_store, removes_folder, stores, stores_anew, writes,
};
use crate::watched::{Counts, Trouble, Watched};
use jam_files::FileVault;
use std::alloc::AllocError;
use std::{fs, io};

// Whether a store in this trouble is made, and syncs the file, and the folder after it.
fn stores_and_syncs(rt: &HostRuntime, trouble: Trouble, bytes: &[u8]) -> bool {
    let counts = Counts::new();
    let files = Watched {
        rt,
        counts: &counts,
        trouble,
    };
    stores_anew(&files, rt.alloc(), "stored/target", bytes) && counts.syncs.get() == 2
}

// Whether a store in this trouble keeps all of the bytes, and nothing is left beside them.
fn are_stored(rt: &HostRuntime, trouble: Trouble, bytes: &[u8]) -> bool {
    stores_and_syncs(rt, trouble, bytes)
        && holds(rt, "stored/target", bytes)
        && is_free(rt, "stored/target.part")
        && fs::remove_file(rt, "stored/target").is_ok()
}

#[test]
fn many_bytes_are_stored(rt: HostRuntime) -> Result<(), AllocError> {
    let bytes = many_bytes(rt.alloc(), 20_000)?;
    assert!(rt; makes_folder(&rt, "stored"));
    assert!(rt; are_stored(&rt, Trouble::Nothing, &bytes));
    assert!(rt; are_stored(&rt, Trouble::Interrupts, &bytes));
    assert!(rt; are_stored(&rt, Trouble::ShortWrites(1_000), &bytes));
    assert!(rt; are_stored(&rt, Trouble::NoFolderSync, &bytes));
    assert!(rt; removes_folder(&rt, "stored"));
    Ok(())
}

fn refuses_in(rt: &HostRuntime, trouble: Trouble, name: &str, bytes: &[u8]) -> bool {
    let counts = Counts::new();
    let files = Watched {
        rt,
        counts: &counts,
        trouble,
    };
    refuses_anew(&files, rt.alloc(), name, bytes)
}

// Whether a store in this trouble fails, and the file and the link to it are as they were.
fn is_left(rt: &HostRuntime, trouble: Trouble, name: &str, bytes: &[u8]) -> bool {
    refuses_in(rt, trouble, name, bytes)
        && holds(rt, "left/folder/file", b"old")
        && is_free(rt, "left/folder/file.part")
        && is_free(rt, "left/link.part")
        && is_link(rt, "left/link")
}

// By each of its names.
fn is_left_by_each(rt: &HostRuntime, trouble: Trouble, bytes: &[u8]) -> bool {
    is_left(rt, trouble, "left/folder/file", bytes)
        && is_left(rt, trouble, "left/link", bytes)
        && is_left(rt, trouble, "left/folder/../link", bytes)
}

fn a_file_and_a_link(rt: &HostRuntime) -> bool {
    makes_folder(rt, "left")
        && makes_folder(rt, "left/folder")
        && writes(rt, "left/folder/file", b"old")
        && links(rt, "folder/file", "left/link")
}

#[test]
fn a_store_that_fails_leaves_the_files(rt: HostRuntime) -> Result<(), AllocError> {
    let bytes = many_bytes(rt.alloc(), 20_000)?;
    assert!(rt; a_file_and_a_link(&rt));
    assert!(rt; is_left_by_each(&rt, Trouble::Full(0), &bytes));
    assert!(rt; is_left_by_each(&rt, Trouble::Full(10_000), &bytes));
    assert!(rt; is_left_by_each(&rt, Trouble::NoPermissions, &bytes));
    assert!(rt; is_left_by_each(&rt, Trouble::NoSync, &bytes));
    assert!(rt; is_left_by_each(&rt, Trouble::NoRename, &bytes));
    assert!(rt; removes_folder(&rt, "left"));
    Ok(())
}

// The file has another name, under which the store leaves it as it was.
fn a_file_and_links(rt: &HostRuntime) -> bool {
    makes_folder(rt, "links")
        && makes_folder(rt, "links/folder")
        && writes(rt, "links/folder/file", b"old")
        && names_again(rt, "links/folder/file", "links/kept")
        && links(rt, "../second", "links/folder/first")
        && links(rt, "folder/file", "links/second")
        && links(rt, "folder/absent", "links/dangling")
        && links(rt, "round", "links/round")
}

fn are_links(rt: &HostRuntime) -> bool {
    is_link(rt, "links/folder/first")
        && is_link(rt, "links/second")
        && is_link(rt, "links/dangling")
}

fn are_followed(rt: &HostRuntime) -> bool {
    let mut vault = FileVault::new(rt, rt.alloc());
    stores(&mut vault, "links/folder/first", b"new")
        && stores(&mut vault, "links/dangling", b"made")
        && refuses_to_store(&mut vault, "links/round", b"lost", 1)
}

#[test]
fn a_store_through_a_link_replaces_its_file(rt: HostRuntime) {
    assert!(rt; a_file_and_links(&rt));
    assert!(rt; are_followed(&rt));
    assert!(rt; holds(&rt, "links/folder/file", b"new"));
    assert!(rt; holds(&rt, "links/kept", b"old"));
    assert!(rt; holds(&rt, "links/folder/absent", b"made"));
    assert!(rt; are_links(&rt));
    assert!(rt; removes_folder(&rt, "links"));
}

fn files_by_names(rt: &HostRuntime) -> bool {
    makes_folder(rt, "inputs")
        && makes_folder(rt, "inputs/folder")
        && writes(rt, "inputs/input", b"its bytes")
        && writes(rt, "inputs/other", b"other")
        && names_again(rt, "inputs/input", "inputs/second")
        && links(rt, "input", "inputs/link")
}

fn is_not_replaced(vault: &mut FileVault<'_, HostRuntime>) -> bool {
    refuses_to_store(vault, "inputs/input", b"lost", 1)
        && refuses_to_store(vault, "./inputs/input", b"lost", 2)
        && refuses_to_store(vault, "inputs/folder/../input", b"lost", 3)
        && refuses_to_store(vault, "inputs/second", b"lost", 4)
        && refuses_to_store(vault, "inputs/link", b"lost", 5)
}

// What was not read, and what keeps no bytes, is replaced.
fn reads_and_stores(rt: &HostRuntime) -> bool {
    let mut vault = FileVault::new(rt, rt.alloc());
    gives_whole(&mut vault, rt.alloc(), "inputs/input", b"its bytes")
        && gives_whole(&mut vault, rt.alloc(), "/dev/null", b"")
        && is_not_replaced(&mut vault)
        && stores(&mut vault, "inputs/other", b"new")
        && stores(&mut vault, "/dev/null", b"gone")
}

#[test]
fn what_was_read_is_not_replaced(rt: HostRuntime) {
    assert!(rt; files_by_names(&rt));
    assert!(rt; reads_and_stores(&rt));
    assert!(rt; holds(&rt, "inputs/input", b"its bytes"));
    assert!(rt; holds(&rt, "inputs/other", b"new"));
    assert!(rt; removes_folder(&rt, "inputs"));
}

fn take_name(rt: &HostRuntime, number: u32) -> io::Result<()> {
    let name = format!(in rt.alloc(); "taken/target.part{number}")?;
    fs::write(rt, name.as_str(), "another's")
}

// The names beside the target from the third to the fifteenth.
fn take_names(rt: &HostRuntime) -> io::Result<()> {
    for number in 3..16 {
        take_name(rt, number)?;
    }
    Ok(())
}

fn two_taken_names(rt: &HostRuntime) -> bool {
    makes_folder(rt, "taken")
        && writes(rt, "taken/target", b"old")
        && writes(rt, "taken/target.part", b"another's")
        && links(rt, "absent", "taken/target.part2")
}

// Whether the first two names are as they were, and the third is free again.
fn are_as_before(rt: &HostRuntime) -> bool {
    holds(rt, "taken/target.part", b"another's")
        && is_link(rt, "taken/target.part2")
        && is_free(rt, "taken/target.part3")
}

// The names up to the sixteenth are tried.
fn are_passed_over(rt: &HostRuntime) -> bool {
    let mut vault = FileVault::new(rt, rt.alloc());
    stores(&mut vault, "taken/target", b"new")
        && holds(rt, "taken/target", b"new")
        && are_as_before(rt)
        && take_names(rt).is_ok()
        && stores(&mut vault, "taken/target", b"newer")
        && is_free(rt, "taken/target.part16")
        && take_name(rt, 16).is_ok()
        && refuses_to_store(&mut vault, "taken/target", b"lost", 1)
}

#[test]
fn names_beside_that_are_taken_are_left(rt: HostRuntime) {
    assert!(rt; two_taken_names(&rt));
    assert!(rt; are_passed_over(&rt));
    assert!(rt; holds(&rt, "taken/target", b"newer"));
    assert!(rt; holds(&rt, "taken/target.part16", b"another's"));
    assert!(rt; removes_folder(&rt, "taken"));
}
