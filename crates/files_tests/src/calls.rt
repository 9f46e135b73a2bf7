//! Calls of vaults and of the system, of which a test asks whether they go as it says.
use jam_files::FileVault;
use jam_outside::{OutsideError, Vault, read_whole};
use std::alloc::{AllocError, Global};
use std::fs;
use std::os::unix::fs::symlink;
use std::rt::Files;

fn count_up(bytes: &mut [u8]) {
    for (place, byte) in bytes.iter_mut().enumerate() {
        *byte = ((place % 251 + place / 251 % 251 + place / 63_001) % 251) as u8;
    }
}

/// Bytes of which no two pieces are the same: each byte is that of its place's number in base 251,
/// its digits added up.
pub fn many_bytes(alloc: Global, length: usize) -> Result<Vec<u8>, AllocError> {
    let mut bytes = vec![in alloc; 0u8; length]?;
    count_up(&mut bytes);
    Ok(bytes)
}

/// Whether a read that asks for so many bytes, at most 12, gives these.
pub fn gives<R: Files>(
    vault: &mut FileVault<'_, R>,
    name: &str,
    place: u64,
    asked: usize,
    given: &[u8],
) -> bool {
    let mut room = [0; 12];
    let part = &mut room[..asked.min(12)];
    match vault.read_at(name, place, part) {
        Ok(count) => count <= part.len() && &part[..count] == given,
        Err(_) => false,
    }
}

/// Whether a whole read gives these bytes.
pub fn gives_whole<R: Files>(
    vault: &mut FileVault<'_, R>,
    alloc: Global,
    name: &str,
    bytes: &[u8],
) -> bool {
    match read_whole(alloc, vault, name, 1_000_000) {
        Ok(read) => read.as_slice() == bytes,
        Err(_) => false,
    }
}

/// Whether a read of this name fails, and is counted.
pub fn refuses_to_read<R: Files>(vault: &mut FileVault<'_, R>, name: &str, faults: u64) -> bool {
    let mut room = [0; 4];
    let failed = matches!(vault.read_at(name, 0, &mut room), Err(OutsideError::Failed));
    failed && vault.read_faults == faults && vault.failed.as_str() == name
}

pub fn stores<R: Files>(vault: &mut FileVault<'_, R>, name: &str, bytes: &[u8]) -> bool {
    vault.store(name, bytes).is_ok()
}

/// Whether a store under this name fails, and is counted.
pub fn refuses_to_store<R: Files>(
    vault: &mut FileVault<'_, R>,
    name: &str,
    bytes: &[u8],
    faults: u64,
) -> bool {
    let failed = matches!(vault.store(name, bytes), Err(OutsideError::Failed));
    failed && vault.store_faults == faults && vault.store_failed.as_str() == name
}

/// Whether a whole read by a new vault gives these bytes.
pub fn gives_whole_anew<R: Files>(files: &R, alloc: Global, name: &str, bytes: &[u8]) -> bool {
    let mut vault = FileVault::new(files, alloc);
    gives_whole(&mut vault, alloc, name, bytes) && vault.read_faults == 0
}

/// Whether a new vault stores these bytes.
pub fn stores_anew<R: Files>(files: &R, alloc: Global, name: &str, bytes: &[u8]) -> bool {
    let mut vault = FileVault::new(files, alloc);
    stores(&mut vault, name, bytes)
}

/// Whether a store of a new vault fails, and is counted.
pub fn refuses_anew<R: Files>(files: &R, alloc: Global, name: &str, bytes: &[u8]) -> bool {
    let mut vault = FileVault::new(files, alloc);
    refuses_to_store(&mut vault, name, bytes, 1)
}

pub fn makes_folder(rt: &HostRuntime, name: &str) -> bool {
    fs::create_dir(rt, name).is_ok()
}

/// Tests share a folder, so that each has one in it, which it makes and removes.
pub fn removes_folder(rt: &HostRuntime, name: &str) -> bool {
    fs::remove_dir_all(rt, name).is_ok()
}

pub fn writes(rt: &HostRuntime, name: &str, bytes: &[u8]) -> bool {
    fs::write(rt, name, bytes).is_ok()
}

/// Whether a link to this path is made.
pub fn links(rt: &HostRuntime, path: &str, name: &str) -> bool {
    symlink(rt, path, name).is_ok()
}

/// Whether the file gets a second name.
pub fn names_again(rt: &HostRuntime, name: &str, second: &str) -> bool {
    fs::hard_link(rt, name, second).is_ok()
}

/// Whether the file is there and holds these bytes.
pub fn holds(rt: &HostRuntime, name: &str, bytes: &[u8]) -> bool {
    match fs::read(rt, name) {
        Ok(read) => read.as_slice() == bytes,
        Err(_) => false,
    }
}

/// Whether nothing has this name.
pub fn is_free(rt: &HostRuntime, name: &str) -> bool {
    matches!(fs::exists(rt, name), Ok(false))
}

/// Whether the name is a link's.
pub fn is_link(rt: &HostRuntime, name: &str) -> bool {
    match fs::symlink_metadata(rt, name) {
        Ok(metadata) => metadata.is_symlink(),
        Err(_) => false,
    }
}
