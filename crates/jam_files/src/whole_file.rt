// Writing a file as a whole.
use crate::file_id::FileId;
use crate::transfer::put_all;
use std::alloc::Global;
use std::fs::{File, Metadata, OpenFile, OpenOptions};
use std::io::{ErrorKind, Write};
use std::path::{Path, PathBuf};
use std::rt::Files;
use std::{fs, io};

/// How many links are followed, one after another.
const MOST_LINKS: u32 = 40;

/// How many names are tried for a new file.
const MOST_PARTS: u32 = 16;

/// Gives a file these bytes, and no others. They are written to a new file beside it, which takes
/// its place once they are all there, so that a failure leaves the file that was there. Of a link
/// it is the file that it leads to. What is no regular file, as a device or a pipe, is written to
/// as it is. None of the files that `inputs` tells is changed.
///
/// # Errors
///
/// That of the first call of the system that fails; `InvalidInput` where the file is an input.
pub fn write_whole<R: Files>(
    rt: &R,
    alloc: Global,
    inputs: &[FileId],
    name: &str,
    bytes: &[u8],
) -> io::Result<()> {
    match found(fs::metadata(rt, name))? {
        Some(old) if inputs.contains(&FileId::of(&old)) => {
            Err(io::Error::from(ErrorKind::InvalidInput))
        }
        Some(old) if !old.is_file() => write_in_place(rt, name, bytes),
        old => {
            let path = end_of_links(rt, alloc, name)?;
            // A link of the system may lead to a file by a name that is no longer the file's.
            let there = found(fs::symlink_metadata(rt, path.as_path()))?;
            if there.as_ref().map(FileId::of) != old.as_ref().map(FileId::of) {
                return Err(io::Error::from(ErrorKind::NotFound));
            }
            replace(rt, alloc, path.as_path(), old, bytes)
        }
    }
}

// A name that is not there is no failure.
fn found(metadata: io::Result<Metadata>) -> io::Result<Option<Metadata>> {
    match metadata {
        Ok(metadata) => Ok(Some(metadata)),
        Err(e) if e.kind() == ErrorKind::NotFound => Ok(None),
        Err(e) => Err(e),
    }
}

fn write_in_place<R: Files>(rt: &R, name: &str, bytes: &[u8]) -> io::Result<()> {
    let mut file = OpenOptions::new().write(true).open(rt, name)?;
    put_all(&mut file, bytes)
}

// The path that a name leads to, which is no link's, and may not be there yet.
fn end_of_links<R: Files>(rt: &R, alloc: Global, name: &str) -> io::Result<PathBuf> {
    let mut path = PathBuf::from_str(alloc, name)?;
    for _ in 0..MOST_LINKS {
        match found(fs::symlink_metadata(rt, path.as_path()))? {
            Some(metadata) if metadata.is_symlink() => {
                let to = rt.read_link(alloc, path.as_str())?;
                path = match path.parent() {
                    Some(folder) => folder.join(alloc, to.as_str())?,
                    None => to,
                };
            }
            _ => return Ok(path),
        }
    }
    Err(io::Error::from(ErrorKind::InvalidInput))
}

// Puts a new file with these bytes in the place of the one at this path, if there is one.
fn replace<R: Files>(
    rt: &R,
    alloc: Global,
    path: Path<'_>,
    old: Option<Metadata>,
    bytes: &[u8],
) -> io::Result<()> {
    let (part, file) = create_beside(rt, alloc, path)?;
    let replaced = match write_new(file, old, bytes) {
        Ok(()) => fs::rename(rt, part.as_str(), path),
        Err(e) => Err(e),
    };
    match &replaced {
        Ok(()) => sync_folder(rt, path),
        Err(_) => {
            let _ = fs::remove_file(rt, part.as_str());
        }
    }
    replaced
}

// Makes a file by a name that was not there: this path followed by `.part`, or by `.part2` and so
// on where a run that was cut off, or one beside this one, has left that.
fn create_beside<R: Files>(rt: &R, alloc: Global, path: Path<'_>) -> io::Result<(String, R::File)> {
    for number in 1..=MOST_PARTS {
        let part = part_name(alloc, path.as_str(), number)?;
        match File::create_new(rt, part.as_str()) {
            Ok(file) => return Ok((part, file)),
            Err(e) if e.kind() == ErrorKind::AlreadyExists => {}
            Err(e) => return Err(e),
        }
    }
    Err(io::Error::from(ErrorKind::AlreadyExists))
}

fn part_name(alloc: Global, path: &str, number: u32) -> io::Result<String> {
    let name = if number == 1 {
        format!(in alloc; "{path}.part")?
    } else {
        format!(in alloc; "{path}.part{number}")?
    };
    Ok(name)
}

// Writes all of the bytes to a new file, with the permissions of the one that it stands for, and
// closes it.
fn write_new<F: Write + OpenFile + Drop>(
    mut file: F,
    old: Option<Metadata>,
    bytes: &[u8],
) -> io::Result<()> {
    if let Some(metadata) = old {
        file.set_permissions(metadata.permissions())?;
    }
    put_all(&mut file, bytes)?;
    file.sync_all()
}

// Has the new name outlast a cut of power, where the system can. The file has taken its place by
// now, so that a failure to do so is none of the store's.
fn sync_folder<R: Files>(rt: &R, path: Path<'_>) {
    let folder = match path.parent() {
        Some(folder) if !folder.as_str().is_empty() => folder.as_str(),
        _ => ".",
    };
    if let Ok(folder) = fs::open(rt, folder) {
        let _ = folder.sync_all();
    }
}
