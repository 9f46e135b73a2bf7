//! The files of the system, watched, and in trouble where a test wants it.
use std::alloc::Allocator;
use std::cell::Cell;
use std::fs::{File, Metadata, OpenFile, OpenOptions, Permissions};
use std::io;
use std::io::{ErrorKind, Read, Seek, SeekFrom, Write};
use std::path::PathBuf;
use std::rt::Files;

/// What goes wrong.
#[derive(Clone, Copy)]
pub enum Trouble {
    Nothing,
    /// Each read and write is interrupted before it is made.
    Interrupts,
    /// A write takes at most so many bytes.
    ShortWrites(usize),
    /// A write fails once so many bytes were written.
    Full(u64),
    /// A file's permissions cannot be set.
    NoPermissions,
    /// A file cannot be synced, and neither can a folder.
    NoSync,
    /// No file takes another's place.
    NoRename,
    /// A folder cannot be synced.
    NoFolderSync,
}

/// How often the files were opened, sought in and synced, and how many bytes were written.
#[derive(Drop)]
pub struct Counts {
    pub opens: Cell<u64>,
    pub seeks: Cell<u64>,
    pub syncs: Cell<u64>,
    pub written: Cell<u64>,
    turns: Cell<u64>,
}

impl Counts {
    pub fn new() -> Counts {
        Counts {
            opens: Cell::new(0),
            seeks: Cell::new(0),
            syncs: Cell::new(0),
            written: Cell::new(0),
            turns: Cell::new(0),
        }
    }
}

fn count(cell: &Cell<u64>, more: u64) {
    cell.set(cell.get().saturating_add(more));
}

fn fail_where(fails: bool, kind: ErrorKind) -> io::Result<()> {
    if fails {
        return Err(io::Error::from(kind));
    }
    Ok(())
}

/// The files of the system, which a test watches.
#[derive(Drop)]
pub struct Watched<'a> {
    pub rt: &'a HostRuntime,
    pub counts: &'a Counts,
    pub trouble: Trouble,
}

#[derive(Drop)]
pub struct WatchedFile<'a> {
    file: File,
    counts: &'a Counts,
    trouble: Trouble,
}

impl WatchedFile<'_> {
    fn interrupt(&self) -> io::Result<()> {
        count(&self.counts.turns, 1);
        let is_turn = self.counts.turns.get() % 2 == 1;
        let interrupts = matches!(self.trouble, Trouble::Interrupts);
        fail_where(interrupts && is_turn, ErrorKind::Interrupted)
    }

    fn fail_if_full(&self) -> io::Result<()> {
        let written = self.counts.written.get();
        let is_full = matches!(self.trouble, Trouble::Full(most) if written >= most);
        fail_where(is_full, ErrorKind::StorageFull)
    }

    // How many bytes a write takes at most.
    fn most_taken(&self) -> usize {
        match self.trouble {
            Trouble::ShortWrites(most) => most,
            Trouble::Full(_) => 4_096,
            _ => usize::MAX,
        }
    }

    fn fail_if_not_synced(&self) -> io::Result<()> {
        let fails = matches!(self.trouble, Trouble::NoSync);
        fail_where(fails, ErrorKind::StorageFull)
    }

    fn fail_if_folder(&self) -> io::Result<()> {
        let metadata = self.file.metadata()?;
        let fails = matches!(self.trouble, Trouble::NoFolderSync);
        fail_where(fails && metadata.is_dir(), ErrorKind::InvalidInput)
    }
}

impl Read for WatchedFile<'_> {
    fn read(&mut self, buf: &mut [u8]) -> io::Result<usize> {
        self.interrupt()?;
        self.file.read(buf)
    }
}

impl Write for WatchedFile<'_> {
    fn write(&mut self, buf: &[u8]) -> io::Result<usize> {
        self.interrupt()?;
        self.fail_if_full()?;
        let most = buf.len().min(self.most_taken());
        let taken = self.file.write(&buf[..most])?;
        count(&self.counts.written, taken as u64);
        Ok(taken)
    }

    fn flush(&mut self) -> io::Result<()> {
        Ok(())
    }
}

impl Seek for WatchedFile<'_> {
    fn seek(&mut self, to: SeekFrom) -> io::Result<u64> {
        count(&self.counts.seeks, 1);
        self.file.seek(to)
    }
}

impl OpenFile for WatchedFile<'_> {
    fn metadata(&self) -> io::Result<Metadata> {
        self.file.metadata()
    }

    fn set_len(&self, size: u64) -> io::Result<()> {
        self.file.set_len(size)
    }

    fn sync_all(&self) -> io::Result<()> {
        count(&self.counts.syncs, 1);
        self.fail_if_not_synced()?;
        self.fail_if_folder()?;
        self.file.sync_all()
    }

    fn sync_data(&self) -> io::Result<()> {
        self.file.sync_data()
    }

    fn set_permissions(&self, perm: Permissions) -> io::Result<()> {
        let fails = matches!(self.trouble, Trouble::NoPermissions);
        fail_where(fails, ErrorKind::PermissionDenied)?;
        self.file.set_permissions(perm)
    }
}

impl<'a> Files for Watched<'a> {
    type File = WatchedFile<'a>;

    type Dir = <HostRuntime as Files>::Dir;

    fn open_file(&self, how: &OpenOptions, path: &str) -> io::Result<WatchedFile<'a>> {
        count(&self.counts.opens, 1);
        let file = how.open(self.rt, path)?;
        Ok(WatchedFile {
            file,
            counts: self.counts,
            trouble: self.trouble,
        })
    }

    fn open_dir(&self, path: &str) -> io::Result<Self::Dir> {
        self.rt.open_dir(path)
    }

    fn metadata(&self, path: &str) -> io::Result<Metadata> {
        self.rt.metadata(path)
    }

    fn symlink_metadata(&self, path: &str) -> io::Result<Metadata> {
        self.rt.symlink_metadata(path)
    }

    fn copy(&self, from: &str, to: &str) -> io::Result<u64> {
        self.rt.copy(from, to)
    }

    fn rename(&self, from: &str, to: &str) -> io::Result<()> {
        let fails = matches!(self.trouble, Trouble::NoRename);
        fail_where(fails, ErrorKind::PermissionDenied)?;
        self.rt.rename(from, to)
    }

    fn remove_file(&self, path: &str) -> io::Result<()> {
        self.rt.remove_file(path)
    }

    fn create_dir(&self, path: &str) -> io::Result<()> {
        self.rt.create_dir(path)
    }

    fn remove_dir(&self, path: &str) -> io::Result<()> {
        self.rt.remove_dir(path)
    }

    fn remove_dir_all<B: Allocator>(&self, alloc: B, path: &str) -> io::Result<()> {
        self.rt.remove_dir_all(alloc, path)
    }

    fn canonicalize<B: Allocator>(&self, alloc: B, path: &str) -> io::Result<PathBuf<B>> {
        self.rt.canonicalize(alloc, path)
    }

    fn read_link<B: Allocator>(&self, alloc: B, path: &str) -> io::Result<PathBuf<B>> {
        self.rt.read_link(alloc, path)
    }

    fn hard_link(&self, original: &str, link: &str) -> io::Result<()> {
        self.rt.hard_link(original, link)
    }

    fn set_permissions(&self, path: &str, perm: Permissions) -> io::Result<()> {
        self.rt.set_permissions(path, perm)
    }

    fn symlink(&self, original: &str, link: &str) -> io::Result<()> {
        self.rt.symlink(original, link)
    }

    fn chown(&self, path: &str, uid: Option<u32>, gid: Option<u32>) -> io::Result<()> {
        self.rt.chown(path, uid, gid)
    }

    fn lchown(&self, path: &str, uid: Option<u32>, gid: Option<u32>) -> io::Result<()> {
        self.rt.lchown(path, uid, gid)
    }

    fn create_dir_with_mode(&self, path: &str, mode: u32) -> io::Result<()> {
        self.rt.create_dir_with_mode(path, mode)
    }
}
