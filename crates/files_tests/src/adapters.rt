//! The adapters over real files and standard output. The expected answers were set by hand.
use crate::calls::{
    gives, holds, is_free, makes_folder, many_bytes, refuses_to_read, refuses_to_store,
    removes_folder, stores,
};
use jam_files::{FileVault, OutSink, put_all};
use jam_outside::{OutsideError, Sink};
use std::alloc::Global;
use std::cell::Cell;
use std::fmt::Display;
use std::fs::{File, Permissions};
use std::io::{ErrorKind, Read, Write};
use std::os::unix::fs::PermissionsExt;
use std::{fs, io};

fn mode_of(rt: &HostRuntime, name: &str) -> io::Result<u32> {
    let metadata = fs::metadata(rt, name)?;
    Ok(metadata.permissions().mode() % 0o1000)
}

fn is_read(rt: &HostRuntime) -> bool {
    let mut vault = FileVault::new(rt, rt.alloc());
    gives(&mut vault, "adapters/digits", 0, 12, b"0123456789")
        && gives(&mut vault, "adapters/digits", 7, 12, b"789")
        && gives(&mut vault, "adapters/digits", 2, 4, b"2345")
        && gives(&mut vault, "adapters/digits", 10, 12, b"")
        && gives(&mut vault, "adapters/digits", 99, 12, b"")
        && refuses_to_read(&mut vault, "adapters/absent", 1)
}

// A vault that has not read the file replaces it. A folder in the way fails.
fn is_stored(rt: &HostRuntime) -> bool {
    let mut vault = FileVault::new(rt, rt.alloc());
    stores(&mut vault, "adapters/digits", b"new")
        && gives(&mut vault, "adapters/digits", 0, 12, b"new")
        && refuses_to_store(&mut vault, "adapters/absent/digits", b"lost", 1)
        && refuses_to_store(&mut vault, "/dev/full", b"lost", 2)
        && stores(&mut vault, "/dev/null", b"gone")
        && refuses_to_store(&mut vault, "adapters/folder", b"lost", 3)
}

#[test]
fn files_are_read_and_stored(rt: HostRuntime) -> io::Result<()> {
    fs::create_dir(&rt, "adapters")?;
    fs::write(&rt, "adapters/digits", "0123456789")?;
    fs::set_permissions(&rt, "adapters/digits", Permissions::from_mode(0o600))?;
    assert!(rt; makes_folder(&rt, "adapters/folder"));
    assert!(rt; is_read(&rt));
    assert!(rt; is_stored(&rt));
    let mode = mode_of(&rt, "adapters/digits")?;
    assert_eq!(rt; mode, 0o600);
    assert!(rt; is_free(&rt, "adapters/digits.part"));
    assert!(rt; removes_folder(&rt, "adapters"));
    Ok(())
}

// A device that has no room.
struct Full;

impl Print for Full {
    fn print<D: Display + Drop>(&self, _value: D) -> io::Result<()> {
        Err(io::Error::from(ErrorKind::StorageFull))
    }

    fn println<D: Display + Drop>(&self, _value: D) -> io::Result<()> {
        Err(io::Error::from(ErrorKind::StorageFull))
    }

    fn write_all(&self, _bytes: &[u8]) -> io::Result<()> {
        Err(io::Error::from(ErrorKind::StorageFull))
    }

    fn write_some(&self, _bytes: &[u8]) -> io::Result<usize> {
        Ok(0)
    }
}

// Whether all bytes are taken.
fn takes<S: Sink>(sink: &mut S, bytes: &[u8]) -> bool {
    sink.put(bytes).is_ok()
}

fn fails<S: Sink>(sink: &mut S, bytes: &[u8]) -> bool {
    matches!(sink.put(bytes), Err(OutsideError::Failed))
}

#[test]
fn puts_that_fail_are_counted(rt: HostRuntime) {
    let mut out = OutSink::new(&rt);
    assert!(rt; takes(&mut out, b"printed\n"));
    assert!(rt; takes(&mut out, b""));
    assert_eq!(rt; out.faults, 0);
    let mut full = OutSink::new(&Full);
    assert!(rt; takes(&mut full, b""));
    assert_eq!(rt; full.faults, 0);
    assert!(rt; fails(&mut full, b"lost"));
    assert_eq!(rt; full.faults, 1);
}

// A file as standard output, of which each call takes at most 4,096 bytes, and every second call is
// interrupted before it takes any.
#[derive(Drop)]
struct Piecewise<'a> {
    file: &'a File,
    calls: Cell<u64>,
}

impl Print for Piecewise<'_> {
    fn print<D: Display + Drop>(&self, _value: D) -> io::Result<()> {
        Err(io::Error::from(ErrorKind::Unsupported))
    }

    fn println<D: Display + Drop>(&self, _value: D) -> io::Result<()> {
        Err(io::Error::from(ErrorKind::Unsupported))
    }

    fn write_all(&self, _bytes: &[u8]) -> io::Result<()> {
        Err(io::Error::from(ErrorKind::Unsupported))
    }

    fn write_some(&self, bytes: &[u8]) -> io::Result<usize> {
        self.calls.set(self.calls.get().saturating_add(1));
        if self.calls.get() % 2 == 1 {
            return Err(io::Error::from(ErrorKind::Interrupted));
        }
        let mut file = self.file;
        file.write(&bytes[..bytes.len().min(4_096)])
    }
}

// Whether the bytes are written by five writes, each of which is interrupted once before.
fn are_printed(file: &File, bytes: &[u8]) -> bool {
    let calls = Cell::new(0);
    let piecewise = Piecewise { file, calls };
    let mut out = OutSink::new(&piecewise);
    takes(&mut out, bytes) && out.faults == 0 && piecewise.calls.get() == 10
}

fn are_put<W: Write>(to: &mut W, bytes: &[u8]) -> bool {
    put_all(to, bytes).is_ok()
}

// Whether these are all the bytes that are left to read.
fn are_left<R: Read>(from: &mut R, alloc: Global, bytes: &[u8]) -> bool {
    let mut read = Vec::new(alloc);
    from.read_to_end(&mut read).is_ok() && read.as_slice() == bytes
}

fn go_through_a_pipe(rt: &HostRuntime, bytes: &[u8]) -> io::Result<bool> {
    let (mut reader, mut writer) = io::pipe(rt)?;
    let put = are_put(&mut writer, bytes);
    drop(writer);
    Ok(put && are_left(&mut reader, rt.alloc(), bytes))
}

#[test]
fn long_puts_are_written_whole(rt: HostRuntime) -> io::Result<()> {
    let bytes = many_bytes(rt.alloc(), 20_000)?;
    let file = File::create(&rt, "printed")?;
    assert!(rt; are_printed(&file, &bytes));
    assert!(rt; holds(&rt, "printed", &bytes));
    let passed = go_through_a_pipe(&rt, &bytes)?;
    assert!(rt; passed);
    fs::remove_file(&rt, "printed")
}
