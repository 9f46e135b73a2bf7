// A file that is being read.
ghost use Rattle.std.specs.Prelude.{◌≡◌, ◌+◌, ◌-◌, ◌<◌, ◌≤◌, ◌^◌, ◌↔◌, Ok, None, length, min, take, string_bytes, IsTrue, IfOk, IfSome, IsSome, OnErr};
ghost use Rattle.std.specs.Io.KnownBytes.{Consumes};
ghost use Rattle.std.specs.IoError.{error_kind};

use crate::transfer::read_some;
use std::alloc::Global;
use std::io;
use std::io::{Read, Seek, SeekFrom};

/// An open file, the name by which it was opened, and the place that its next read begins at.
#[derive(Drop)]
pub struct Reading<F: Drop> {
    pub name: String,
    pub place: u64,
    pub file: F,
}

impl<F: Read + Seek + Drop> Reading<F> {
    /// Begins to read a file that was just opened. Only a place past its first byte is sought, so
    /// that what can only be read in order, as a pipe, is read from its first byte.
    ///
    /// # Errors
    ///
    /// That of the seek, and `OutOfMemory` where there is no memory for the name.
    pub fn begin(alloc: Global, name: &str, place: u64, mut file: F) -> io::Result<Self>
        ensures name { IfOk result (λ r. string_bytes r.name ≡ name.now) }
        ensures place { IfOk result (λ r. r.place ≡ place) }
    {
        if place > 0 {
            file.seek(SeekFrom::Start(place))?;
        }
        let name = String::from_str(alloc, name)?;
        Ok(Reading { name, place, file })
    }

    /// Whether a read of this name from this place on goes on here.
    pub fn goes_on(&self, name: &str, place: u64) -> bool
        ensures { IsTrue result ↔ (string_bytes self.now.name ≡ name.now) × (self.now.place ≡ place) }
    {
        self.place == place && self.name.as_str() == name
    }

    fn next(&mut self, buf: &mut [u8]) -> io::Result<usize>
        ensures bound { IfOk result (λ n. n ≤ length buf.new) }
        ensures bytes { IfOk result (λ n. Consumes (F.remaining self.old.file) (F.remaining self.new.file) (take n buf.new)) }
        ensures place { IfOk result (λ n. self.new.place ≡ min (self.old.place + n) (2 ^ 64 - 1)) }
        ensures name { string_bytes self.new.name ≡ string_bytes self.old.name }
    {
        let count = read_some(&mut self.file, buf)?;
        self.place = self.place.saturating_add(count as u64);
        Ok(count)
    }
}

/// Reads once, and answers how many bytes were given. The file is kept where a further read can go
/// on in it, and closed at its end and at a failure.
///
/// # Errors
///
/// That of the read.
pub fn read_on<F: Read + Seek + Drop>(
    mut reading: Reading<F>,
    kept: &mut Option<Reading<F>>,
    buf: &mut [u8],
) -> io::Result<usize>
    ensures bound { IfOk result (λ n. n ≤ length buf.new) }
    ensures kept { IfOk result (λ n. 0 < n → IsSome kept.new) }
    ensures name { IfOk result (λ n. 0 < n → IfSome kept.new (λ r. string_bytes r.name ≡ string_bytes reading.name)) }
    ensures place { IfOk result (λ n. 0 < n → IfSome kept.new (λ r. r.place ≡ min (reading.place + n) (2 ^ 64 - 1))) }
    ensures bytes { IfOk result (λ n. 0 < n → IfSome kept.new (λ r. Consumes (F.remaining reading.file) (F.remaining r.file) (take n buf.new))) }
    ensures closed_at_end { result ≡ Ok 0 → 0 < length buf.new → kept.new ≡ None }
    ensures closed_at_failure { OnErr result (kept.new ≡ None) }
{
    *kept = None;
    let count = reading.next(buf)?;
    if count > 0 || buf.is_empty() {
        *kept = Some(reading);
    }
    Ok(count)
}
