// The files of the system as a vault.
ghost use Rattle.std.specs.Prelude.{◌≡◌, ◌≤◌, length, string_bytes, IfOk};
ghost use Rattle.jam_files.specs.Devices.{no_faults, files_state};

use crate::file_id::{FileId, keeps_bytes};
use crate::memory::is_out_of_memory;
use crate::reading::{Reading, read_on};
use crate::whole_file::write_whole;
use jam_outside::{OutsideError, Vault};
use std::alloc::Global;
use std::fs::OpenFile;
use std::marker::Model;
use std::rt::Files;
use std::{fs, io};

/// The files of the system, by their paths. It tells nothing of what they hold, but which calls
/// failed: a read does of a name that is not there or is a folder's, and a store does where the
/// file is one that was read. The counts stand still at their type's end.
///
/// A file stays open from one read to the next where that goes on in it, so that a whole read is of
/// the one file that was opened, and a pipe can be read.
#[derive(Drop)]
pub struct FileVault<'a, R: Files> {
    rt: &'a R,
    alloc: Global,
    /// The file that was read last, until its end.
    reading: Option<Reading<R::File>>,
    /// The files that were read and keep their bytes.
    inputs: Vec<FileId>,
    /// How many reads failed.
    pub read_faults: u64,
    /// The name of the last read that failed, at first empty.
    pub failed: String,
    /// The place from which it read, at first 0.
    pub failed_place: u64,
    /// How many stores were made.
    pub stores: u64,
    /// How many stores failed.
    pub store_faults: u64,
    /// The name of the last store that failed, at first empty.
    pub store_failed: String,
}

impl<'a, R: Files> Model for FileVault<'a, R> {
    ghost use Rattle.std.specs.Prelude.{string_bytes};
    ghost use Rattle.jam_files.specs.Devices.{FileFaults};

    ghost Value = { FileFaults };

    ghost view = { λ v. record { read_faults = v.read_faults; failed = string_bytes v.failed; failed_place = v.failed_place; stores = v.stores; store_faults = v.store_faults; store_failed = string_bytes v.store_failed } };
}

impl<'a, R: Files> FileVault<'a, R> {
    /// The files as `rt` has them, at which no call was made yet.
    pub fn new(rt: &'a R, alloc: Global) -> Self
        ensures { result ≡ no_faults }
    {
        FileVault {
            rt,
            alloc,
            reading: None,
            inputs: Vec::new(alloc),
            read_faults: 0,
            failed: String::new(alloc),
            failed_place: 0,
            stores: 0,
            store_faults: 0,
            store_failed: String::new(alloc),
        }
    }

    // Opens a file and keeps which it is.
    fn open(&mut self, name: &str) -> io::Result<R::File>
        ensures { self.new ≡ self.old }
    {
        let file = fs::open(self.rt, name)?;
        let metadata = file.metadata()?;
        if keeps_bytes(&metadata) {
            self.inputs.push(FileId::of(&metadata))?;
        }
        Ok(file)
    }

    // The file at the place: the one that is open where the read goes on there, and else that of
    // the name as it is now.
    fn reading_at(&mut self, name: &str, place: u64) -> io::Result<Reading<R::File>>
        ensures same { self.new ≡ self.old }
        ensures name { IfOk result (λ r. string_bytes r.name ≡ name.now) }
        ensures place { IfOk result (λ r. r.place ≡ place) }
    {
        match self.reading.take() {
            Some(reading) if reading.goes_on(name, place) => Ok(reading),
            _ => Reading::begin(self.alloc, name, place, self.open(name)?),
        }
    }

    fn read_part(&mut self, name: &str, place: u64, buf: &mut [u8]) -> io::Result<usize>
        ensures same { self.new ≡ self.old }
        ensures fits { IfOk result (λ n. n ≤ length buf.new) }
    {
        let reading = self.reading_at(name, place)?;
        read_on(reading, &mut self.reading, buf)
    }
}

impl<'a, R: Files> Vault for FileVault<'a, R> {
    ghost state = { files_state };

    fn read_at(&mut self, name: &str, place: u64, buf: &mut [u8]) -> Result<usize, OutsideError> {
        match self.read_part(name, place, buf) {
            Ok(count) => Ok(count),
            Err(e) if is_out_of_memory(&e) => Err(OutsideError::NoMemory),
            Err(_) => {
                self.failed = String::from_str(self.alloc, name)?;
                self.failed_place = place;
                self.read_faults = self.read_faults.saturating_add(1);
                Err(OutsideError::Failed)
            }
        }
    }

    fn store(&mut self, name: &str, bytes: &[u8]) -> Result<(), OutsideError> {
        self.stores = self.stores.saturating_add(1);
        match write_whole(self.rt, self.alloc, &self.inputs, name, bytes) {
            Ok(()) => Ok(()),
            Err(e) if is_out_of_memory(&e) => Err(OutsideError::NoMemory),
            Err(_) => {
                self.store_failed = String::from_str(self.alloc, name)?;
                self.store_faults = self.store_faults.saturating_add(1);
                Err(OutsideError::Failed)
            }
        }
    }
}
