// A vault in memory that never fails.
ghost use Rattle.std.specs.Prelude.{◌≡◌, ◌-◌, ◌≤◌, Ok, length, min, IfOk, IfSome};
ghost use Rattle.jam_outside.specs.Files.{IsPiece, content, files_of};
ghost use Rattle.jam_outside.specs.Causes.{counted, read_leaves};
ghost use Rattle.jam_outside.specs.Memory.{sure_vault};

use crate::held::{copy_part, put_file};
use crate::{OutsideError, Vault};
use std::alloc::Global;
use std::collections::BTreeMap;
use std::marker::Model;

/// Files in memory, whose calls fail for want of memory alone.
#[derive(Drop)]
pub struct SureVault {
    alloc: Global,
    held: BTreeMap<String, Vec<u8>>,
    /// How many stores were made. The count stands still at its type's end.
    pub stores: u64,
}

impl Model for SureVault {
    ghost use Rattle.jam_outside.specs.Files.{files_of};
    ghost use Rattle.jam_outside.specs.Memory.{SureFiles, coded_sure_files};

    ghost Value = { SureFiles };

    ghost coded = { coded_sure_files };

    ghost view = { λ v. record { files = files_of v.held; stores = v.stores } };
}

impl SureVault {
    /// A vault that holds these files and no others.
    pub fn new(alloc: Global, files: BTreeMap<String, Vec<u8>>) -> Self
        ensures { result ≡ record { files = files_of files; stores = 0 } }
    {
        SureVault {
            alloc,
            held: files,
            stores: 0,
        }
    }
}

#[tactic(auto, using(crate::proofs::FilesLemmas::files_rules))]
impl Vault for SureVault {
    ghost state = { sure_vault };

    /// Never fails, and gives as many bytes as fit.
    fn read_at(&mut self, name: &str, place: u64, buf: &mut [u8]) -> Result<usize, OutsideError>
        ensures fits { IfOk result (λ n. n ≤ length buf.new) }
        ensures gives { IfOk result (λ n. IfSome (sure_vault self.old).files (λ held. IsPiece (content held name.now) place buf.new n)) }
        ensures state { sure_vault self.new ≡ read_leaves result (sure_vault self.old) name.now place }
        ensures count { result ≡ Ok (min (length buf.new) (length (content self.old.files name.now) - place)) }
    {
        match self.held.get(name) {
            None => Ok(0),
            Some(file) => Ok(copy_part(file.as_slice(), place, buf)),
        }
    }

    fn store(&mut self, name: &str, bytes: &[u8]) -> Result<(), OutsideError> {
        self.stores = self.stores.saturating_add(1);
        put_file(self.alloc, &mut self.held, name, bytes)
    }
}
