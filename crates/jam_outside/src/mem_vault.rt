// A vault in memory whose listed calls fail.
ghost use Rattle.std.specs.Prelude.{◌≡◌, ◌-◌, ◌≤◌, [], length, min, IsTrue, IfOk, IfSome, is_err};
ghost use Rattle.jam_outside.specs.Files.{IsPiece, content, files_of};
ghost use Rattle.jam_outside.specs.Causes.{read_leaves, store_leaves, is_failed};
ghost use Rattle.jam_outside.specs.Memory.{vault_state, refuses_read, refuses_store, after_read, after_store};

use crate::held::{copy_part, put_file};
use crate::{OutsideError, Vault};
use std::alloc::Global;
use std::collections::BTreeMap;
use std::marker::Model;

/// Files in memory, and for each kind of call the numbers, from 1, of those that fail. A read of
/// a name that is not there fails too. The counts stand still at their type's end.
#[derive(Drop)]
pub struct MemVault {
    alloc: Global,
    pub files: BTreeMap<String, Vec<u8>>,
    pub fail_reads: Vec<u64>,
    pub fail_stores: Vec<u64>,
    /// How many reads were made.
    pub reads: u64,
    /// How many stores were made.
    pub stores: u64,
    /// How many reads failed.
    pub read_faults: u64,
    /// How many stores failed.
    pub store_faults: u64,
    /// The name of the last read that failed, at first empty.
    pub failed: String,
    /// The place from which it read, at first 0.
    pub failed_place: u64,
    /// The name of the last store that failed, at first empty.
    pub store_failed: String,
}

impl Model for MemVault {
    ghost use Rattle.std.specs.Prelude.{string_bytes};
    ghost use Rattle.jam_outside.specs.Files.{files_of};
    ghost use Rattle.jam_outside.specs.Memory.{FailingVault, coded_failing_vault};

    ghost Value = { FailingVault };

    ghost coded = { coded_failing_vault };

    ghost view = { λ v. record { files = files_of v.files; fail_reads = v.fail_reads.items; fail_stores = v.fail_stores.items; reads = v.reads; stores = v.stores; read_faults = v.read_faults; store_faults = v.store_faults; failed = string_bytes v.failed; failed_place = v.failed_place; store_failed = string_bytes v.store_failed } };
}

impl MemVault {
    /// A vault that holds these files, at which no call was made yet.
    pub fn new(
        alloc: Global,
        files: BTreeMap<String, Vec<u8>>,
        fail_reads: Vec<u64>,
        fail_stores: Vec<u64>,
    ) -> Self
        ensures { result ≡ record { files = files_of files; fail_reads = fail_reads.items; fail_stores = fail_stores.items; reads = 0; stores = 0; read_faults = 0; store_faults = 0; failed = []; failed_place = 0; store_failed = [] } }
    {
        MemVault {
            alloc,
            files,
            fail_reads,
            fail_stores,
            reads: 0,
            stores: 0,
            read_faults: 0,
            store_faults: 0,
            failed: String::new(alloc),
            failed_place: 0,
            store_failed: String::new(alloc),
        }
    }
}

#[tactic(auto, using(crate::proofs::FilesLemmas::files_rules))]
impl Vault for MemVault {
    ghost state = { vault_state };

    /// Gives as many bytes as fit. It fails exactly where its number is listed or the name is not
    /// there; where there is no memory to keep the name of a failure, it answers NoMemory.
    fn read_at(&mut self, name: &str, place: u64, buf: &mut [u8]) -> Result<usize, OutsideError>
        ensures fits { IfOk result (λ n. n ≤ length buf.new) }
        ensures gives { IfOk result (λ n. IfSome (vault_state self.old).files (λ held. IsPiece (content held name.now) place buf.new n)) }
        ensures state { vault_state self.new ≡ read_leaves result (vault_state self.old) name.now place }
        ensures refused { is_err result ≡ refuses_read self.old name.now }
        ensures count { IfOk result (λ n. n ≡ min (length buf.new) (length (content self.old.files name.now) - place)) }
        ensures after { self.new ≡ after_read result self.old name.now place }
    {
        self.reads = self.reads.saturating_add(1);
        let listed = self.fail_reads.contains(&self.reads);
        match self.files.get(name) {
            Some(file) if !listed => Ok(copy_part(file.as_slice(), place, buf)),
            _ => {
                self.failed = String::from_str(self.alloc, name)?;
                self.failed_place = place;
                self.read_faults = self.read_faults.saturating_add(1);
                Err(OutsideError::Failed)
            }
        }
    }

    /// Fails exactly where its number is listed; where there is no memory to keep the name of a
    /// failure, it answers NoMemory.
    fn store(&mut self, name: &str, bytes: &[u8]) -> Result<(), OutsideError>
        ensures state { vault_state self.new ≡ store_leaves result (vault_state self.old) name.now bytes.now }
        ensures refused { IsTrue (refuses_store self.old) → IsTrue (is_err result) }
        ensures failed { IsTrue (is_failed result) → IsTrue (refuses_store self.old) }
        ensures after { self.new ≡ after_store result self.old name.now bytes.now }
    {
        self.stores = self.stores.saturating_add(1);
        if self.fail_stores.contains(&self.stores) {
            self.store_failed = String::from_str(self.alloc, name)?;
            self.store_faults = self.store_faults.saturating_add(1);
            return Err(OutsideError::Failed);
        }
        put_file(self.alloc, &mut self.files, name, bytes)
    }
}
