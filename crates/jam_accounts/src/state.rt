// The state of the services.
ghost use Rattle.std.specs.Prelude.{◌≡◌, true, Some, None, IfOk, if◌then◌else◌};
ghost use Rattle.jam_accounts.specs.Accounts.{is_version, AreOfVersion};

use crate::Accounts;
use std::alloc::AllocError;
use std::marker::Model;

/// The version whose accounts have neither gratis nor a slot at which they were made.
pub const FIRST_VERSION: u32 = 1;

/// The version of every state that is made.
pub const LATEST_VERSION: u32 = 2;

/// The version of this number, where there is one.
pub fn version_of(number: u64) -> Option<u32>
    ensures { result ≡ (if is_version number then Some number else None) }
{
    if number == u64::from(FIRST_VERSION) {
        Some(FIRST_VERSION)
    } else if number == u64::from(LATEST_VERSION) {
        Some(LATEST_VERSION)
    } else {
        None
    }
}

/// The state of the services at a time slot. Its version is 1 or 2; with version 1, the gratis and
/// the slot of making of all its accounts are 0.
#[derive(Drop)]
pub struct State {
    pub version: u32,
    pub slot: u32,
    pub entropy: [u8; 32],
    pub accounts: Accounts,
}

impl Model for State {
    ghost use Rattle.jam_accounts.specs.Accounts.{State, IsVersioned};
    ghost use Rattle.jam_accounts.specs.Coded.{coded_state};

    ghost Value = { State };

    ghost coded = { coded_state };

    ghost view = { λ s. record { version = s.version; slot = s.slot; entropy = s.entropy; accounts = s.accounts } };

    ghost invariant = { λ s. IsVersioned (record { version = s.version; slot = s.slot; entropy = s.entropy; accounts = s.accounts }) };
}

impl State {
    /// The state of the latest version with this slot and entropy and these accounts.
    pub fn new(slot: u32, entropy: [u8; 32], accounts: Accounts) -> State
        ensures { result ≡ record { version = 2; slot = slot; entropy = entropy; accounts = accounts } }
    {
        State {
            version: LATEST_VERSION,
            slot,
            entropy,
            accounts,
        }
    }

    /// The version.
    pub fn version(&self) -> u32
        ensures value { result ≡ self.now.version }
        ensures known { is_version result ≡ true }
        ensures accounts { AreOfVersion result self.now.accounts }
    {
        self.version
    }

    /// The same state.
    ///
    /// # Errors
    /// `AllocError` for want of memory.
    pub fn copy(&self) -> Result<State, AllocError>
        ensures { IfOk result (λ copy. copy ≡ self.now) }
    {
        Ok(State {
            version: self.version,
            slot: self.slot,
            entropy: self.entropy,
            accounts: self.accounts.copy()?,
        })
    }
}
