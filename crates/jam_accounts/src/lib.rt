//! The state of the services: their accounts, what these hold, and what that takes up.
#![tactic(auto)]

mod account;
mod accounts;
mod footprint;
mod laws;
mod lookups;
mod preimages;
mod state;
mod storage;

pub use account::{Account, fits};
pub use accounts::{Accounts, AccountsEntries};
pub use footprint::{Footprint, OCTETS_LIMIT, threshold};
pub use laws::{footprint_laws, put_back_law};
pub use lookups::{Lookups, LookupsEntries};
pub use preimages::{Preimages, PreimagesEntries};
pub use state::{FIRST_VERSION, LATEST_VERSION, State, version_of};
pub use storage::{Storage, StorageEntries};
