//! The memory of the Polkadot Virtual Machine: 2^20 pages of 4,096 bytes, each with its rights.
#![tactic(auto)]

mod access;
mod laws;
mod memory;
mod numbers;
mod pages;
mod reads;
mod writes;

pub use access::{Access, StoreRefusal};
pub use laws::{accessible_laws, page_laws, refusal_laws, write_laws};
pub use memory::Memory;
pub use page_rights::Rights;
