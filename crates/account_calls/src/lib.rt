//! The host calls of accumulate: checkpoint, new, upgrade, transfer, eject, query, solicit, forget, yield and provide.
#![tactic(auto)]

mod balances;
mod eject;
mod found;
mod histories;
mod new;
mod provide;
mod simple;
mod transfer;

pub use eject::call_eject;
pub use histories::{call_forget, call_query, call_solicit};
pub use new::call_new;
pub use provide::call_provide;
pub use simple::{call_checkpoint, call_upgrade, call_yield};
pub use transfer::call_transfer;
