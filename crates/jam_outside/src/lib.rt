//! The outside as traits: a vault of named files, and a sink for what is printed.
#![tactic(auto)]

mod held;
mod mem_sink;
mod mem_vault;
mod sink;
mod sure_sink;
mod sure_vault;
mod take;
mod vault;
mod whole;

pub use mem_sink::MemSink;
pub use mem_vault::MemVault;
pub use sink::Sink;
pub use sure_sink::SureSink;
pub use sure_vault::SureVault;
pub use take::Take;
pub use vault::{OutsideError, Vault};
pub use whole::{ReadRefusal, read_into, read_whole};
