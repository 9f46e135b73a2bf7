//! The files of the system as a vault, standard output as a sink, and the words of the command line.
#![tactic(auto)]

mod file_id;
mod file_vault;
mod memory;
mod out_sink;
mod reading;
mod transfer;
mod whole_file;
mod words;

pub use file_vault::FileVault;
pub use memory::is_out_of_memory;
pub use out_sink::OutSink;
pub use transfer::{put_all, read_some};
pub use words::words_after_name;
