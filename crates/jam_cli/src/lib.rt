//! The top call: what the words of a command line ask for, done over a vault of files and a sink.
#![tactic(auto)]

mod accumulate;
mod argument;
mod asm;
mod deliver;
mod disasm;
mod hash;
mod kept;
mod laws;
mod number;
mod reads;
mod refusal;
mod run;
mod show;
mod status;
mod top;
mod trace;
mod values;
mod verb;
mod words;
mod work;

pub use argument::{Misfit, hexadecimal};
pub use laws::command_laws;
pub use status::Status;
pub use top::jam;
