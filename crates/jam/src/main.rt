//! The program: it does what its words ask for, over the files of the system and standard output.
#![tactic(auto)]

mod report;
mod words;

use jam_cli::jam;
use jam_files::{FileVault, OutSink};
use report::{say, status_code};
use std::process::ExitCode;
use words::words_of;

/// Takes the words of the command line, does what they ask for, reports the end on standard error,
/// and ends with its status.
fn main(rt: HostRuntime) -> ExitCode {
    let alloc = rt.alloc();
    let mut vault = FileVault::new(&rt, alloc);
    let mut out = OutSink::new(&rt);
    let status = match words_of(&rt) {
        Ok(words) => jam(alloc, &words, &mut vault, &mut out),
        Err(status) => status,
    };
    say(&rt, status);
    ExitCode::from(status_code(status))
}
