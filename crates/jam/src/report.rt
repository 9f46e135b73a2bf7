// How the program reports the end of a call.
ghost use Rattle.std.specs.Prelude.{◌≡◌, Some};
ghost use Rattle.jam.specs.Report.{exit_code, status_text};

use jam_cli::Status;
use pvm_asm::kind_text;
use std::fmt;

/// The exit status of the program, other for each cause.
pub fn status_code(status: Status) -> u8
    ensures { result ≡ exit_code status }
{
    match status {
        Status::Done => 0,
        Status::NoMemory => 1,
        Status::BadWords => 2,
        Status::ReadFault(_) => 3,
        Status::TooLong(_) => 4,
        Status::Refused { .. } => 5,
        Status::BadLine { .. } => 6,
        Status::SinkFault => 7,
        Status::StoreFault => 8,
    }
}

/// A status as a line for standard error.
#[derive(Drop)]
pub struct Report(pub Status);

impl fmt::Display for Report {
    ghost output = { λ r. Some (status_text r.0) };

    fn fmt<W: fmt::Write>(&self, f: &mut fmt::Formatter<W>) -> fmt::Result {
        match self.0 {
            Status::Done => Ok(()),
            Status::NoMemory => write!(f, "no memory"),
            Status::BadWords => write!(f, "bad words"),
            Status::ReadFault(word) => write!(f, "read fault: word {word}"),
            Status::TooLong(word) => write!(f, "too long: word {word}"),
            Status::Refused { word, place } => write!(f, "refused: word {word}, byte {place}"),
            Status::BadLine { line, kind } => write!(f, "line {line}: {}", kind_text(kind)),
            Status::SinkFault => write!(f, "output fault"),
            Status::StoreFault => write!(f, "store fault"),
        }
    }
}

/// Prints what a status says to standard error, and nothing where all was done. A failure to print
/// it changes nothing: the exit status tells the cause too.
pub fn say(rt: &impl Eprint, status: Status) {
    if status != Status::Done {
        let _ = rt.eprintln(Report(status));
    }
}
