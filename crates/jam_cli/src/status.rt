// How a call ends.
use pvm_asm::AsmKind;

/// The end of a call, by its cause.
#[derive(Clone, Copy, Debug, PartialEq, Eq)]
pub enum Status {
    /// All was printed and stored.
    Done,
    /// Memory ran out.
    NoMemory,
    /// No command has these words.
    BadWords,
    /// A read of the file of this word failed.
    ReadFault(u8),
    /// The file of this word holds more than 67,108,864 bytes.
    TooLong(u8),
    /// The bytes of this word's file spell no value of its kind. The place is the number of bytes
    /// before the first field that does not spell; for bytes after the value it is the value's
    /// length.
    Refused { word: u8, place: u64 },
    /// A line of a text is refused. The first line is 1.
    BadLine { line: u64, kind: AsmKind },
    /// The sink failed; a prefix was printed.
    SinkFault,
    /// The store failed; all was printed.
    StoreFault,
}
