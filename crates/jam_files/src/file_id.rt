// Which file it is, whatever its name.
use std::fs::Metadata;
use std::os::unix::fs::{FileTypeExt, MetadataExt};

/// The number of a file, and that of the device that it is on: no two files that are there at once
/// have both the same.
#[derive(Clone, Copy, PartialEq, Eq)]
pub struct FileId {
    device: u64,
    number: u64,
}

impl FileId {
    /// That of the file with this metadata.
    pub fn of(metadata: &Metadata) -> FileId {
        FileId {
            device: metadata.dev(),
            number: metadata.ino(),
        }
    }
}

/// Whether a file keeps its bytes when they are read, as a terminal or a pipe does not.
pub fn keeps_bytes(metadata: &Metadata) -> bool {
    metadata.is_file() || metadata.file_type().is_block_device()
}
