// What became of an item of work.
ghost use Rattle.std.specs.Prelude.{◌≡◌, ◌++◌, OnOk, OnErr};
ghost use Rattle.std.specs.Io.{StartsWith};
ghost use Rattle.jam_codec.specs.Reading.{Reads};
ghost use Rattle.jam_codec.specs.Refusal.{place_of};
ghost use Rattle.batch_file.specs.BatchFile.{result_format};
ghost use Rattle.batch_file.specs.BatchLaws.{result_laws};

use jam_codec::{Cursor, FileRefusal, push_fixed};
use jam_fields::{Blob, Field, Spell};
use std::alloc::{AllocError, Global};

/// What became of an item of work: its output, or why there is none.
#[derive(Drop)]
pub enum WorkResult {
    /// What the item gave.
    Output(Blob),
    /// Its gas did not suffice.
    OutOfGas,
    /// It panicked.
    Panic,
    /// The service's code was not there.
    NoCode,
}

// The tag is one field, and a tag above 3 does not spell.
impl Field for WorkResult {
    ghost format = { result_format };

    fn read(alloc: Global, cursor: &mut Cursor<'_>) -> Result<WorkResult, FileRefusal> {
        let mut ahead = cursor.ahead();
        let result = match ahead.fixed(1)? {
            0 => WorkResult::Output(Blob::read(alloc, &mut ahead)?),
            1 => WorkResult::OutOfGas,
            2 => WorkResult::Panic,
            3 => WorkResult::NoCode,
            _ => {
                return Err(FileRefusal::Malformed {
                    place: cursor.place(),
                });
            }
        };
        *cursor = ahead;
        Ok(result)
    }

    ghost is_format = { result_laws };
}

impl Spell for WorkResult {
    fn write(&self, out: &mut Vec<u8>) -> Result<(), AllocError> {
        match self {
            WorkResult::Output(bytes) => {
                push_fixed(out, 1, 0)?;
                bytes.write(out)
            }
            WorkResult::OutOfGas => push_fixed(out, 1, 1),
            WorkResult::Panic => push_fixed(out, 1, 2),
            WorkResult::NoCode => push_fixed(out, 1, 3),
        }
    }
}
