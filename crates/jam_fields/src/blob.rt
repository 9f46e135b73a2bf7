// Bytes behind their length.
ghost use Rattle.std.specs.Prelude.{◌≡◌, ◌++◌, List, ℕ, OnOk, OnErr, Option, option_map, Some};
ghost use Rattle.std.specs.Io.{StartsWith};
ghost use Rattle.std.specs.Cmp.Lexicographic.{slice_cmp};
ghost use Rattle.std.specs.Ordering.{nat_cmp};
ghost use Rattle.std.specs.Option.{option_copied};
ghost use Rattle.jam_codec.specs.Format.{any};
ghost use Rattle.jam_codec.specs.Lists.{blob_where, blob_after, follows};
ghost use Rattle.jam_codec.specs.FormatLaws.{blob_laws, blob_after_laws};
ghost use Rattle.jam_codec.specs.Reading.{Reads};
ghost use Rattle.jam_codec.specs.Refusal.{place_of};

use crate::field::{Field, Spell};
use crate::row::Row;
use jam_codec::{Cursor, FileRefusal, push_blob};
use std::alloc::{AllocError, Global};
use std::marker::Model;

/// Bytes, spelled behind their length. As a row they stand above the ones before them, byte by
/// byte, and a proper prefix stands first.
#[derive(Drop)]
pub struct Blob {
    bytes: Vec<u8>,
}

impl Model for Blob {
    ghost use Rattle.std.specs.Prelude.{List, ℕ};

    ghost Value = { List ℕ };

    ghost view = { λ b. b.bytes.items };
}

impl Blob {
    /// These bytes.
    pub fn new(bytes: Vec<u8>) -> Blob
        ensures { result ≡ bytes.items }
    {
        Blob { bytes }
    }

    /// The bytes.
    pub fn as_slice(&self) -> &[u8]
        ensures { result.now ≡ self.now }
    {
        self.bytes.as_slice()
    }

    /// The bytes, of which the vector is the owner.
    pub fn into_vec(self) -> Vec<u8>
        ensures { result.items ≡ self }
    {
        self.bytes
    }
}

impl Field for Blob {
    ghost format = { blob_where any };

    fn read(alloc: Global, cursor: &mut Cursor<'_>) -> Result<Blob, FileRefusal> {
        let mut ahead = cursor.ahead();
        let bytes = Vec::from_slice(alloc, ahead.blob()?)?;
        *cursor = ahead;
        Ok(Blob::new(bytes))
    }

    ghost is_format = { blob_laws any };
}

impl Spell for Blob {
    fn write(&self, out: &mut Vec<u8>) -> Result<(), AllocError> {
        push_blob(out, self.as_slice())
    }
}

fn is_above(last: Option<&Blob>, bytes: &[u8]) -> bool
    ensures { result ≡ follows (slice_cmp nat_cmp) (option_copied last.entry) bytes.now }
{
    match last {
        None => true,
        Some(last) => last.as_slice().cmp(bytes).is_lt(),
    }
}

impl Row for Blob {
    ghost after = { blob_after };

    fn read_after(
        alloc: Global,
        cursor: &mut Cursor<'_>,
        last: Option<&Blob>,
    ) -> Result<Blob, FileRefusal> {
        let mut ahead = cursor.ahead();
        let length = ahead.natural()?;
        let place = ahead.place();
        let found = ahead.bytes(length)?;
        if !is_above(last, found) {
            return Err(FileRefusal::Malformed { place });
        }
        let bytes = Vec::from_slice(alloc, found)?;
        *cursor = ahead;
        Ok(Blob::new(bytes))
    }

    ghost is_format_after = { blob_after_laws };
}
