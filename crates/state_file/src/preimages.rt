// Preimages of a service, in the order of their digests.
ghost use Rattle.std.specs.Prelude.{◌≡◌, ◌++◌, ◌<◌, ◌^◌, OnOk, OnErr, IfOk, T, None, List, ℕ, length, map};
ghost use Rattle.std.specs.Option.{option_copied, option_map};
ghost use Rattle.std.specs.Ordering.{nat_cmp};
ghost use Rattle.std.specs.Cmp.Lexicographic.{slice_cmp};
ghost use Rattle.std.specs.FinMap as fin;
ghost use Rattle.std.specs.FinMap.Entries.{is_sorted};
ghost use Rattle.blake2b_core.specs.Blake2b.{digest};
ghost use Rattle.jam_codec.specs.Format.{items_spelled, items_fit};
ghost use Rattle.jam_codec.specs.Lists.{blob_by_after, follows};
ghost use Rattle.jam_codec.specs.FormatLaws.{blob_by_after_laws};
ghost use Rattle.jam_codec.specs.Spelling.{natural};
ghost use Rattle.jam_codec.specs.Reading.{Reads};
ghost use Rattle.jam_codec.specs.Refusal.{place_of};
ghost use Rattle.jam_accounts.specs.Accounts.{bytes_cmp, StandUnderDigests};
ghost use Rattle.state_file.specs.StateFile.{preimages_format, under_digest};

use jam_accounts::Preimages;
use jam_codec::{Cursor, FileRefusal, push_blob, push_natural};
use jam_fields::{Row, read_rows};
use std::alloc::{AllocError, Global};
use std::marker::Model;

/// Bytes with their digest, which is not spelled. As rows they ascend by their digests.
#[derive(Drop)]
pub struct Preimage {
    hash: [u8; 32],
    bytes: Vec<u8>,
}

impl Model for Preimage {
    ghost use Rattle.std.specs.Prelude.{◌≡◌, List, ℕ};
    ghost use Rattle.blake2b_core.specs.Blake2b.{digest};

    ghost Value = { List ℕ };

    ghost view = { λ p. p.bytes.items };

    ghost invariant = { λ p. p.hash ≡ digest p.bytes.items };
}

impl Preimage {
    fn new(bytes: Vec<u8>) -> Preimage
        ensures { result ≡ bytes.items }
    {
        Preimage {
            hash: blake2b_core::digest(bytes.as_slice()),
            bytes,
        }
    }

    fn hash(&self) -> &[u8; 32]
        ensures { result.now ≡ digest self.now }
    {
        &self.hash
    }

    fn into_bytes(self) -> Vec<u8>
        ensures { result.items ≡ self }
    {
        self.bytes
    }
}

fn is_above(last: Option<&Preimage>, hash: &[u8; 32]) -> bool
    ensures { result ≡ follows (slice_cmp nat_cmp) (option_map digest (option_copied last.entry)) hash.now }
{
    match last {
        None => true,
        Some(last) => last.hash().as_slice().cmp(hash.as_slice()).is_lt(),
    }
}

impl Row for Preimage {
    ghost after = { blob_by_after digest };

    fn read_after(
        alloc: Global,
        cursor: &mut Cursor<'_>,
        last: Option<&Preimage>,
    ) -> Result<Preimage, FileRefusal> {
        let mut ahead = cursor.ahead();
        let length = ahead.natural()?;
        let place = ahead.place();
        let bytes = ahead.bytes(length)?;
        let preimage = Preimage::new(Vec::from_slice(alloc, bytes)?);
        if !is_above(last, preimage.hash()) {
            return Err(FileRefusal::Malformed { place });
        }
        *cursor = ahead;
        Ok(preimage)
    }

    ghost is_format_after = { blob_by_after_laws digest };
}

fn preimages_of(alloc: Global, rows: Vec<Preimage>) -> Result<Preimages, AllocError>
    requires { T (is_sorted bytes_cmp (map under_digest rows.items)) }
    ensures { IfOk result (λ preimages. preimages ≡ fin.from_sorted {R = bytes_cmp} (map under_digest rows.items)) }
{
    let mut preimages = Preimages::new(alloc);
    for row in rows {
        let hash = *row.hash();
        preimages.put_under(hash, row.into_bytes())?;
    }
    Ok(preimages)
}

/// The preimages at the cursor.
///
/// # Errors
/// `Malformed` at the first field that does not spell; `NoMemory`.
pub fn read_preimages(alloc: Global, cursor: &mut Cursor<'_>) -> Result<Preimages, FileRefusal>
    ensures exact { Reads place_of (λ x. x) result cursor.new (preimages_format.read cursor.old) }
{
    let rows = read_rows(alloc, cursor)?;
    Ok(preimages_of(alloc, rows)?)
}

fn write_bytes(bytes: &[u8], out: &mut Vec<u8>) -> Result<(), AllocError>
    ensures ok { OnOk result (out.new.items ≡ (out.old.items ++ natural (length bytes.now)) ++ bytes.now) }
    ensures short { length bytes.now < 2 ^ 64 }
{
    push_blob(out, bytes)
}

fn write_blobs(preimages: &Preimages, out: &mut Vec<u8>) -> Result<(), AllocError>
    ensures ok { OnOk result (out.new.items ≡ out.old.items ++ items_spelled (blob_by_after digest) None (fin.values preimages.now)) }
    ensures fits { OnOk result (items_fit (blob_by_after digest) (length (fin.values preimages.now)) None (fin.values preimages.now)) }
    ensures stand { OnOk result (StandUnderDigests preimages.now) }
{
    for (_hash, bytes) in preimages.entries() {
        write_bytes(bytes, out)?;
    }
    Ok(())
}

/// Adds the spelling of the preimages.
///
/// # Errors
/// Want of memory; a part may have been added then.
pub fn write_preimages(preimages: &Preimages, out: &mut Vec<u8>) -> Result<(), AllocError>
    ensures ok { OnOk result (out.new.items ≡ out.old.items ++ preimages_format.spell preimages.now) }
    ensures fits { OnOk result (preimages_format.Fits preimages.now) }
{
    push_natural(out, preimages.len() as u64)?;
    write_blobs(preimages, out)
}
