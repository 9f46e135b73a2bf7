// Values of a service, in the order of their keys.
ghost use Rattle.std.specs.Prelude.{◌≡◌, ◌++◌, ◌<◌, ◌^◌, OnOk, IfOk, T, None, List, ℕ, length};
ghost use Rattle.std.specs.FinMap as fin;
ghost use Rattle.std.specs.FinMap.Entries.{is_sorted};
ghost use Rattle.jam_codec.specs.Format.{any, items_spelled, items_fit};
ghost use Rattle.jam_codec.specs.Lists.{blob_where, blob_after, map_entry};
ghost use Rattle.jam_codec.specs.Spelling.{natural};
ghost use Rattle.jam_codec.specs.Reading.{Reads};
ghost use Rattle.jam_codec.specs.Refusal.{place_of};
ghost use Rattle.jam_accounts.specs.Accounts.{bytes_cmp};
ghost use Rattle.jam_accounts.specs.Footprint.{storage_octets};
ghost use Rattle.state_file.specs.StateFile.{storage_format};

use jam_accounts::Storage;
use jam_codec::{Cursor, FileRefusal, push_blob, push_natural};
use jam_fields::{Blob, read_rows};
use std::alloc::{AllocError, Global};

fn storage_of(alloc: Global, entries: Vec<(Blob, Blob)>) -> Result<Storage, AllocError>
    requires { T (is_sorted bytes_cmp entries.items) }
    ensures { IfOk result (λ storage. storage ≡ fin.from_sorted {R = bytes_cmp} entries.items) }
{
    let mut storage = Storage::new(alloc);
    for (key, value) in entries {
        storage.put(key.into_vec(), value.into_vec())?;
    }
    Ok(storage)
}

/// The values at the cursor. Fewer than 2^64 bytes spell them, so that their octets are few.
///
/// # Errors
/// `Malformed` at the first field that does not spell; `NoMemory`.
pub fn read_storage(alloc: Global, cursor: &mut Cursor<'_>) -> Result<Storage, FileRefusal>
    ensures exact { Reads place_of (λ x. x) result cursor.new (storage_format.read cursor.old) }
    ensures small { IfOk result (λ storage. storage_octets storage < 2 ^ 99) }
{
    let entries = read_rows(alloc, cursor)?;
    Ok(storage_of(alloc, entries)?)
}

fn write_value(key: &[u8], value: &[u8], out: &mut Vec<u8>) -> Result<(), AllocError>
    ensures ok { OnOk result (out.new.items ≡ out.old.items ++ ((natural (length key.now) ++ key.now) ++ (natural (length value.now) ++ value.now))) }
    ensures key { length key.now < 2 ^ 64 }
    ensures value { length value.now < 2 ^ 64 }
{
    push_blob(out, key)?;
    push_blob(out, value)
}

fn write_entries(storage: &Storage, out: &mut Vec<u8>) -> Result<(), AllocError>
    ensures ok { OnOk result (out.new.items ≡ out.old.items ++ items_spelled (map_entry blob_after (blob_where any)) None (fin.entries storage.now)) }
    ensures fits { OnOk result (items_fit (map_entry blob_after (blob_where any)) (length (fin.entries storage.now)) None (fin.entries storage.now)) }
{
    for (key, value) in storage.entries() {
        write_value(key, value, out)?;
    }
    Ok(())
}

/// Adds the spelling of the values.
///
/// # Errors
/// Want of memory; a part may have been added then.
pub fn write_storage(storage: &Storage, out: &mut Vec<u8>) -> Result<(), AllocError>
    ensures ok { OnOk result (out.new.items ≡ out.old.items ++ storage_format.spell storage.now) }
    ensures fits { OnOk result (storage_format.Fits storage.now) }
{
    push_natural(out, storage.len() as u64)?;
    write_entries(storage, out)
}
