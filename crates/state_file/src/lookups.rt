// Histories of a service, by hash and then by length.
ghost use Rattle.std.specs.Prelude.{◌≡◌, ◌++◌, ◌<◌, ◌^◌, OnOk, OnErr, IfOk, T, None, List, ℕ, Option, length};
ghost use Rattle.std.specs.Option.{option_copied};
ghost use Rattle.std.specs.FinMap as fin;
ghost use Rattle.std.specs.FinMap.Entries.{is_sorted};
ghost use Rattle.jam_codec.specs.Format.{items_spelled, items_fit};
ghost use Rattle.jam_codec.specs.Lists.{hash_and_number_cmp, hash_and_number_after, map_entry, follows, is_hash_from};
ghost use Rattle.jam_codec.specs.FormatLaws.{hash_and_number_laws};
ghost use Rattle.jam_codec.specs.Reading.{Reads};
ghost use Rattle.jam_codec.specs.Refusal.{place_of};
ghost use Rattle.jam_accounts.specs.Footprint.{lookups_octets};
ghost use Rattle.state_file.specs.StateFile.{lookups_format, history_format};
ghost use Rattle.state_file.specs.StateLaws.{history_laws};

use jam_accounts::Lookups;
use jam_codec::{Cursor, FileRefusal, push_fixed, push_natural};
use jam_fields::{Field, Row, read_list, read_rows, write_list};
use preimage_store::History;
use std::alloc::{AllocError, Global};
use std::marker::Model;

/// A hash and the length of its preimage.
#[derive(Drop)]
pub struct LookupKey {
    hash: [u8; 32],
    length: u32,
}

impl Model for LookupKey {
    ghost use Rattle.std.specs.Prelude.{List, ℕ};

    ghost Value = { List ℕ × ℕ };

    ghost view = { λ k. (k.hash, k.length) };
}

impl LookupKey {
    fn number(&self) -> u32
        ensures value { result ≡ self.now.1 }
        ensures small { self.now.1 < 2 ^ 32 }
    {
        self.length
    }
}

fn is_hash_above(last: Option<&LookupKey>, hash: &[u8]) -> bool
    ensures { result ≡ is_hash_from (option_copied last.entry) hash.now }
{
    match last {
        None => true,
        Some(last) => last.hash.as_slice().cmp(hash).is_le(),
    }
}

fn is_above(last: Option<&LookupKey>, hash: &[u8; 32], length: u32) -> bool
    ensures { result ≡ follows hash_and_number_cmp (option_copied last.entry) (hash.now, length) }
{
    match last {
        None => true,
        Some(last) => last
            .hash
            .as_slice()
            .cmp(hash.as_slice())
            .then(last.length.cmp(&length))
            .is_lt(),
    }
}

impl Row for LookupKey {
    ghost after = { hash_and_number_after };

    fn read_after(
        _alloc: Global,
        cursor: &mut Cursor<'_>,
        last: Option<&LookupKey>,
    ) -> Result<LookupKey, FileRefusal> {
        let mut ahead = cursor.ahead();
        let place = ahead.place();
        let mut hash = [0; 32];
        hash.copy_from_slice(ahead.bytes(32)?);
        if !is_hash_above(last, &hash) {
            return Err(FileRefusal::Malformed { place });
        }
        let place = ahead.place();
        let length = ahead.fixed(4)? as u32;
        if !is_above(last, &hash, length) {
            return Err(FileRefusal::Malformed { place });
        }
        *cursor = ahead;
        Ok(LookupKey { hash, length })
    }

    ghost is_format_after = { hash_and_number_laws };
}

/// A history, as a field.
#[derive(Drop)]
pub struct Slots {
    history: History,
}

impl Model for Slots {
    ghost use Rattle.std.specs.Prelude.{List, ℕ};

    ghost Value = { List ℕ };

    ghost view = { λ s. s.history };
}

impl Field for Slots {
    ghost format = { history_format };

    fn read(alloc: Global, cursor: &mut Cursor<'_>) -> Result<Slots, FileRefusal> {
        let slots = read_list(alloc, cursor, 3)?;
        let history = History::of(slots.as_slice()).unwrap();
        Ok(Slots { history })
    }

    ghost is_format = { history_laws };
}

fn lookups_of(alloc: Global, entries: Vec<(LookupKey, Slots)>) -> Result<Lookups, AllocError>
    requires { T (is_sorted hash_and_number_cmp entries.items) }
    ensures made { IfOk result (λ lookups. lookups ≡ fin.from_sorted {R = hash_and_number_cmp} entries.items) }
    ensures small { IfOk result (λ lookups. lookups_octets lookups < 2 ^ 99) }
{
    let mut lookups = Lookups::new(alloc);
    for (key, slots) in entries {
        lookups.put(&key.hash, key.number(), slots.history)?;
    }
    Ok(lookups)
}

/// The histories at the cursor.
///
/// # Errors
/// `Malformed` at the first field that does not spell; `NoMemory`.
pub fn read_lookups(alloc: Global, cursor: &mut Cursor<'_>) -> Result<Lookups, FileRefusal>
    ensures exact { Reads place_of (λ x. x) result cursor.new (lookups_format.read cursor.old) }
    ensures small { IfOk result (λ lookups. lookups_octets lookups < 2 ^ 99) }
{
    let entries = read_rows(alloc, cursor)?;
    Ok(lookups_of(alloc, entries)?)
}

fn write_slots(history: History, out: &mut Vec<u8>) -> Result<(), AllocError>
    ensures ok { OnOk result (out.new.items ≡ out.old.items ++ history_format.spell history) }
    ensures fits { OnOk result (history_format.Fits history) }
{
    write_list(history.slots(), 3, out)
}

fn write_history(
    hash: &[u8; 32],
    number: u32,
    history: History,
    out: &mut Vec<u8>,
) -> Result<(), AllocError>
    ensures ok { OnOk result ((last : Option ((List ℕ × ℕ) × List ℕ)) → out.new.items ≡ out.old.items ++ (map_entry hash_and_number_after history_format last).spell ((hash.now, number), history)) }
    ensures hash { length hash.now ≡ 32 }
    ensures number { number < 2 ^ 32 }
    ensures fits { OnOk result (history_format.Fits history) }
{
    out.extend_from_slice(hash)?;
    push_fixed(out, 4, u64::from(number))?;
    write_slots(history, out)
}

fn write_entries(lookups: &Lookups, out: &mut Vec<u8>) -> Result<(), AllocError>
    ensures ok { OnOk result (out.new.items ≡ out.old.items ++ items_spelled (map_entry hash_and_number_after history_format) None (fin.entries lookups.now)) }
    ensures fits { OnOk result (items_fit (map_entry hash_and_number_after history_format) (length (fin.entries lookups.now)) None (fin.entries lookups.now)) }
{
    for (hash, length, history) in lookups.entries() {
        write_history(hash, length, history, out)?;
    }
    Ok(())
}

/// Adds the spelling of the histories.
///
/// # Errors
/// Want of memory; a part may have been added then.
pub fn write_lookups(lookups: &Lookups, out: &mut Vec<u8>) -> Result<(), AllocError>
    ensures ok { OnOk result (out.new.items ≡ out.old.items ++ lookups_format.spell lookups.now) }
    ensures fits { OnOk result (lookups_format.Fits lookups.now) }
{
    push_natural(out, lookups.len() as u64)?;
    write_entries(lookups, out)
}
