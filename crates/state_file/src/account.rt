// Accounts of a version, in the order of the services' numbers.
ghost use Rattle.std.specs.Prelude.{◌≡◌, ◌++◌, ◌*◌, ◌≤◌, ◌<◌, ◌^◌, true, OnOk, OnErr, IfOk, T, None, List, ℕ, length};
ghost use Rattle.std.specs.Ordering.{nat_cmp};
ghost use Rattle.std.specs.FinMap as fin;
ghost use Rattle.std.specs.FinMap.Entries.{is_sorted};
ghost use Rattle.jam_codec.specs.Format.{any, fixed_where, items_spelled, items_fit};
ghost use Rattle.jam_codec.specs.Lists.{number_after, map_entry};
ghost use Rattle.jam_codec.specs.Reading.{Reads};
ghost use Rattle.jam_codec.specs.Refusal.{place_of};
ghost use Rattle.byte_numbers.specs.Numbers.{little_endian};
ghost use Rattle.jam_accounts.specs.Accounts.{is_version, IsOfVersion, AreOfVersion};
ghost use Rattle.state_file.specs.StateFile.{not_in_first, account_format, accounts_format};
ghost use Rattle.state_file.specs.StateLaws.{account_laws};

use crate::lookups::{read_lookups, write_lookups};
use crate::preimages::{read_preimages, write_preimages};
use crate::storage::{read_storage, write_storage};
use jam_accounts::{Account, Accounts, FIRST_VERSION, LATEST_VERSION};
use jam_codec::{Cursor, FileRefusal, push_fixed, push_natural};
use jam_fields::{Field, read_rows};
use std::alloc::{AllocError, Global};
use std::marker::Model;

/// An account as a version has it, as a field.
#[derive(Drop)]
pub struct Entry<const VERSION: u32> {
    account: Account,
}

impl<const VERSION: u32> Model for Entry<VERSION> {
    ghost use Rattle.jam_accounts.specs.Accounts.{Account, IsOfVersion};
    ghost use Rattle.jam_accounts.specs.Coded.{coded_account};

    ghost Value = { Account };

    ghost coded = { coded_account };

    ghost view = { λ e. e.account };

    ghost invariant = { λ e. IsOfVersion VERSION e.account };
}

impl<const VERSION: u32> Entry<VERSION> {
    fn into_account(self) -> Account
        ensures same { result ≡ self.entry }
        ensures version { IsOfVersion VERSION result }
    {
        self.account
    }
}

// A number that version 1 has no field for, and that is 0 there.
fn read_unless_first(cursor: &mut Cursor<'_>, version: u32, width: u8) -> Result<u64, FileRefusal>
    requires { width ≤ 8 }
    ensures exact { Reads place_of (λ x. x) result cursor.new ((not_in_first version (fixed_where width any)).read cursor.old) }
    ensures small { IfOk result (λ x. x < 2 ^ (8 * width)) }
    ensures first { IfOk result (λ x. version ≡ 1 → x ≡ 0) }
{
    if version == FIRST_VERSION {
        return Ok(0);
    }
    Ok(cursor.fixed(width)?)
}

fn push_unless_first(
    out: &mut Vec<u8>,
    version: u32,
    width: u8,
    number: u64,
) -> Result<(), AllocError>
    requires width { width ≤ 8 }
    requires small { number < 2 ^ (8 * width) }
    requires first { version ≡ 1 → number ≡ 0 }
    ensures ok { OnOk result (out.new.items ≡ out.old.items ++ (not_in_first version (fixed_where width any)).spell number) }
    ensures fits { (not_in_first version (fixed_where width any)).Fits number }
{
    if version == FIRST_VERSION {
        return Ok(());
    }
    push_fixed(out, width, number)
}

fn read_account(
    alloc: Global,
    cursor: &mut Cursor<'_>,
    version: u32,
) -> Result<Account, FileRefusal>
    ensures exact { Reads place_of (λ x. x) result cursor.new ((account_format version).read cursor.old) }
    ensures version { IfOk result (λ account. IsOfVersion version account) }
{
    let mut code_hash = [0; 32];
    code_hash.copy_from_slice(cursor.bytes(32)?);
    let balance = cursor.fixed(8)?;
    let min_accumulate = cursor.fixed(8)?;
    let min_transfer = cursor.fixed(8)?;
    let gratis = read_unless_first(cursor, version, 8)?;
    let created = read_unless_first(cursor, version, 4)? as u32;
    let storage = read_storage(alloc, cursor)?;
    let preimages = read_preimages(alloc, cursor)?;
    let lookups = read_lookups(alloc, cursor)?;
    Ok(Account {
        code_hash,
        balance,
        min_accumulate,
        min_transfer,
        gratis,
        created,
        storage,
        preimages,
        lookups,
    })
}

fn write_account(account: &Account, version: u32, out: &mut Vec<u8>) -> Result<(), AllocError>
    requires { IsOfVersion version account.now }
    ensures ok { OnOk result (out.new.items ≡ out.old.items ++ (account_format version).spell account.now) }
    ensures fits { OnOk result ((account_format version).Fits account.now) }
{
    out.extend_from_slice(&account.code_hash)?;
    push_fixed(out, 8, account.balance)?;
    push_fixed(out, 8, account.min_accumulate)?;
    push_fixed(out, 8, account.min_transfer)?;
    push_unless_first(out, version, 8, account.gratis)?;
    push_unless_first(out, version, 4, u64::from(account.created))?;
    write_storage(&account.storage, out)?;
    write_preimages(&account.preimages, out)?;
    write_lookups(&account.lookups, out)
}

impl<const VERSION: u32> Field for Entry<VERSION> {
    ghost format = { account_format VERSION };

    fn read(alloc: Global, cursor: &mut Cursor<'_>) -> Result<Entry<VERSION>, FileRefusal> {
        let mut ahead = cursor.ahead();
        let account = read_account(alloc, &mut ahead, VERSION)?;
        *cursor = ahead;
        Ok(Entry { account })
    }

    ghost is_format = { account_laws VERSION };
}

fn accounts_of<const VERSION: u32>(
    alloc: Global,
    entries: Vec<(u32, Entry<VERSION>)>,
) -> Result<Accounts, AllocError>
    requires { T (is_sorted nat_cmp entries.items) }
    ensures made { IfOk result (λ accounts. accounts ≡ fin.from_sorted {R = nat_cmp} entries.entry.items) }
    ensures version { IfOk result (λ accounts. AreOfVersion VERSION accounts) }
{
    let mut accounts = Accounts::new(alloc);
    for (id, entry) in entries {
        accounts.put(id, entry.into_account())?;
    }
    Ok(accounts)
}

fn read_entries<const VERSION: u32>(
    alloc: Global,
    cursor: &mut Cursor<'_>,
) -> Result<Accounts, FileRefusal>
    ensures exact { Reads place_of (λ x. x) result cursor.new ((accounts_format VERSION).read cursor.old) }
    ensures version { IfOk result (λ accounts. AreOfVersion VERSION accounts) }
{
    let entries: Vec<(u32, Entry<VERSION>)> = read_rows(alloc, cursor)?;
    Ok(accounts_of(alloc, entries)?)
}

/// The accounts of a version at the cursor.
///
/// # Errors
/// `Malformed` at the first field that does not spell; `NoMemory`.
pub fn read_accounts(
    alloc: Global,
    cursor: &mut Cursor<'_>,
    version: u32,
) -> Result<Accounts, FileRefusal>
    requires { is_version version ≡ true }
    ensures exact { Reads place_of (λ x. x) result cursor.new ((accounts_format version).read cursor.old) }
    ensures version { IfOk result (λ accounts. AreOfVersion version accounts) }
{
    if version == FIRST_VERSION {
        read_entries::<FIRST_VERSION>(alloc, cursor)
    } else {
        read_entries::<LATEST_VERSION>(alloc, cursor)
    }
}

fn write_entry(
    id: u32,
    account: &Account,
    version: u32,
    out: &mut Vec<u8>,
) -> Result<(), AllocError>
    requires { IsOfVersion version account.now }
    ensures ok { OnOk result (out.new.items ≡ out.old.items ++ (little_endian 4 id ++ (account_format version).spell account.now)) }
    ensures id { id < 2 ^ 32 }
    ensures fits { OnOk result ((account_format version).Fits account.now) }
{
    push_fixed(out, 4, u64::from(id))?;
    write_account(account, version, out)
}

fn write_entries(accounts: &Accounts, version: u32, out: &mut Vec<u8>) -> Result<(), AllocError>
    requires { AreOfVersion version accounts.now }
    ensures ok { OnOk result (out.new.items ≡ out.old.items ++ items_spelled (map_entry (number_after 4) (account_format version)) None (fin.entries accounts.now)) }
    ensures fits { OnOk result (items_fit (map_entry (number_after 4) (account_format version)) (length (fin.entries accounts.now)) None (fin.entries accounts.now)) }
{
    for (id, account) in accounts.entries() {
        write_entry(id, account, version, out)?;
    }
    Ok(())
}

/// Adds the spelling of the accounts of a version.
///
/// # Errors
/// Want of memory; a part may have been added then.
pub fn write_accounts(
    accounts: &Accounts,
    version: u32,
    out: &mut Vec<u8>,
) -> Result<(), AllocError>
    requires { AreOfVersion version accounts.now }
    ensures ok { OnOk result (out.new.items ≡ out.old.items ++ (accounts_format version).spell accounts.now) }
    ensures fits { OnOk result ((accounts_format version).Fits accounts.now) }
{
    push_natural(out, accounts.len() as u64)?;
    write_entries(accounts, version, out)
}
