//! Footprints, look-ups, copies, changes and orders by hand.
ghost use Rattle.std.specs.Prelude.{◌≡◌, OnOk};
ghost use Rattle.std.specs.FinMap as fin;

use jam_accounts::{
    Account, Accounts, Footprint, Lookups, Preimages, State, Storage, fits, threshold,
};
use preimage_store::History;
use std::alloc::{AllocError, Global};

fn put(alloc: Global, storage: &mut Storage, key: &[u8], value: &[u8]) -> Result<(), AllocError>
    ensures { OnOk result (storage.new ≡ fin.insert storage.old key.now value.now) }
{
    let key = Vec::from_slice(alloc, key)?;
    let value = Vec::from_slice(alloc, value)?;
    storage.put(key, value)
}

fn put_slots(
    lookups: &mut Lookups,
    hash: &[u8; 32],
    length: u32,
    slots: &[u32],
) -> Result<(), AllocError> {
    match History::of(slots) {
        Some(history) => lookups.put(hash, length, history),
        None => Err(AllocError),
    }
}

// The account keeps a value where it may.
fn put_value(
    alloc: Global,
    account: &mut Account,
    key: &[u8],
    value: &[u8],
) -> Result<(), AllocError> {
    let mut storage = account.storage.copy()?;
    put(alloc, &mut storage, key, value)?;
    if !fits(&storage, &account.lookups) {
        return Err(AllocError);
    }
    let key = Vec::from_slice(alloc, key)?;
    let value = Vec::from_slice(alloc, value)?;
    account.put_value(key, value)
}

// The account keeps a history where it may.
fn put_history(
    account: &mut Account,
    hash: &[u8; 32],
    length: u32,
    slots: &[u32],
) -> Result<(), AllocError> {
    let Some(history) = History::of(slots) else {
        return Err(AllocError);
    };
    let mut lookups = account.lookups.copy()?;
    lookups.put(hash, length, history)?;
    if !fits(&account.storage, &lookups) {
        return Err(AllocError);
    }
    account.put_history(hash, length, history)
}

fn put_preimage(alloc: Global, account: &mut Account, bytes: &[u8]) -> Result<(), AllocError> {
    let bytes = Vec::from_slice(alloc, bytes)?;
    account.put_preimage(bytes)
}

// Items and octets, and what they need with each gratis.
fn takes_up(footprint: Footprint) -> (u128, u128, [u128; 3]) {
    let needed = [
        threshold(footprint, 0),
        threshold(footprint, 200),
        threshold(footprint, u64::MAX),
    ];
    (footprint.items(), footprint.octets(), needed)
}

// What an account takes up once it keeps a value and a history more.
fn taken_up(
    alloc: Global,
    account: &mut Account,
    key: &[u8],
    value: &[u8],
    length: u32,
) -> Result<(u128, u128, [u128; 3]), AllocError> {
    put_value(alloc, account, key, value)?;
    put_history(account, &[7; 32], length, &[])?;
    Ok(takes_up(account.footprint()))
}

#[test]
fn an_account_takes_up_what_its_maps_do(rt: HostRuntime) -> Result<(), AllocError> {
    let alloc = rt.alloc();
    let mut account = Account::blank(alloc);
    assert!(rt; threshold(account.footprint(), 40) == 60);
    assert!(rt; threshold(account.footprint(), 1000) == 0);
    let steps: [(&[u8], &[u8], u32, u128, u128, [u128; 3]); 3] = [
        (b"ab", b"cde", 5, 3, 125, [255, 55, 0]),
        (b"ab", b"", 5, 3, 122, [252, 52, 0]),
        (
            b"",
            b"",
            4_294_967_295,
            6,
            4_294_967_532,
            [4_294_967_692, 4_294_967_492, 0],
        ),
    ];
    for (key, value, length, items, octets, needed) in steps {
        let taken = taken_up(alloc, &mut account, key, value, length)?;
        assert!(rt; taken == (items, octets, needed), "for {octets}");
    }
    Ok(())
}

// The preimages "abc" and "abd", and histories: of "abc" [10, 20], of "abd" with another length, of a hash of none.
fn with_preimages(alloc: Global) -> Result<Account, AllocError> {
    let mut account = Account::blank(alloc);
    put_preimage(alloc, &mut account, b"abc")?;
    put_preimage(alloc, &mut account, b"abd")?;
    put_history(&mut account, &blake2b_core::digest(b"abc"), 3, &[10, 20])?;
    put_history(&mut account, &blake2b_core::digest(b"abd"), 4, &[0])?;
    put_history(&mut account, &[0; 32], 3, &[0])?;
    put_value(alloc, &mut account, b"ab", b"cde")?;
    Ok(account)
}

fn is_found(account: &Account, bytes: &[u8], slot: u32) -> bool {
    account.lookup_at(&blake2b_core::digest(bytes), slot) == Some(bytes)
}

#[test]
fn a_preimage_is_found_while_it_is_available(rt: HostRuntime) -> Result<(), AllocError> {
    let account = with_preimages(rt.alloc())?;
    let rows: [(&[u8], u32, bool); 5] = [
        (b"abc", 9, false),
        (b"abc", 10, true),
        (b"abc", 19, true),
        (b"abc", 20, false),
        (b"abd", 10, false),
    ];
    for (bytes, slot, there) in rows {
        assert!(rt; is_found(&account, bytes, slot) == there, "at {slot}");
    }
    assert!(rt; account.lookup_at(&[0; 32], 10).is_none());
    Ok(())
}

// What is left in an account after its value, one preimage and a history were taken out.
fn taken_out(account: &mut Account) -> (Option<Vec<u8>>, Option<Vec<u8>>, Option<History>) {
    let value = account.remove_value(b"ab");
    let preimage = account.remove_preimage(&blake2b_core::digest(b"abd"));
    let history = account.remove_history(&[0; 32], 3);
    (value, preimage, history)
}

fn sizes(account: &Account) -> (usize, usize, usize) {
    (
        account.storage.len(),
        account.preimages.len(),
        account.lookups.len(),
    )
}

#[test]
fn a_copy_is_equal_and_apart(rt: HostRuntime) -> Result<(), AllocError> {
    let account = with_preimages(rt.alloc())?;
    let mut copy = account.copy()?;
    assert!(rt; sizes(&copy) == (1, 2, 3));
    assert!(rt; is_found(&copy, b"abc", 10));
    let (value, preimage, history) = taken_out(&mut copy);
    assert!(rt; value.as_deref() == Some(b"cde".as_slice()));
    assert!(rt; preimage.as_deref() == Some(b"abd".as_slice()));
    assert!(rt; history == History::of(&[0]));
    assert!(rt; sizes(&copy) == (0, 1, 2));
    assert!(rt; sizes(&account) == (1, 2, 3));
    Ok(())
}

// What the accounts 6 and 7 keep.
fn kept(accounts: &Accounts) -> [Option<(usize, usize, usize)>; 2] {
    [accounts.get(6).map(sizes), accounts.get(7).map(sizes)]
}

#[test]
fn an_account_is_put_in_place_of_another(rt: HostRuntime) -> Result<(), AllocError> {
    let alloc = rt.alloc();
    let mut accounts = Accounts::new(alloc);
    let account = with_preimages(alloc)?;
    accounts.put(6, account)?;
    if accounts.get(6).is_none() {
        return Err(AllocError);
    }
    let before = accounts.replace(6, Account::blank(alloc));
    assert!(rt; sizes(&before) == (1, 2, 3));
    accounts.put(7, before)?;
    let state = State::new(4, [5; 32], accounts);
    let mut copy = state.copy()?;
    copy.accounts.remove(7);
    assert!(rt; (copy.version(), copy.slot) == (2, 4));
    assert!(rt; kept(&copy.accounts) == [Some((0, 0, 0)), None]);
    assert!(rt; kept(&state.accounts) == [Some((0, 0, 0)), Some((1, 2, 3))]);
    Ok(())
}

fn ordered(alloc: Global) -> Result<(Storage, Preimages, Lookups), AllocError> {
    let mut storage = Storage::new(alloc);
    let mut preimages = Preimages::new(alloc);
    let mut lookups = Lookups::new(alloc);
    for (key, first, length) in [("b", 2, 1), ("ab", 1, 9), ("", 1, 3), ("a", 3, 0)] {
        put(alloc, &mut storage, key.as_bytes(), key.as_bytes())?;
        preimages.put(Vec::from_slice(alloc, key.as_bytes())?)?;
        put_slots(&mut lookups, &[first; 32], length, &[length])?;
    }
    Ok((storage, preimages, lookups))
}

// The values, the preimages and the lengths of the histories, one after another.
fn in_order(
    alloc: Global,
    storage: &Storage,
    preimages: &Preimages,
    lookups: &Lookups,
) -> Result<(Vec<u8>, Vec<u8>, Vec<u32>), AllocError> {
    let mut values = Vec::new(alloc);
    for (_, value) in storage.entries() {
        values.extend_from_slice(value)?;
    }
    let mut contents = Vec::new(alloc);
    for (_, bytes) in preimages.entries() {
        contents.extend_from_slice(bytes)?;
    }
    let mut lengths = Vec::new(alloc);
    for (_, length, _) in lookups.entries() {
        lengths.push(length)?;
    }
    Ok((values, contents, lengths))
}

#[test]
fn entries_come_in_order(rt: HostRuntime) -> Result<(), AllocError> {
    let (storage, preimages, lookups) = ordered(rt.alloc())?;
    let (values, contents, lengths) = in_order(rt.alloc(), &storage, &preimages, &lookups)?;
    assert!(rt; values.as_slice() == b"aabb".as_slice());
    assert!(rt; contents.as_slice() == b"baab".as_slice());
    assert!(rt; lengths.as_slice() == [3, 9, 1, 0].as_slice());
    Ok(())
}

// An account that awaits "xyz". It has had "uvw", and awaits other bytes of the digest of "rst".
fn awaiting_account(alloc: Global) -> Result<Account, AllocError> {
    let mut account = Account::blank(alloc);
    put_history(&mut account, &blake2b_core::digest(b"xyz"), 3, &[])?;
    put_history(&mut account, &blake2b_core::digest(b"uvw"), 3, &[1])?;
    put_history(&mut account, &blake2b_core::digest(b"rst"), 4, &[])?;
    Ok(account)
}

// Whether bytes that come at slot 9 are stored.
fn is_received(alloc: Global, account: &mut Account, bytes: &[u8]) -> Result<bool, AllocError> {
    account.receive(alloc, bytes, 9)
}

// What the account has of these bytes now.
fn held(account: &Account, bytes: &[u8]) -> (bool, Option<History>) {
    let hash = blake2b_core::digest(bytes);
    let preimage = account.preimages.get(&hash);
    (preimage == Some(bytes), account.lookups.get(&hash, 3))
}

#[test]
fn a_preimage_is_received_where_it_is_awaited(rt: HostRuntime) -> Result<(), AllocError> {
    let mut account = awaiting_account(rt.alloc())?;
    let rows: [(&[u8], bool); 5] = [
        (b"uvw", false),
        (b"rst", false),
        (b"xyz", true),
        (b"xyz", false),
        (b"", false),
    ];
    for (bytes, stored) in rows {
        let answer = is_received(rt.alloc(), &mut account, bytes)?;
        assert!(rt; answer == stored);
    }
    assert!(rt; held(&account, b"xyz") == (true, History::of(&[9])));
    assert!(rt; held(&account, b"uvw") == (false, History::of(&[1])));
    assert!(rt; sizes(&account) == (0, 1, 3));
    Ok(())
}
