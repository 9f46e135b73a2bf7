//! Files of states, byte by byte.
use jam_accounts::State;
use jam_codec::FileRefusal;
use state_file::{read_state, write_state};
use std::alloc::Global;

const EMPTY: [u8; 38] = [
    2, 0, 0, 0, 0, 0, 0, 0, 0, 0, 0, 0, 0, 0, 0, 0, 0, 0, 0, 0, 0, 0, 0, 0, 0, 0, 0, 0, 0, 0, 0, 0,
    0, 0, 0, 0, 0, 0,
];

// A state of version 2 with the accounts 1 and 256.
const TWO: [u8; 291] = [
    2, 11, 0, 0, 0, 6, 6, 6, 6, 6, 6, 6, 6, 6, 6, 6, 6, 6, 6, 6, 6, 6, 6, 6, 6, 6, 6, 6, 6, 6, 6,
    6, 6, 6, 6, 6, 6, 2, 1, 0, 0, 0, 7, 7, 7, 7, 7, 7, 7, 7, 7, 7, 7, 7, 7, 7, 7, 7, 7, 7, 7, 7, 7,
    7, 7, 7, 7, 7, 7, 7, 7, 7, 7, 7, 2, 0, 0, 0, 0, 0, 0, 0, 10, 0, 0, 0, 0, 0, 0, 0, 20, 0, 0, 0,
    0, 0, 0, 0, 50, 0, 0, 0, 0, 0, 0, 0, 60, 0, 0, 0, 2, 1, 1, 0, 2, 1, 2, 1, 5, 2, 2, 9, 9, 1, 3,
    2, 8, 8, 8, 8, 8, 8, 8, 8, 8, 8, 8, 8, 8, 8, 8, 8, 8, 8, 8, 8, 8, 8, 8, 8, 8, 8, 8, 8, 8, 8, 8,
    8, 2, 0, 0, 0, 2, 4, 0, 0, 0, 6, 0, 0, 0, 8, 8, 8, 8, 8, 8, 8, 8, 8, 8, 8, 8, 8, 8, 8, 8, 8, 8,
    8, 8, 8, 8, 8, 8, 8, 8, 8, 8, 8, 8, 8, 8, 44, 1, 0, 0, 2, 4, 0, 0, 0, 6, 0, 0, 0, 0, 1, 0, 0,
    9, 9, 9, 9, 9, 9, 9, 9, 9, 9, 9, 9, 9, 9, 9, 9, 9, 9, 9, 9, 9, 9, 9, 9, 9, 9, 9, 9, 9, 9, 9, 9,
    1, 0, 0, 0, 0, 0, 0, 0, 11, 0, 0, 0, 0, 0, 0, 0, 21, 0, 0, 0, 0, 0, 0, 0, 30, 0, 0, 0, 0, 0, 0,
    0, 40, 0, 0, 0, 0, 0, 0,
];

// How many bytes each of its fields takes: the version, the slot, the entropy, the count; and of each account the id, the
// code's hash, four numbers and the slot of making; the values, whose keys are of one and two bytes; the preimages, [9, 9]
// before [3] by their digests; the lookups, of two slots each. The second account keeps nothing.
const FIELDS: [u64; 46] = [
    1, 4, 32, 1, 4, 32, 8, 8, 8, 8, 4, 1, 1, 1, 1, 0, 1, 2, 1, 1, 1, 1, 2, 1, 1, 1, 32, 4, 1, 4, 4,
    32, 4, 1, 4, 4, 4, 32, 8, 8, 8, 8, 4, 1, 1, 1,
];

// The bytes as they are written again after they were read.
fn written_again(alloc: Global, bytes: &[u8]) -> Result<Vec<u8>, FileRefusal> {
    let state = read_state(alloc, bytes)?;
    let again = write_state(alloc, &state)?;
    Ok(again)
}

fn is_written_again(alloc: Global, bytes: &[u8]) -> Result<bool, FileRefusal> {
    let again = written_again(alloc, bytes)?;
    Ok(again.as_slice() == bytes)
}

// Where the bytes are refused as a state.
fn refused_at(alloc: Global, bytes: &[u8]) -> Option<u64> {
    match read_state(alloc, bytes) {
        Err(FileRefusal::Malformed { place }) => Some(place),
        _ => None,
    }
}

// The state of version 1 of one account, 5, with the balance 7.
fn first_version() -> [u8; 101] {
    let mut bytes = [0; 101];
    bytes[0] = 1;
    bytes[37] = 1;
    bytes[38] = 5;
    bytes[74] = 7;
    bytes
}

#[test]
fn a_state_is_of_version_1_or_2(rt: HostRuntime) -> Result<(), FileRefusal> {
    for (version, refused) in [(0, Some(0)), (1, None), (2, None), (3, Some(0))] {
        let mut bytes = EMPTY;
        bytes[0] = version;
        assert_eq!(rt;
            refused_at(rt.alloc(), &bytes),
            refused,
            "of version {version}"
        );
    }
    let mut longer = [0; 39];
    longer[0] = 1;
    assert_eq!(rt; refused_at(rt.alloc(), &longer), Some(38));
    let again = is_written_again(rt.alloc(), &EMPTY)?;
    assert!(rt; again);
    Ok(())
}

// The version, the slot and the one account's numbers.
fn numbers_of(state: &State, id: u32) -> Option<(u32, [u64; 4], u32)> {
    let account = state.accounts.get(id)?;
    let numbers = [
        account.balance,
        account.min_accumulate,
        account.min_transfer,
        account.gratis,
    ];
    Some((state.version, numbers, account.created))
}

#[test]
fn version_1_has_fewer_fields(rt: HostRuntime) -> Result<(), FileRefusal> {
    let bytes = first_version();
    let state = read_state(rt.alloc(), &bytes)?;
    assert!(rt; numbers_of(&state, 5) == Some((1, [7, 0, 0, 0], 0)));
    let again = is_written_again(rt.alloc(), &bytes)?;
    assert!(rt; again);
    let mut as_second = bytes;
    as_second[0] = 2;
    assert_eq!(rt; refused_at(rt.alloc(), &as_second), Some(98));
    Ok(())
}

// Of a file of these fields that is cut to a length: where the last field ends that is whole.
fn whole_fields(fields: &[u64], length: u64) -> u64 {
    let mut place = 0u64;
    for size in fields {
        let end = place.saturating_add(*size);
        if end > length {
            return place;
        }
        place = end;
    }
    place
}

// The first length to which the bytes are cut and are not refused at the end of the last whole field.
fn odd_one_out(alloc: Global, bytes: &[u8], fields: &[u64]) -> Option<usize> {
    for length in 0..bytes.len() {
        let place = refused_at(alloc, &bytes[..length]);
        if place != Some(whole_fields(fields, length as u64)) {
            return Some(length);
        }
    }
    None
}

#[test]
fn two_accounts(rt: HostRuntime) -> Result<(), FileRefusal> {
    let state = read_state(rt.alloc(), &TWO)?;
    assert!(rt; numbers_of(&state, 1) == Some((2, [2, 10, 20, 50], 60)));
    assert!(rt; numbers_of(&state, 256) == Some((2, [1, 11, 21, 30], 40)));
    let again = is_written_again(rt.alloc(), &TWO)?;
    assert!(rt; again);
    assert_eq!(rt; odd_one_out(rt.alloc(), &TWO, &FIELDS), None);
    Ok(())
}
