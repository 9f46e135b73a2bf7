//! Whole calls of `accumulate` with ample memory. The expected bytes were made by another program.
use crate::calls::words_of;
use jam_cli::{Status, jam};
use jam_outside::{MemSink, MemVault};
use std::alloc::Global;
use std::collections::BTreeMap;
use std::test::Fail;

// Services 1 and 2 with balance 1,000. Service 1 awaits "abc", and service 2 has it since slot 5.
const STATE: [u8; 242] = [
    1, 3, 0, 0, 0, 0, 0, 0, 0, 0, 0, 0, 0, 0, 0, 0, 0, 0, 0, 0, 0, 0, 0, 0, 0, 0, 0, 0, 0, 0, 0, 0,
    0, 0, 0, 0, 0, 2, 1, 0, 0, 0, 7, 7, 7, 7, 7, 7, 7, 7, 7, 7, 7, 7, 7, 7, 7, 7, 7, 7, 7, 7, 7, 7,
    7, 7, 7, 7, 7, 7, 7, 7, 7, 7, 232, 3, 0, 0, 0, 0, 0, 0, 0, 0, 0, 0, 0, 0, 0, 0, 0, 0, 0, 0, 0,
    0, 0, 0, 0, 0, 1, 189, 221, 129, 60, 99, 66, 57, 114, 49, 113, 239, 63, 238, 152, 87, 155, 148,
    150, 78, 59, 177, 203, 62, 66, 114, 98, 200, 192, 104, 213, 35, 25, 3, 0, 0, 0, 0, 2, 0, 0, 0,
    7, 7, 7, 7, 7, 7, 7, 7, 7, 7, 7, 7, 7, 7, 7, 7, 7, 7, 7, 7, 7, 7, 7, 7, 7, 7, 7, 7, 7, 7, 7, 7,
    232, 3, 0, 0, 0, 0, 0, 0, 0, 0, 0, 0, 0, 0, 0, 0, 0, 0, 0, 0, 0, 0, 0, 0, 0, 0, 1, 189, 221,
    129, 60, 99, 66, 57, 114, 49, 113, 239, 63, 238, 152, 87, 155, 148, 150, 78, 59, 177, 203, 62,
    66, 114, 98, 200, 192, 104, 213, 35, 25, 3, 0, 0, 0, 1, 5, 0, 0, 0,
];

// Slot 7: "abc" is delivered to service 1, to service 2, and to service 1 again.
const BATCH: [u8; 70] = [
    7, 0, 0, 0, 9, 9, 9, 9, 9, 9, 9, 9, 9, 9, 9, 9, 9, 9, 9, 9, 9, 9, 9, 9, 9, 9, 9, 9, 9, 9, 9, 9,
    9, 9, 9, 9, 0, 0, 0, 0, 0, 0, 0, 0, 0, 3, 1, 0, 0, 0, 3, 97, 98, 99, 2, 0, 0, 0, 3, 97, 98, 99,
    1, 0, 0, 0, 3, 97, 98, 99,
];

// Service 1 has "abc", since slot 7. The state has version 2.
const POSTERIOR: [u8; 274] = [
    2, 7, 0, 0, 0, 9, 9, 9, 9, 9, 9, 9, 9, 9, 9, 9, 9, 9, 9, 9, 9, 9, 9, 9, 9, 9, 9, 9, 9, 9, 9, 9,
    9, 9, 9, 9, 9, 2, 1, 0, 0, 0, 7, 7, 7, 7, 7, 7, 7, 7, 7, 7, 7, 7, 7, 7, 7, 7, 7, 7, 7, 7, 7, 7,
    7, 7, 7, 7, 7, 7, 7, 7, 7, 7, 232, 3, 0, 0, 0, 0, 0, 0, 0, 0, 0, 0, 0, 0, 0, 0, 0, 0, 0, 0, 0,
    0, 0, 0, 0, 0, 0, 0, 0, 0, 0, 0, 0, 0, 0, 0, 0, 1, 3, 97, 98, 99, 1, 189, 221, 129, 60, 99, 66,
    57, 114, 49, 113, 239, 63, 238, 152, 87, 155, 148, 150, 78, 59, 177, 203, 62, 66, 114, 98, 200,
    192, 104, 213, 35, 25, 3, 0, 0, 0, 1, 7, 0, 0, 0, 2, 0, 0, 0, 7, 7, 7, 7, 7, 7, 7, 7, 7, 7, 7,
    7, 7, 7, 7, 7, 7, 7, 7, 7, 7, 7, 7, 7, 7, 7, 7, 7, 7, 7, 7, 7, 232, 3, 0, 0, 0, 0, 0, 0, 0, 0,
    0, 0, 0, 0, 0, 0, 0, 0, 0, 0, 0, 0, 0, 0, 0, 0, 0, 0, 0, 0, 0, 0, 0, 0, 0, 0, 0, 0, 1, 189,
    221, 129, 60, 99, 66, 57, 114, 49, 113, 239, 63, 238, 152, 87, 155, 148, 150, 78, 59, 177, 203,
    62, 66, 114, 98, 200, 192, 104, 213, 35, 25, 3, 0, 0, 0, 1, 5, 0, 0, 0,
];

const LINES: &str =
    "slot 7\nleft-out 0\npreimages 1\naccounts 2\nstate a6805468bdf984e7ecf32631ea99e9bbd48f61c6a93ffa000bb89409d3311793\n";

fn files_of(alloc: Global, state: &[u8], batch: &[u8]) -> Result<BTreeMap<String, Vec<u8>>, Fail> {
    let mut files = BTreeMap::new(alloc);
    for (name, bytes) in [("state", state), ("batch", batch)] {
        files.insert(
            String::from_str(alloc, name)?,
            Vec::from_slice(alloc, bytes)?,
        )?;
    }
    Ok(files)
}

// A vault of these whose read and store of these numbers fail.
fn vault_of(
    alloc: Global,
    state: &[u8],
    batch: &[u8],
    read: u64,
    store: u64,
) -> Result<MemVault, Fail> {
    let reads = Vec::from_slice(alloc, &[read])?;
    let stores = Vec::from_slice(alloc, &[store])?;
    Ok(MemVault::new(alloc, files_of(alloc, state, batch)?, reads, stores))
}

#[test]
fn a_batch_stores_what_is_awaited(rt: HostRuntime) -> Result<(), Fail> {
    let alloc = rt.alloc();
    let mut vault = vault_of(alloc, &STATE, &BATCH, 9, 9)?;
    let mut sink = MemSink::new(alloc, Vec::new(alloc));
    let words = words_of(alloc, &["accumulate", "state", "batch", "post", "0"])?;
    assert_eq!(rt; jam(alloc, &words, &mut vault, &mut sink), Status::Done);
    assert!(rt; sink.bytes() == LINES.as_bytes());
    let stored = vault.files.get("post").ok_or("a posterior")?;
    assert!(rt; stored.as_slice() == POSTERIOR.as_slice());
    let kept = vault.files.get("state").ok_or("a state")?;
    assert!(rt; kept.as_slice() == STATE.as_slice());
    Ok(())
}

#[test]
fn failing_devices_end_accumulate_by_their_cause(rt: HostRuntime) -> Result<(), Fail> {
    let alloc = rt.alloc();
    // Each file takes two reads, the second of which finds the end.
    let rows = [
        (1, 9, 9, Status::ReadFault(1)),
        (2, 9, 9, Status::ReadFault(1)),
        (3, 9, 9, Status::ReadFault(2)),
        (4, 9, 9, Status::ReadFault(2)),
        (9, 1, 9, Status::SinkFault),
        (9, 9, 1, Status::StoreFault),
        (5, 2, 2, Status::Done),
    ];
    for (read, put, store, wanted) in rows {
        let mut vault = vault_of(alloc, &STATE, &BATCH, read, store)?;
        let mut sink = MemSink::new(alloc, Vec::from_slice(alloc, &[put])?);
        let words = words_of(alloc, &["accumulate", "state", "batch", "post", "0"])?;
        assert_eq!(rt; jam(alloc, &words, &mut vault, &mut sink), wanted);
        let all = matches!(wanted, Status::Done | Status::StoreFault);
        assert_eq!(rt; sink.bytes().len() == LINES.len(), all);
        assert!(rt; LINES.as_bytes().starts_with(sink.bytes()));
        assert_eq!(rt; vault.files.contains_key("post"), wanted == Status::Done);
        assert_eq!(rt; vault.stores, u64::from(all));
        assert_eq!(rt;
            vault.read_faults,
            u64::from(matches!(wanted, Status::ReadFault(_)))
        );
        assert_eq!(rt; vault.store_faults, u64::from(wanted == Status::StoreFault));
    }
    Ok(())
}

#[test]
fn files_are_read_in_the_order_of_their_words(rt: HostRuntime) -> Result<(), Fail> {
    let alloc = rt.alloc();
    // Each file takes two reads, at its front and at its end; the k-th fails.
    for (read, name, place) in [
        (1, "state", 0),
        (2, "state", STATE.len() as u64),
        (3, "batch", 0),
        (4, "batch", BATCH.len() as u64),
    ] {
        let mut vault = vault_of(alloc, &STATE, &BATCH, read, 9)?;
        let mut sink = MemSink::new(alloc, Vec::new(alloc));
        let words = words_of(alloc, &["accumulate", "state", "batch", "post", "0"])?;
        let status = jam(alloc, &words, &mut vault, &mut sink);
        assert!(rt; matches!(status, Status::ReadFault(_)));
        assert!(rt; vault.failed.as_str() == name, "at {read}");
        assert_eq!(rt; vault.failed_place, place);
        assert_eq!(rt; vault.reads, read);
        assert_eq!(rt; vault.read_faults, 1);
    }
    // Of two files that are not there, the first is told; of two words with one name, the first.
    for (words, word) in [
        (["accumulate", "one", "two", "post", "0"], 1),
        (["accumulate", "state", "two", "post", "0"], 2),
    ] {
        let mut vault = vault_of(alloc, &STATE, &BATCH, 9, 9)?;
        let mut sink = MemSink::new(alloc, Vec::new(alloc));
        let words = words_of(alloc, &words)?;
        let status = jam(alloc, &words, &mut vault, &mut sink);
        assert_eq!(rt; status, Status::ReadFault(word));
        assert_eq!(rt; vault.stores, 0);
    }
    let mut vault = vault_of(alloc, &STATE, &BATCH, 3, 9)?;
    let mut sink = MemSink::new(alloc, Vec::new(alloc));
    let words = words_of(alloc, &["accumulate", "state", "state", "post", "0"])?;
    assert_eq!(rt;
        jam(alloc, &words, &mut vault, &mut sink),
        Status::ReadFault(1)
    );
    Ok(())
}

#[test]
fn other_words_and_other_files_are_refused(rt: HostRuntime) -> Result<(), Fail> {
    let alloc = rt.alloc();
    let good: &[&str] = &["accumulate", "state", "batch", "post", "0"];
    // The last slot of a history begins at 238, the entropy of a batch at 4, the count of its
    // reports at 44.
    let first = Status::Refused {
        word: 1,
        place: 238,
    };
    let second = Status::Refused { word: 2, place: 4 };
    let count = Status::Refused { word: 2, place: 44 };
    let rows: [(&[&str], &[u8], &[u8], Status); 9] = [
        (
            &["accumulate", "state", "batch", "post"],
            &STATE,
            &BATCH,
            Status::BadWords,
        ),
        (
            &["accumulate", "state", "batch", "post", "1"],
            &STATE,
            &BATCH,
            Status::BadWords,
        ),
        (
            &["accumulate", "state", "batch", "", "0"],
            &STATE,
            &BATCH,
            Status::BadWords,
        ),
        (
            &["accumulate", "state", "batch", "state", "0"],
            &STATE,
            &BATCH,
            Status::BadWords,
        ),
        (
            &["accumulate", "state", "batch", "batch", "0"],
            &STATE,
            &BATCH,
            Status::BadWords,
        ),
        (
            &["accumulate", "state", "state", "post", "0"],
            &STATE,
            &BATCH,
            count,
        ),
        (good, &STATE[..241], &BATCH, first),
        (good, &STATE[..241], &BATCH[..9], first),
        (good, &STATE, &BATCH[..9], second),
    ];
    for (words, state, batch, status) in rows {
        let mut vault = vault_of(alloc, state, batch, 9, 9)?;
        let mut sink = MemSink::new(alloc, Vec::new(alloc));
        let words = words_of(alloc, words)?;
        assert_eq!(rt; jam(alloc, &words, &mut vault, &mut sink), status);
        assert!(rt; sink.bytes().is_empty());
        assert_eq!(rt; vault.stores, 0);
    }
    Ok(())
}
