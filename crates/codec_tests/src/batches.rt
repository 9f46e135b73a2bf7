//! Files of batches, byte by byte.
use batch_file::{
    Batch, Deliveries, Delivery, Report, ReportItems, Reports, WorkResult, push_delivery,
    push_report, read_batch, take_delivery, take_report, write_batch,
};
use gas_ledger::Schedule;
use jam_codec::{Cursor, FileRefusal};
use jam_fields::{Blob, read_file, write_file};
use std::alloc::{AllocError, Global};

// Slot 7, and nothing else.
const EMPTY: [u8; 46] = [
    7, 0, 0, 0, 0, 0, 0, 0, 0, 0, 0, 0, 0, 0, 0, 0, 0, 0, 0, 0, 0, 0, 0, 0, 0, 0, 0, 0, 0, 0, 0, 0,
    0, 0, 0, 0, 0, 0, 0, 0, 0, 0, 0, 0, 0, 0,
];

const DELIVERED: [u8; 58] = [
    2, 1, 0, 0, 9, 9, 9, 9, 9, 9, 9, 9, 9, 9, 9, 9, 9, 9, 9, 9, 9, 9, 9, 9, 9, 9, 9, 9, 9, 9, 9, 9,
    9, 9, 9, 9, 0xe8, 3, 0, 0, 0, 0, 0, 0, 0, 2, 5, 0, 0, 0, 2, 0xaa, 0xbb, 1, 0, 0, 0, 0,
];

// Four items of service 5, with an output of one byte, out of gas, a panic and no code.
const RESULTS: [u8; 215] = [
    3, 3, 3, 3, 3, 3, 3, 3, 3, 3, 3, 3, 3, 3, 3, 3, 3, 3, 3, 3, 3, 3, 3, 3, 3, 3, 3, 3, 3, 3, 3, 3,
    4, 5, 0, 0, 0, 6, 0, 0, 0, 0, 0, 0, 0, 4, 4, 4, 4, 4, 4, 4, 4, 4, 4, 4, 4, 4, 4, 4, 4, 4, 4, 4,
    4, 4, 4, 4, 4, 4, 4, 4, 4, 4, 4, 4, 4, 0, 1, 7, 5, 0, 0, 0, 6, 0, 0, 0, 0, 0, 0, 0, 4, 4, 4, 4,
    4, 4, 4, 4, 4, 4, 4, 4, 4, 4, 4, 4, 4, 4, 4, 4, 4, 4, 4, 4, 4, 4, 4, 4, 4, 4, 4, 4, 1, 5, 0, 0,
    0, 6, 0, 0, 0, 0, 0, 0, 0, 4, 4, 4, 4, 4, 4, 4, 4, 4, 4, 4, 4, 4, 4, 4, 4, 4, 4, 4, 4, 4, 4, 4,
    4, 4, 4, 4, 4, 4, 4, 4, 4, 2, 5, 0, 0, 0, 6, 0, 0, 0, 0, 0, 0, 0, 4, 4, 4, 4, 4, 4, 4, 4, 4, 4,
    4, 4, 4, 4, 4, 4, 4, 4, 4, 4, 4, 4, 4, 4, 4, 4, 4, 4, 4, 4, 4, 4, 3,
];

// The bytes as they are written again after they were read.
fn written_again(alloc: Global, bytes: &[u8]) -> Result<Vec<u8>, FileRefusal> {
    let batch = read_batch(alloc, bytes)?;
    let again = write_batch(alloc, &batch)?;
    Ok(again)
}

fn refusal_of(alloc: Global, bytes: &[u8]) -> Option<FileRefusal> {
    read_batch(alloc, bytes).err()
}

#[test]
fn reads_and_writes_an_empty_batch(rt: HostRuntime) -> Result<(), FileRefusal> {
    let again = written_again(rt.alloc(), &EMPTY)?;
    assert!(rt; again.as_slice() == EMPTY.as_slice());
    let batch = read_batch(rt.alloc(), &again)?;
    assert_eq!(rt; (batch.slot, batch.gas), (7, 0));
    assert!(rt; batch.entropy == [0; 32]);
    assert!(rt; batch.preimages.as_slice().is_empty());
    assert!(rt; batch.reports.as_slice().is_empty());
    assert!(rt; batch.reports.into_vec().is_empty());
    assert!(rt; batch.schedule.is_none());
    Ok(())
}

#[test]
fn bytes_that_spell_no_batch(rt: HostRuntime) {
    let mut one_report = EMPTY;
    one_report[44] = 1;
    // A count of 2^64 - 1 deliveries, and nothing behind it.
    let mut many = [0xff; 54];
    many[..45].copy_from_slice(&EMPTY[..45]);
    let table: [(&[u8], u64); 2] = [(&one_report, 44), (&many, 54)];
    for (bytes, place) in table {
        let refusal = refusal_of(rt.alloc(), bytes);
        assert!(rt;
            refusal == Some(FileRefusal::Malformed { place }),
            "to {place}"
        );
    }
}

// The empty batch and a schedule: the forms cost 1 to 13, and the calls 266 to 293.
const SCHEDULED: [u8; 116] = [
    7, 0, 0, 0, 0, 0, 0, 0, 0, 0, 0, 0, 0, 0, 0, 0, 0, 0, 0, 0, 0, 0, 0, 0, 0, 0, 0, 0, 0, 0, 0, 0,
    0, 0, 0, 0, 0, 0, 0, 0, 0, 0, 0, 0, 0, 0, 1, 1, 2, 3, 4, 5, 6, 7, 8, 9, 10, 11, 12, 13, 10, 1,
    11, 1, 12, 1, 13, 1, 14, 1, 15, 1, 16, 1, 17, 1, 18, 1, 19, 1, 20, 1, 21, 1, 22, 1, 23, 1, 24,
    1, 25, 1, 26, 1, 27, 1, 28, 1, 29, 1, 30, 1, 31, 1, 32, 1, 33, 1, 34, 1, 35, 1, 36, 1, 37, 1,
];

fn wanted_schedule() -> Option<Schedule> {
    let calls = [
        266, 267, 268, 269, 270, 271, 272, 273, 274, 275, 276, 277, 278, 279, 280, 281, 282, 283,
        284, 285, 286, 287, 288, 289, 290, 291, 292, 293,
    ];
    Schedule::of([1, 2, 3, 4, 5, 6, 7, 8, 9, 10, 11, 12, 13], calls)
}

fn schedule_of(alloc: Global, bytes: &[u8]) -> Result<Option<Schedule>, FileRefusal> {
    let batch = read_batch(alloc, bytes)?;
    Ok(batch.schedule)
}

#[test]
fn a_batch_with_a_schedule(rt: HostRuntime) -> Result<(), FileRefusal> {
    let again = written_again(rt.alloc(), &SCHEDULED)?;
    assert!(rt; again.as_slice() == SCHEDULED.as_slice());
    let schedule = schedule_of(rt.alloc(), &SCHEDULED)?;
    assert!(rt; schedule.is_some());
    assert!(rt; schedule == wanted_schedule());
    Ok(())
}

// Why the bytes of that batch with another at one place spell none.
fn refusal_with_cost(alloc: Global, at: usize, byte: u8) -> Option<FileRefusal> {
    let mut bytes = SCHEDULED;
    if let Some(place) = bytes.get_mut(at) {
        *place = byte;
    }
    refusal_of(alloc, &bytes)
}

#[test]
fn costs_that_do_not_spell(rt: HostRuntime) {
    // The tag; a form's cost of 0; a call's of 9, but not of 265 or 37.
    let table = [(46, 0), (46, 2), (47, 0), (59, 0)];
    for (at, byte) in table {
        let refusal = refusal_with_cost(rt.alloc(), at, byte);
        let wanted = Some(FileRefusal::Malformed { place: at as u64 });
        assert!(rt; refusal == wanted, "at {at}");
    }
    assert!(rt; refusal_with_cost(rt.alloc(), 60, 9).is_none());
    assert!(rt; refusal_with_cost(rt.alloc(), 115, 0).is_none());
    let mut nine = SCHEDULED;
    nine[114] = 9;
    nine[115] = 0;
    let refusal = refusal_of(rt.alloc(), &nine);
    assert!(rt; refusal == Some(FileRefusal::Malformed { place: 114 }));
}

// Where the refusal of the first bytes of a batch with a schedule is.
fn place_within_schedule(length: usize) -> Option<FileRefusal> {
    let place = match length {
        46 | 116 => return None,
        60.. => length as u64 / 2 * 2,
        _ => length as u64,
    };
    Some(FileRefusal::Malformed { place })
}

#[test]
fn a_schedule_is_there_whole_or_not_at_all(rt: HostRuntime) {
    for length in 46..117usize {
        let refusal = refusal_of(rt.alloc(), &SCHEDULED[..length]);
        assert!(rt; refusal == place_within_schedule(length), "of {length}");
    }
    let mut longer = [0; 117];
    longer[..116].copy_from_slice(&SCHEDULED);
    let refusal = refusal_of(rt.alloc(), &longer);
    assert!(rt; refusal == Some(FileRefusal::Malformed { place: 116 }));
}

#[test]
fn no_prefix_is_a_batch(rt: HostRuntime) {
    for length in 0..EMPTY.len() {
        let place = match length {
            0..=3 => 0,
            4..=35 => 4,
            36..=43 => 36,
            _ => length as u64,
        };
        let refusal = refusal_of(rt.alloc(), &EMPTY[..length]);
        assert!(rt;
            refusal == Some(FileRefusal::Malformed { place }),
            "of {length}"
        );
    }
}

fn delivery(alloc: Global, service: u32, bytes: &[u8]) -> Result<Delivery, AllocError> {
    let bytes = Vec::from_slice(alloc, bytes)?;
    let bytes = Blob::new(bytes);
    Ok(Delivery { service, bytes })
}

// A batch with two deliveries.
fn delivering(alloc: Global) -> Result<Batch, FileRefusal> {
    let first = delivery(alloc, 5, &[0xaa, 0xbb])?;
    let second = delivery(alloc, 1, &[])?;
    let mut deliveries = Vec::new(alloc);
    deliveries.push(first)?;
    deliveries.push(second)?;
    Ok(Batch {
        slot: 0x102,
        entropy: [9; 32],
        gas: 1000,
        reports: Reports::new(Vec::new(alloc)),
        preimages: Deliveries::new(deliveries),
        schedule: None,
    })
}

#[test]
fn two_deliveries(rt: HostRuntime) -> Result<(), FileRefusal> {
    let batch = delivering(rt.alloc())?;
    let bytes = write_batch(rt.alloc(), &batch)?;
    assert!(rt; bytes.as_slice() == DELIVERED.as_slice());
    let read = read_batch(rt.alloc(), &bytes)?;
    assert_eq!(rt; (read.slot, read.gas), (batch.slot, batch.gas));
    assert!(rt; read.entropy == batch.entropy);
    let left = read.preimages.into_vec();
    assert_eq!(rt; left.len(), 2);
    for (left, right) in left.iter().zip(batch.preimages.as_slice()) {
        assert_eq!(rt; left.service, right.service);
        assert!(rt; left.bytes.as_slice() == right.bytes.as_slice());
    }
    Ok(())
}

// A report that is written again after it was read.
fn report_again(alloc: Global, bytes: &[u8]) -> Result<Vec<u8>, FileRefusal> {
    let report: Report = read_file(alloc, bytes)?;
    let again = write_file(alloc, &report)?;
    Ok(again)
}

fn results_of(alloc: Global, bytes: &[u8]) -> Result<ReportItems, FileRefusal> {
    let report: Report = read_file(alloc, bytes)?;
    Ok(ReportItems::new(report.items.into_vec()))
}

// Why the bytes with another at one place spell no report.
fn refusal_with(
    alloc: Global,
    bytes: &[u8],
    at: usize,
    byte: u8,
) -> Result<Option<FileRefusal>, AllocError> {
    let mut changed = Vec::from_slice(alloc, bytes)?;
    if let Some(place) = changed.get_mut(at) {
        *place = byte;
    }
    let read: Result<Report, FileRefusal> = read_file(alloc, &changed);
    Ok(read.err())
}

#[test]
fn results_by_their_tags(rt: HostRuntime) -> Result<(), FileRefusal> {
    let again = report_again(rt.alloc(), &RESULTS)?;
    assert!(rt; again.as_slice() == RESULTS.as_slice());
    let items = results_of(rt.alloc(), &again)?;
    assert_eq!(rt; items.as_slice().len(), 4);
    if let [output, out_of_gas, panic, no_code] = items.as_slice() {
        assert!(rt;
            matches!(&output.result, WorkResult::Output(bytes) if bytes.as_slice() == b"\x07".as_slice())
        );
        assert!(rt; matches!(&out_of_gas.result, WorkResult::OutOfGas));
        assert!(rt; matches!(&panic.result, WorkResult::Panic));
        assert!(rt; matches!(&no_code.result, WorkResult::NoCode));
    }
    for (at, byte, place) in [(32, 17, 32), (77, 4, 77), (214, 4, 214)] {
        let refusal = refusal_with(rt.alloc(), &again, at, byte)?;
        assert!(rt;
            refusal == Some(FileRefusal::Malformed { place }),
            "to {place}"
        );
    }
    Ok(())
}

// The first delivery of these bytes, pushed again behind a byte, and the place after it.
fn delivery_again(alloc: Global, bytes: &[u8]) -> Result<(Vec<u8>, u64), FileRefusal> {
    let mut cursor = Cursor::new(bytes);
    let delivery = take_delivery(alloc, &mut cursor)?;
    let mut out = Vec::from_slice(alloc, &[0x77])?;
    push_delivery(&mut out, &delivery)?;
    Ok((out, cursor.place()))
}

#[test]
fn a_delivery_is_taken_and_pushed(rt: HostRuntime) -> Result<(), FileRefusal> {
    let (out, place) = delivery_again(rt.alloc(), &[5, 0, 0, 0, 2, 0xaa, 0xbb, 1])?;
    assert!(rt; out.as_slice() == [0x77, 5, 0, 0, 0, 2, 0xaa, 0xbb].as_slice());
    assert_eq!(rt; place, 7);
    let table: [(&[u8], u64); 3] = [
        (&[5, 0, 0], 0),
        (&[5, 0, 0, 0], 4),
        (&[5, 0, 0, 0, 2, 1], 5),
    ];
    for (bytes, place) in table {
        let refusal = delivery_again(rt.alloc(), bytes).err();
        assert!(rt;
            refusal == Some(FileRefusal::Malformed { place }),
            "to {place}"
        );
    }
    Ok(())
}

// The report of these bytes, pushed again behind a byte, and the place after it.
fn report_pushed(alloc: Global, bytes: &[u8]) -> Result<(Vec<u8>, u64), FileRefusal> {
    let mut cursor = Cursor::new(bytes);
    let report = take_report(alloc, &mut cursor)?;
    let mut out = Vec::from_slice(alloc, &[0x77])?;
    push_report(&mut out, &report)?;
    Ok((out, cursor.place()))
}

#[test]
fn a_report_is_taken_and_pushed(rt: HostRuntime) -> Result<(), FileRefusal> {
    let (out, place) = report_pushed(rt.alloc(), &RESULTS)?;
    assert_eq!(rt; (out.first(), out.len(), place), (Some(&0x77), 216, 215));
    assert!(rt; out.ends_with(&RESULTS));
    let refusal = report_pushed(rt.alloc(), &RESULTS[..77]).err();
    assert!(rt; refusal == Some(FileRefusal::Malformed { place: 77 }));
    Ok(())
}
