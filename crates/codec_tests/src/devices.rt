//! Each call with ample memory. The expected answers were set by hand.
use jam_outside::{
    MemSink, MemVault, OutsideError, ReadRefusal, Sink, SureSink, SureVault, Vault, read_whole,
};
use std::alloc::{AllocError, Global};
use std::collections::BTreeMap;
use std::process::Abort;
use std::test::Fail;

fn count_up(bytes: &mut [u8]) {
    for (i, byte) in bytes.iter_mut().enumerate() {
        *byte = (i % 251) as u8;
    }
}

// Byte i is i modulo 251.
fn long_bytes(alloc: Global, length: usize) -> Result<Vec<u8>, AllocError> {
    let mut bytes = vec![in alloc; 0u8; length]?;
    count_up(&mut bytes);
    Ok(bytes)
}

// A whole read from memory that gives these bytes.
fn reads<V: Vault>(
    rt: &impl Abort,
    alloc: Global,
    vault: &mut V,
    (name, limit): (&str, u32),
    wanted: &[u8],
) -> Result<(), ReadRefusal> {
    let bytes = read_whole(alloc, vault, name, u64::from(limit))?;
    assert_eq!(rt; bytes.as_slice(), wanted, "{name} within {limit}");
    Ok(())
}

// A whole read that fails so.
fn refuses<V: Vault>(
    rt: &impl Abort,
    alloc: Global,
    vault: &mut V,
    (name, limit): (&str, u32),
    wanted: ReadRefusal,
) {
    let refused = read_whole(alloc, vault, name, u64::from(limit)).err();
    assert!(rt; refused == Some(wanted), "{name} within {limit}");
}

#[test]
fn a_whole_file_is_read_up_to_the_limit(rt: HostRuntime) -> Result<(), Fail> {
    let alloc = rt.alloc();
    // More than one piece.
    let long = long_bytes(alloc, 70_000)?;
    let mut vault = SureVault::new(alloc, BTreeMap::new(alloc));
    vault.store("long", &long)?;
    reads(&rt, alloc, &mut vault, ("long", 70_000), &long)?;
    reads(&rt, alloc, &mut vault, ("long", 70_001), &long)?;
    refuses(
        &rt,
        alloc,
        &mut vault,
        ("long", 69_999),
        ReadRefusal::TooLong,
    );
    refuses(&rt, alloc, &mut vault, ("long", 0), ReadRefusal::TooLong);
    reads(&rt, alloc, &mut vault, ("absent", 0), b"")?;
    vault.store("short", b"new")?;
    reads(&rt, alloc, &mut vault, ("short", 3), b"new")?;
    // The long file was stored too.
    assert_eq!(rt; vault.stores, 2);
    Ok(())
}

// So many reads failed, the last that of this name.
fn read_faults_are(rt: &impl Abort, vault: &MemVault, faults: u64, failed: &str) {
    assert_eq!(rt; vault.read_faults, faults);
    assert_eq!(rt; vault.failed.as_str(), failed);
}

#[test]
fn listed_reads_fail(rt: HostRuntime) -> Result<(), Fail> {
    let alloc = rt.alloc();
    let listed = Vec::from_slice(alloc, &[2])?;
    let mut vault = MemVault::new(alloc, BTreeMap::new(alloc), listed, Vec::new(alloc));
    vault.store("a", &[1, 2, 3])?;
    refuses(&rt, alloc, &mut vault, ("a", 9), ReadRefusal::ReadFault);
    read_faults_are(&rt, &vault, 1, "a");
    // A whole read that succeeds takes two reads, the second of which finds the end.
    reads(&rt, alloc, &mut vault, ("a", 9), &[1, 2, 3])?;
    read_faults_are(&rt, &vault, 1, "a");
    refuses(
        &rt,
        alloc,
        &mut vault,
        ("absent", 9),
        ReadRefusal::ReadFault,
    );
    read_faults_are(&rt, &vault, 2, "absent");
    reads(&rt, alloc, &mut vault, ("a", 9), &[1, 2, 3])?;
    read_faults_are(&rt, &vault, 2, "absent");
    assert_eq!(rt; vault.reads, 7);
    let mut one = [0];
    assert_eq!(rt; vault.read_at("a", 1, &mut one), Ok(1));
    assert_eq!(rt; one[0], 2);
    Ok(())
}

// A vault of one long file, of which the read of this number fails.
fn failing_read(alloc: Global, bytes: &[u8], read: u64) -> Result<MemVault, OutsideError> {
    let listed = Vec::from_slice(alloc, &[read])?;
    let mut vault = MemVault::new(alloc, BTreeMap::new(alloc), listed, Vec::new(alloc));
    vault.store("long", bytes)?;
    Ok(vault)
}

// The read of this number is from this place.
fn reads_from(
    rt: &impl Abort,
    alloc: Global,
    bytes: &[u8],
    read: u64,
    place: u64,
) -> Result<(), OutsideError> {
    let mut vault = failing_read(alloc, bytes, read)?;
    refuses(
        rt,
        alloc,
        &mut vault,
        ("long", 70_000),
        ReadRefusal::ReadFault,
    );
    assert_eq!(rt; vault.failed_place, place);
    assert_eq!(rt; vault.reads, read);
    Ok(())
}

#[test]
fn a_whole_file_is_read_from_its_front_on(rt: HostRuntime) -> Result<(), OutsideError> {
    let alloc = rt.alloc();
    let long = long_bytes(alloc, 70_000)?;
    // Two pieces, and then the read that finds the end.
    reads_from(&rt, alloc, &long, 1, 0)?;
    reads_from(&rt, alloc, &long, 2, 65_536)?;
    reads_from(&rt, alloc, &long, 3, 70_000)?;
    Ok(())
}

#[test]
fn a_listed_store_leaves_the_files(rt: HostRuntime) -> Result<(), Fail> {
    let alloc = rt.alloc();
    let listed = Vec::from_slice(alloc, &[3])?;
    let mut vault = MemVault::new(alloc, BTreeMap::new(alloc), Vec::new(alloc), listed);
    vault.store("a", &[1])?;
    vault.store("b", &[4, 5])?;
    assert!(rt; matches!(vault.store("a", &[6]), Err(OutsideError::Failed)));
    assert_eq!(rt; vault.store_faults, 1);
    assert!(rt; vault.store_failed.as_str() == "a");
    reads(&rt, alloc, &mut vault, ("a", 9), &[1])?;
    reads(&rt, alloc, &mut vault, ("b", 9), &[4, 5])?;
    vault.store("a", &[7])?;
    assert_eq!(rt; (vault.stores, vault.store_faults), (4, 1));
    reads(&rt, alloc, &mut vault, ("a", 9), &[7])?;
    Ok(())
}

// Gives the bytes to both sinks, of which the second may fail.
fn puts(
    rt: &impl Abort,
    sure: &mut SureSink,
    failing: &mut MemSink,
    bytes: &str,
    fails: bool,
) -> Result<(), OutsideError> {
    sure.put(bytes.as_bytes())?;
    let answer = failing.put(bytes.as_bytes());
    assert!(rt;
        matches!(answer, Err(OutsideError::Failed)) == fails,
        "at {bytes}"
    );
    Ok(())
}

fn holds(rt: &impl Abort, bytes: &[u8], wanted: &[u8]) {
    assert_eq!(rt; bytes, wanted);
}

#[test]
fn sinks_keep_what_they_take(rt: HostRuntime) -> Result<(), Fail> {
    let alloc = rt.alloc();
    let listed = Vec::from_slice(alloc, &[2])?;
    let mut sure = SureSink::new(alloc);
    let mut failing = MemSink::new(alloc, listed);
    puts(&rt, &mut sure, &mut failing, "ab", false)?;
    puts(&rt, &mut sure, &mut failing, "lost", true)?;
    puts(&rt, &mut sure, &mut failing, "", false)?;
    puts(&rt, &mut sure, &mut failing, "c", false)?;
    holds(&rt, sure.bytes(), b"ablostc");
    holds(&rt, failing.bytes(), b"abc");
    Ok(())
}

fn text_of_outside(alloc: Global, refusal: OutsideError) -> Result<String, AllocError> {
    format!(in alloc; "{refusal}")
}

fn text_of_read(alloc: Global, refusal: ReadRefusal) -> Result<String, AllocError> {
    format!(in alloc; "{refusal}")
}

#[test]
fn refusals_of_devices_as_text(rt: HostRuntime) -> Result<(), AllocError> {
    let failed = text_of_outside(rt.alloc(), OutsideError::Failed)?;
    assert!(rt; failed.as_str() == "the device failed");
    let memory = text_of_outside(rt.alloc(), OutsideError::NoMemory)?;
    assert!(rt; memory.as_str() == "out of memory");
    let fault = text_of_read(rt.alloc(), ReadRefusal::ReadFault)?;
    assert!(rt; fault.as_str() == "a read failed");
    let long = text_of_read(rt.alloc(), ReadRefusal::TooLong)?;
    assert!(rt; long.as_str() == "the file is too long");
    let memory = text_of_read(rt.alloc(), ReadRefusal::NoMemory)?;
    assert!(rt; memory.as_str() == "out of memory");
    Ok(())
}
