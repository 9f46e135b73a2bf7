//! Whole calls with ample memory. The expected blocks are those of the worked examples.
use jam_cli::{Status, jam};
use jam_outside::{MemSink, MemVault, SureSink, SureVault};
use std::alloc::{AllocError, Global};
use std::collections::BTreeMap;
use std::test::Fail;

mod accumulate;

const FIRST_RUN: [u8; 15] = [0, 0, 10, 0x33, 7, 42, 0x33, 0, 0, 0, 0xff, 0x32, 0, 9, 1];

const FIRST_BLOCK: &str =
    "exit halt\npc 8\ngas 97\nr0 18446744073709486080\nr1 0\nr2 0\nr3 0\nr4 0\nr5 0\nr6 0\nr7 42\nr8 0\nr9 0\nr10 0\nr11 0\nr12 0\noutput 0 -\n";

pub fn words_of(alloc: Global, words: &[&str]) -> Result<Vec<String>, AllocError> {
    let mut all = Vec::new(alloc);
    for word in words {
        all.push(String::from_str(alloc, word)?)?;
    }
    Ok(all)
}

fn one_file(alloc: Global, bytes: &[u8]) -> Result<BTreeMap<String, Vec<u8>>, Fail> {
    let mut files = BTreeMap::new(alloc);
    files.insert(
        String::from_str(alloc, "blob")?,
        Vec::from_slice(alloc, bytes)?,
    )?;
    Ok(files)
}

// The block with these lines, and registers r0, r1 and r7; the others are 0.
fn block(alloc: Global, head: &str, r0: u64, r1: u64, r7: u64) -> Result<String, AllocError> {
    let zeros = "r2 0\nr3 0\nr4 0\nr5 0\nr6 0\n";
    let more = "r8 0\nr9 0\nr10 0\nr11 0\nr12 0\noutput 0 -\n";
    format!(in alloc; "{head}\nr0 {r0}\nr1 {r1}\n{zeros}r7 {r7}\n{more}")
}

#[test]
fn runs_print_the_blocks_of_the_worked_examples(rt: HostRuntime) -> Result<(), Fail> {
    let alloc = rt.alloc();
    let start = u64::MAX - 65_535;
    let rows: [(&[u8], &str, &str, u64, u64, u64); 12] = [
        (&FIRST_RUN, "100", "exit halt\npc 8\ngas 97", start, 0, 42),
        (
            &FIRST_RUN,
            "2",
            "exit out-of-gas\npc 8\ngas 0",
            start,
            0,
            42,
        ),
        (&[0, 0, 0], "10", "exit panic\npc 0\ngas 9", 0, 0, 0),
        (&[0, 0, 0], "0", "exit out-of-gas\npc 0\ngas 0", 0, 0, 0),
        (
            b"\xff\xff\xff\xff\xff\xff\xff\xff\xff\0\0",
            "10",
            "exit panic\npc 0\ngas 9",
            0,
            0,
            0,
        ),
        (
            b"\0\0\x08\xaa\0\x05\x64\0\x64\0\0\xa9",
            "10",
            "exit panic\npc 0\ngas 9",
            0,
            0,
            0,
        ),
        (
            b"\0\0\x08\xab\0\x05\x64\0\x64\0\0\xa9",
            "10",
            "exit panic\npc 7\ngas 6",
            0,
            0,
            0,
        ),
        (
            b"\x01\x01\x06\x05\x33\x01\x02\x32\x01\0\x29",
            "10",
            "exit panic\npc 5\ngas 7",
            0,
            2,
            0,
        ),
        (
            b"\0\0\x02\x0a\x07\x01",
            "10",
            "exit host 7\npc 0\ngas 9",
            0,
            0,
            0,
        ),
        // load_u32 r1 at 2^32 - 2, and load_u8 r1 at 65536; sbrk r2, r8
        (
            b"\0\0\x03\x38\x01\xfe\x01",
            "10",
            "exit panic\npc 0\ngas 9",
            0,
            0,
            0,
        ),
        (
            b"\0\0\x05\x34\x01\0\0\x01\x01",
            "10",
            "exit fault 65536\npc 0\ngas 9",
            0,
            0,
            0,
        ),
        (
            b"\0\0\x02\x65\x82\x01",
            "10",
            "exit panic\npc 2\ngas 8",
            0,
            0,
            0,
        ),
    ];
    for (blob, gas, head, r0, r1, r7) in rows {
        let mut vault = SureVault::new(alloc, one_file(alloc, blob)?);
        let mut sink = SureSink::new(alloc);
        let words = words_of(alloc, &["run", "blob", gas])?;
        assert_eq!(rt; jam(alloc, &words, &mut vault, &mut sink), Status::Done);
        let wanted = block(alloc, head, r0, r1, r7)?;
        assert!(rt; sink.bytes() == wanted.as_bytes(), "{head}");
    }
    Ok(())
}

#[test]
fn sums_moves_and_jumps_give_what_the_opcodes_say(rt: HostRuntime) -> Result<(), Fail> {
    let alloc = rt.alloc();
    // load_imm r1, 5; load_imm r2, 7; an instruction; trap. The register that it leaves.
    let rows: [(&[u8], &str); 4] = [
        // add_64 r7 = r1 + r2
        (
            &[0, 0, 10, 0x33, 1, 5, 0x33, 2, 7, 0xc8, 0x21, 7, 0, 0x49, 2],
            "r7 12\n",
        ),
        // sub_64 r7 = r1 - r2
        (
            &[0, 0, 10, 0x33, 1, 5, 0x33, 2, 7, 0xc9, 0x21, 7, 0, 0x49, 2],
            "r7 18446744073709551614\n",
        ),
        // move_reg r7 = r2, and fallthrough
        (
            &[0, 0, 10, 0x33, 1, 5, 0x33, 2, 7, 0x64, 0x27, 1, 0, 0x49, 3],
            "r7 7\n",
        ),
        // ecalli -2
        (
            &[0, 0, 10, 0x33, 1, 5, 0x33, 2, 7, 0x0a, 0xfe, 0, 0, 0x49, 3],
            "exit host 18446744073709551614\n",
        ),
    ];
    for (blob, line) in rows {
        let mut vault = SureVault::new(alloc, one_file(alloc, blob)?);
        let mut sink = SureSink::new(alloc);
        let words = words_of(alloc, &["run", "blob", "10"])?;
        assert_eq!(rt; jam(alloc, &words, &mut vault, &mut sink), Status::Done);
        let text = sink
            .bytes()
            .windows(line.len())
            .any(|part| part == line.as_bytes());
        assert!(rt; text, "{line}");
    }
    Ok(())
}

#[test]
fn hash_prints_the_digests_of_the_worked_examples(rt: HostRuntime) -> Result<(), Fail> {
    let alloc = rt.alloc();
    let rows: [(&[u8], &str); 2] = [
        (
            b"",
            "0e5751c026e543b2e8ab2eb06099daa1d1e5df47778f7787faab45cdf12fe3a8\n",
        ),
        (
            b"abc",
            "bddd813c634239723171ef3fee98579b94964e3bb1cb3e427262c8c068d52319\n",
        ),
    ];
    for (bytes, line) in rows {
        let mut vault = SureVault::new(alloc, one_file(alloc, bytes)?);
        let mut sink = SureSink::new(alloc);
        let words = words_of(alloc, &["hash", "blob"])?;
        assert_eq!(rt; jam(alloc, &words, &mut vault, &mut sink), Status::Done);
        assert!(rt; sink.bytes() == line.as_bytes(), "{line}");
    }
    Ok(())
}

#[test]
fn disasm_prints_the_listings_of_the_worked_examples(rt: HostRuntime) -> Result<(), Fail> {
    let alloc = rt.alloc();
    let rows: [(&[u8], &str); 3] = [
        (
            &FIRST_RUN,
            ".raw\n.width 0\nload_imm r7, 42\nload_imm r0, -65536\njump_ind r0, 0\n",
        ),
        (
            &[0, 0, 3, 0x0a, 7, 0, 1],
            ".raw\n.width 0\n.unit 0a0700 # ecalli\n",
        ),
        (&[0, 0, 2, 0, 0, 2], ".raw\n.width 0\n.lead 00\ntrap\n"),
    ];
    for (blob, listing) in rows {
        let mut vault = SureVault::new(alloc, one_file(alloc, blob)?);
        let mut sink = SureSink::new(alloc);
        let words = words_of(alloc, &["disasm", "blob"])?;
        assert_eq!(rt; jam(alloc, &words, &mut vault, &mut sink), Status::Done);
        assert!(rt; sink.bytes() == listing.as_bytes(), "{listing}");
    }
    Ok(())
}

fn refused(place: u64) -> Status {
    Status::Refused { word: 1, place }
}

#[test]
fn other_words_and_other_blobs_are_refused(rt: HostRuntime) -> Result<(), Fail> {
    let alloc = rt.alloc();
    let run: &[&str] = &["run", "blob", "7"];
    let trace: &[&str] = &["trace", "blob", "4294967295", "7", "aAfF", "1000"];
    let rows: [(&[&str], &[u8], Status); 29] = [
        (&[], &FIRST_RUN, Status::BadWords),
        (&["run", "blob"], &FIRST_RUN, Status::BadWords),
        (&["run", "blob", "7", "7"], &FIRST_RUN, Status::BadWords),
        (&["run", "", "7"], &FIRST_RUN, Status::BadWords),
        (&["run", "blob", "007"], &FIRST_RUN, Status::BadWords),
        (&["run", "blob", "+7"], &FIRST_RUN, Status::BadWords),
        (
            &["run", "blob", "9223372036854775808"],
            &FIRST_RUN,
            Status::BadWords,
        ),
        (&["hash"], &FIRST_RUN, Status::BadWords),
        (&["hash", ""], &FIRST_RUN, Status::BadWords),
        (&["show"], &FIRST_RUN, Status::BadWords),
        (&["show", "blob", "blob"], &FIRST_RUN, Status::BadWords),
        (&["asm", "blob", "blob"], &FIRST_RUN, Status::BadWords),
        (&["disasm"], &FIRST_RUN, Status::BadWords),
        (&["disasm", "blob", "blob"], &FIRST_RUN, Status::BadWords),
        (&["disasm", "blob"], &[0, 9, 0], refused(1)),
        (
            &["trace", "blob", "0", "7", "-"],
            &FIRST_RUN,
            Status::BadWords,
        ),
        (
            &["trace", "blob", "4294967296", "7", "-", "1"],
            &FIRST_RUN,
            Status::BadWords,
        ),
        (
            &["trace", "blob", "0", "7", "0", "1"],
            &FIRST_RUN,
            Status::BadWords,
        ),
        (
            &["trace", "blob", "0", "7", "-", "0"],
            &FIRST_RUN,
            Status::BadWords,
        ),
        (
            &["trace", "blob", "0", "7", "-", "1001"],
            &FIRST_RUN,
            Status::BadWords,
        ),
        // As a standard program, its first 11 bytes ask for 655,360 more.
        (trace, &FIRST_RUN, refused(11)),
        // One that traps at once, whatever the entry.
        (
            trace,
            b"\0\0\0\0\0\0\0\0\0\0\0\x03\0\0\0\0\0\0",
            Status::Done,
        ),
        (&["show", "blob"], &FIRST_RUN, refused(0)),
        // The mask of two bytes begins at 13.
        (run, &FIRST_RUN[..14], refused(13)),
        // A width of 9.
        (run, &[0, 9, 0], refused(1)),
        // A table of 2^67 - 8 bytes.
        (
            run,
            b"\xff\xff\xff\xff\xff\xff\xff\xff\xff\x08\0",
            refused(11),
        ),
        // Nothing, and a byte after the blob.
        (run, &[], refused(0)),
        (run, &[0, 0, 0, 0], refused(3)),
        // 2 is not defined, and acts as trap
        (run, &[0, 0, 1, 2, 1], Status::Done),
    ];
    for (words, blob, status) in rows {
        let mut vault = SureVault::new(alloc, one_file(alloc, blob)?);
        let mut sink = SureSink::new(alloc);
        let words = words_of(alloc, words)?;
        assert_eq!(rt; jam(alloc, &words, &mut vault, &mut sink), status);
        assert_eq!(rt; sink.bytes().is_empty(), status != Status::Done);
    }
    Ok(())
}

#[test]
fn a_run_has_all_of_its_gas(rt: HostRuntime) -> Result<(), Fail> {
    let alloc = rt.alloc();
    // 2^63 - 1 of gas, of which the first run takes 3; 2^63 is no number of a command line.
    let start = u64::MAX - 65_535;
    let mut vault = SureVault::new(alloc, one_file(alloc, &FIRST_RUN)?);
    let mut sink = SureSink::new(alloc);
    let words = words_of(alloc, &["run", "blob", "9223372036854775807"])?;
    assert_eq!(rt; jam(alloc, &words, &mut vault, &mut sink), Status::Done);
    let head = "exit halt\npc 8\ngas 9223372036854775804";
    let wanted = block(alloc, head, start, 0, 42)?;
    assert!(rt; sink.bytes() == wanted.as_bytes());
    Ok(())
}

// How the first run ends where the k-th read and the l-th put fail, and what was printed.
fn ended(alloc: Global, read: u64, put: u64) -> Result<(Status, Vec<u8>, u64), Fail> {
    let reads = Vec::from_slice(alloc, &[read])?;
    let puts = Vec::from_slice(alloc, &[put])?;
    let mut vault = MemVault::new(alloc, one_file(alloc, &FIRST_RUN)?, reads, Vec::new(alloc));
    let mut sink = MemSink::new(alloc, puts);
    let words = words_of(alloc, &["run", "blob", "100"])?;
    let status = jam(alloc, &words, &mut vault, &mut sink);
    let printed = Vec::from_slice(alloc, sink.bytes())?;
    Ok((status, printed, vault.stores))
}

#[test]
fn failing_devices_end_a_call_by_their_cause(rt: HostRuntime) -> Result<(), Fail> {
    let alloc = rt.alloc();
    // A whole read takes two reads, the second of which finds the end; all is printed by one put.
    let rows = [
        (1, 9, Status::ReadFault(1)),
        (2, 9, Status::ReadFault(1)),
        (9, 1, Status::SinkFault),
        (3, 2, Status::Done),
    ];
    for (read, put, wanted) in rows {
        let (status, printed, stores) = ended(alloc, read, put)?;
        assert_eq!(rt; status, wanted);
        assert!(rt; FIRST_BLOCK.as_bytes().starts_with(&printed));
        assert_eq!(rt; printed.len() == FIRST_BLOCK.len(), wanted == Status::Done);
        assert_eq!(rt; stores, 0);
    }
    let mut vault = MemVault::new(
        alloc,
        BTreeMap::new(alloc),
        Vec::new(alloc),
        Vec::new(alloc),
    );
    let mut sink = MemSink::new(alloc, Vec::new(alloc));
    let words = words_of(alloc, &["run", "blob", "100"])?;
    assert_eq!(rt;
        jam(alloc, &words, &mut vault, &mut sink),
        Status::ReadFault(1)
    );
    Ok(())
}
