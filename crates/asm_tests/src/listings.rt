//! Blobs, and their listings.
use pvm_asm::assemble;
use pvm_disasm::{ListRefusal, list};
use std::alloc::Global;
use std::process::Abort;

// The listing of a blob, which is assembled to it again.
fn is_listed(rt: &impl Abort, alloc: Global, blob: &[u8], wanted: &str) {
    match list(alloc, blob) {
        Ok(text) => {
            assert!(rt; text.as_str() == wanted, "{text}");
            assert!(rt; text.len() / 40 < blob.len(), "{text}");
            match assemble(alloc, text.as_str()) {
                Ok(bytes) => assert!(rt; bytes.as_slice() == blob, "{text}"),
                Err(_) => panic!(rt; "refused: {text}"),
            }
        }
        Err(_) => panic!(rt; "not listed: {wanted}"),
    }
}

#[test]
fn blobs_of_the_worked_examples_are_listed(rt: HostRuntime) {
    let alloc = rt.alloc();
    let rows: [(&[u8], &str); 6] = [
        (
            &[0, 0, 10, 0x33, 7, 42, 0x33, 0, 0, 0, 0xff, 0x32, 0, 9, 1],
            ".raw\n.width 0\nload_imm r7, 42\nload_imm r0, -65536\njump_ind r0, 0\n",
        ),
        (
            &[0, 0, 3, 0x0a, 7, 0, 1],
            ".raw\n.width 0\n.unit 0a0700 # ecalli\n",
        ),
        (&[0, 0, 1, 2, 1], ".raw\n.width 0\n.unit 02 # ?\n"),
        (&[0, 0, 2, 0, 0, 2], ".raw\n.width 0\n.lead 00\ntrap\n"),
        (
            b"\xff\xff\xff\xff\xff\xff\xff\xff\xff\0\0",
            ".raw\n.width 0\n.jumps 18446744073709551615\n",
        ),
        (&[0, 0, 0], ".raw\n.width 0\n"),
    ];
    for (blob, wanted) in rows {
        is_listed(&rt, alloc, blob, wanted);
    }
}

// Each row has what an edge of the listing's rule makes of it.
#[test]
fn edges_are_listed_in_bytes_or_by_name(rt: HostRuntime) {
    let alloc = rt.alloc();
    let rows: [(&[u8], &str); 11] = [
        // An immediate of 4 bytes that 2 hold.
        (
            &[0, 0, 6, 0x33, 1, 0xff, 0x7f, 0, 0, 1],
            ".raw\n.width 0\n.unit 3301ff7f0000 # load_imm\n",
        ),
        // The least and the greatest immediates.
        (
            &[
                0, 0, 12, 0x33, 1, 0, 0, 0, 0x80, 0x33, 1, 0xff, 0xff, 0xff, 0x7f, 0x41, 0,
            ],
            ".raw\n.width 0\nload_imm r1, -2147483648\nload_imm r1, 2147483647\n",
        ),
        // A wide immediate with its sign, and one that is not whole.
        (
            &[
                0, 0, 10, 20, 3, 255, 255, 255, 255, 255, 255, 255, 255, 1, 0,
            ],
            ".raw\n.width 0\nload_imm_64 r3, -1\n",
        ),
        (
            &[0, 0, 4, 20, 3, 1, 0, 1],
            ".raw\n.width 0\n.unit 14030100 # load_imm_64\n",
        ),
        // Register 13, and a high half that is not 0.
        (
            &[0, 0, 3, 0xc8, 0x2d, 1, 1],
            ".raw\n.width 0\n.unit c82d01 # add_64\n",
        ),
        (
            &[0, 0, 3, 0x33, 0x17, 42, 1],
            ".raw\n.width 0\n.unit 33172a # load_imm\n",
        ),
        // Targets: a place in 4 bytes, an offset in 1, of 0, below 0, and below 0 in 4 bytes that 1 holds.
        (
            &[0, 0, 8, 40, 4, 0, 0, 0, 40, 0xfd, 0, 0xa1],
            ".raw\n.width 0\njump =4\njump -3\ntrap\n",
        ),
        (
            &[0, 0, 4, 40, 40, 0x80, 0, 0x0b],
            ".raw\n.width 0\njump +0\njump -128\ntrap\n",
        ),
        (
            &[0, 0, 5, 40, 0xff, 0xff, 0xff, 0xff, 1],
            ".raw\n.width 0\n.unit 28ffffffff # jump\n",
        ),
        // A unit of 30 bytes, which no instruction has.
        (
            b"\0\0\x1e\0\0\0\0\0\0\0\0\0\0\0\0\0\0\0\0\0\0\0\0\0\0\0\0\0\0\0\0\0\0\x01\0\0\0",
            ".raw\n.width 0\n.unit 000000000000000000000000000000000000000000000000000000000000 # trap\n",
        ),
        // Entries of 2 bytes, the last of them too.
        (
            &[3, 2, 1, 0, 0, 1, 0, 0xff, 0xff, 1, 1],
            ".raw\n.width 2\n.jump =0\n.jump =1\n.jump =65535\nfallthrough\n",
        ),
    ];
    for (blob, wanted) in rows {
        is_listed(&rt, alloc, blob, wanted);
    }
}

// Each form of arguments, by name.
#[test]
fn each_form_is_listed_by_name(rt: HostRuntime) {
    let alloc = rt.alloc();
    let text =
        ".raw\n.width 4\n.jump =7\ntrap\necalli 5\nload_imm_64 r12, 9223372036854775807\nstore_imm_u8 -1, 128\njump =0\nload_imm r11, 0\nstore_imm_ind_u16 r10, 1, -2\nload_imm_jump r9, -129, +5\nbranch_eq_imm r8, 0, =0\nmove_reg r7, r6\nadd_imm_64 r5, r4, -8388608\nbranch_ne r3, r2, -1\nload_imm_jump_ind r1, r0, 32767, 8388607\nmin_u r2, r1, r12\n";
    match assemble(alloc, text) {
        Ok(blob) => is_listed(&rt, alloc, &blob, text),
        Err(_) => panic!(rt; "refused: {text}"),
    }
}

#[test]
fn what_is_no_blob_is_refused_at_its_place(rt: HostRuntime) {
    let alloc = rt.alloc();
    let rows: [(&[u8], u64); 5] = [
        (&[], 0),
        (&[0, 9, 0], 1),
        (&[0, 0, 1, 2], 4),
        (&[0, 0, 1, 2, 3], 4),
        (&[0, 0, 0, 0], 3),
    ];
    for (bytes, place) in rows {
        match list(alloc, bytes) {
            Ok(_) => panic!(rt; "listed"),
            Err(refusal) => assert!(rt; refusal == ListRefusal::NotProgram { place }, "{place}"),
        }
    }
}
