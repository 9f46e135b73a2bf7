//! Texts, and what they are assembled to.
use pvm_asm::{AsmKind, AsmRefusal, assemble};
use std::alloc::Global;
use std::process::Abort;

fn is_assembled(rt: &impl Abort, alloc: Global, text: &str, wanted: &[u8]) {
    match assemble(alloc, text) {
        Ok(bytes) => assert!(rt; bytes.as_slice() == wanted, "{text}"),
        Err(_) => panic!(rt; "refused: {text}"),
    }
}

fn is_refused(rt: &impl Abort, alloc: Global, text: &str, line: u64, kind: AsmKind) {
    match assemble(alloc, text) {
        Ok(_) => panic!(rt; "accepted: {text}"),
        Err(refusal) => assert!(rt; refusal == AsmRefusal::BadLine { line, kind }, "{text}"),
    }
}

#[test]
fn texts_are_assembled(rt: HostRuntime) {
    let alloc = rt.alloc();
    is_assembled(
        &rt,
        alloc,
        ".raw\nload_imm r7, 42\nload_imm r0, -65536\njump_ind r0, 0\n",
        &[
            0x00, 0x00, 0x0a, 0x33, 0x07, 0x2a, 0x33, 0x00, 0x00, 0x00, 0xff, 0x32, 0x00, 0x09,
            0x01,
        ],
    );
    is_assembled(
        &rt,
        alloc,
        ".standard\n.heap 1\nsbrk r2, r8\ntrap\n",
        &[
            0x00, 0x00, 0x00, 0x00, 0x00, 0x00, 0x01, 0x00, 0x00, 0x00, 0x00, 0x07, 0x00, 0x00,
            0x00, 0x00, 0x00, 0x03, 0x65, 0x82, 0x00, 0x05,
        ],
    );
    is_assembled(
        &rt,
        alloc,
        ".code\n.meta 0102\n.stack 5\ntrap",
        &[
            0x02, 0x01, 0x02, 0x00, 0x00, 0x00, 0x00, 0x00, 0x00, 0x00, 0x00, 0x05, 0x00, 0x00,
            0x05, 0x00, 0x00, 0x00, 0x00, 0x00, 0x01, 0x00, 0x01,
        ],
    );
    is_assembled(
        &rt,
        alloc,
        ".raw\nload_imm r1, 128\nload_imm r1, 127\nload_imm r1, -128\nload_imm r1, -129",
        &[
            0x00, 0x00, 0x0e, 0x33, 0x01, 0x80, 0x00, 0x33, 0x01, 0x7f, 0x33, 0x01, 0x80, 0x33,
            0x01, 0x7f, 0xff, 0x91, 0x04,
        ],
    );
    is_assembled(
        &rt,
        alloc,
        ".raw\nload_imm_64 r1, 18446744073709551615\nload_imm_64 r1, -9223372036854775808",
        &[
            0x00, 0x00, 0x14, 0x14, 0x01, 0xff, 0xff, 0xff, 0xff, 0xff, 0xff, 0xff, 0xff, 0x14,
            0x01, 0x00, 0x00, 0x00, 0x00, 0x00, 0x00, 0x00, 0x80, 0x01, 0x04, 0x00,
        ],
    );
    is_assembled(
        &rt,
        alloc,
        ".raw\njump -0x1\njump =1\nx: jump x\n",
        &[
            0x00, 0x00, 0x0c, 0x28, 0xff, 0x28, 0xff, 0xff, 0xff, 0xff, 0x28, 0x00, 0x00, 0x00,
            0x00, 0x85, 0x00,
        ],
    );
    is_assembled(
        &rt,
        alloc,
        ".raw\n.jumps 18446744073709551615\n",
        &[
            0xff, 0xff, 0xff, 0xff, 0xff, 0xff, 0xff, 0xff, 0xff, 0x00, 0x00,
        ],
    );
    is_assembled(
        &rt,
        alloc,
        ".raw\r\n.width 2 # of each\r\n.jump end\r\n.jump =0\r\n.lead 00FF\r\n\r\nfirst: add_imm_64 r7,r7,-128\r\nend:\t.unit 00\r\n",
        &[
            0x02, 0x02, 0x06, 0x05, 0x00, 0x00, 0x00, 0x00, 0xff, 0x95, 0x77, 0x80, 0x00, 0x24,
        ],
    );
}

#[test]
fn lines_are_refused(rt: HostRuntime) {
    let alloc = rt.alloc();
    is_refused(&rt, alloc, "", 1, AsmKind::MissingHeader);
    is_refused(&rt, alloc, "a:\n.raw", 1, AsmKind::Misplaced);
    is_refused(&rt, alloc, ".raw\nload_im r7, 1", 2, AsmKind::UnknownName);
    is_refused(&rt, alloc, ".raw\n1a:", 2, AsmKind::UnknownName);
    is_refused(&rt, alloc, ".raw\n.ro 00\n", 2, AsmKind::Misplaced);
    is_refused(&rt, alloc, ".raw\nload_imm r13, 1", 2, AsmKind::BadOperands);
    is_refused(
        &rt,
        alloc,
        ".raw\nload_imm r1, -0x1",
        2,
        AsmKind::BadOperands,
    );
    is_refused(
        &rt,
        alloc,
        ".raw\nadd_64 r1,,r2,r3",
        2,
        AsmKind::BadOperands,
    );
    is_refused(
        &rt,
        alloc,
        ".raw\nload_imm r7, 2147483648",
        2,
        AsmKind::OutOfRange,
    );
    is_refused(
        &rt,
        alloc,
        ".raw\n.jumps 1\n.width 1\n",
        2,
        AsmKind::OutOfRange,
    );
    is_refused(&rt, alloc, ".raw\njump =-1", 2, AsmKind::OutOfRange);
    is_refused(&rt, alloc, ".raw\na:\na: jump x\n", 3, AsmKind::DoubleLabel);
    is_refused(&rt, alloc, ".raw\njump x\n", 2, AsmKind::UnknownLabel);
    is_refused(&rt, alloc, ".raw\ntrap\r", 2, AsmKind::UnknownName);
}
