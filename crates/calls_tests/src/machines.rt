//! The machines that calls are made on.
use crate::words::{hash_of, name_of_result, number, word};
use blob_decode::Program;
use gas_ledger::Ledger;
use paged_memory::Rights;
use pvm_step::{Exit, HostStep, Machine};
use std::alloc::{AllocError, Global};
use std::fmt::Write;
use std::process::Abort;
use std::rc::Rc;

/// What stands at 65,632 and after it.
const LETTERS: &[u8] =
    b"klabcdefghijklmnopqrstuvwxyzabcdefghijklmnopqrstuvwxyzabcdefghijklmnopqrstuvwxyzabcdefghijklmnopqrstuvwxyzabcdefghijklmnopqrstuvwxyz";

// Writes bytes where they may be written.
fn lay(machine: &mut Machine, address: u64, bytes: &[u8]) -> Result<(), AllocError> {
    if !machine.memory.writable(address, bytes.len() as u64) {
        return Err(AllocError);
    }
    machine.memory.copy_in(address, bytes)
}

/// A machine without gas. Its pages 16 and 17 may be written, page 18 may only be read. The digest of "abc" stands
/// at 65,536 (`ABC`), 32 zeros at 65,568 (`ZEROS`), 32 sevens at 65,600 (`SEVENS`), then letters, "k" at 65,632
/// (`K`), "l" at 65,633 (`L`), and the alphabet again and again at 65,634 (`TEXT`). Page 17 is 0, at 69,632
/// (`OUT`); so is page 18, at 73,728 (`LOCKED`). It ends at 77,824 (`GAP`).
pub fn first_machine(alloc: Global) -> Result<Machine, AllocError> {
    let Ok(program) = Program::deblob(alloc, &[0, 0, 0]) else {
        return Err(AllocError);
    };
    let mut machine = Machine::raw(alloc, Rc::new(alloc, program)?, 0, 0);
    machine.memory.set_pages(16, 2, Rights::Write, false)?;
    machine.memory.set_pages(18, 1, Rights::Read, false)?;
    lay(&mut machine, 65_536, &hash_of("abc"))?;
    lay(&mut machine, 65_600, &hash_of("sevens"))?;
    lay(&mut machine, 65_632, LETTERS)?;
    Ok(machine)
}

/// Gives a machine the gas that is the word 2 of a line, and the registers from 7 on the words after it; the others
/// are 6.
pub fn set_words(rt: &impl Abort, machine: &mut Machine, line: &str) {
    machine.ledger = Ledger::new(number(rt, line, 2));
    machine.registers = [6; 13];
    machine.registers[7] = number(rt, line, 3);
    machine.registers[8] = number(rt, line, 4);
    machine.registers[9] = number(rt, line, 5);
    machine.registers[10] = number(rt, line, 6);
    machine.registers[11] = number(rt, line, 7);
    machine.registers[12] = number(rt, line, 8);
}

// Says a word, by its name where it has one.
fn say_word(said: &mut String, word: u64) -> Result<(), AllocError> {
    match name_of_result(word) {
        Some(name) => write!(said, " {name}"),
        None => write!(said, " {word}"),
    }
}

// Says the first four bytes at 69,632, where they are not 0.
fn say_out(said: &mut String, machine: &Machine) -> Result<(), AllocError> {
    let mut bytes = [0; 4];
    if machine.memory.readable(69_632, 4) {
        machine.memory.copy_out(69_632, &mut bytes);
    }
    if bytes != [0; 4] {
        write!(said, " out {bytes:?}")?;
    }
    Ok(())
}

/// What a call on a machine with these registers came to: `go` with register 7 and each other register that is not
/// as before, `panic` or `unpaid`, the gas, and the bytes that were given out.
pub fn came_to(
    alloc: Global,
    step: HostStep,
    before: &[u64; 13],
    machine: &Machine,
) -> Result<String, AllocError> {
    let mut said = String::from_str(
        alloc,
        match step {
            HostStep::Go => "go",
            HostStep::End(Exit::Panic) => "panic",
            HostStep::End(_) => "end",
            HostStep::Unpaid => "unpaid",
        },
    )?;
    for k in 0..13usize {
        if k == 7 && step == HostStep::Go {
            say_word(&mut said, machine.registers[7])?;
        } else if machine.registers[k] != before[k] {
            write!(said, " r{k} {}", machine.registers[k])?;
        }
    }
    write!(said, " gas {}", machine.ledger.left())?;
    say_out(&mut said, machine)?;
    Ok(said)
}

/// The number of the bytes at an address of a machine, as many as the word 2 of a line.
pub fn number_at(
    rt: &impl Abort,
    alloc: Global,
    machine: &Machine,
    line: &str,
) -> Result<String, AllocError> {
    let address = number(rt, line, 1);
    let mut bytes = [0; 8];
    if word(line, 2) == "4" && machine.memory.readable(address, 4) {
        machine.memory.copy_out(address, &mut bytes[..4]);
    } else if machine.memory.readable(address, 8) {
        machine.memory.copy_out(address, &mut bytes);
    }
    u64::from_le_bytes(bytes).to_string(alloc)
}
