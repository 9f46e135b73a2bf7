// The bytes of lines.
ghost use Rattle.std.specs.Prelude.{◌≡◌, ◌++◌, ◌∷◌, [], ℕ, OnOk, IfOk, string_bytes, codes, decimal};
ghost use Rattle.hex.specs.Hex.{encode_lower};
ghost use Rattle.pvm_isa.specs.Opcodes.{name_of};
ghost use Rattle.trace_text.specs.Transcript.{line_of, number_line, exit_line, shown, shown_if_any, account_line, line_bytes, text_of};

use crate::line::Line;
use pvm_isa::{Op, name_of};
use pvm_step::Exit;
use std::alloc::{AllocError, Global};

fn push_name(text: &mut String, name: &str) -> Result<(), AllocError>
    ensures { OnOk result (string_bytes text.new ≡ string_bytes text.old ++ line_of name.now []) }
{
    writeln!(text, "{name}")
}

fn push_number(text: &mut String, name: &str, number: u64) -> Result<(), AllocError>
    ensures { OnOk result (string_bytes text.new ≡ string_bytes text.old ++ number_line name.now number) }
{
    writeln!(text, "{name} {number}")
}

fn push_small(text: &mut String, name: &str, number: u32) -> Result<(), AllocError>
    ensures { OnOk result (string_bytes text.new ≡ string_bytes text.old ++ number_line name.now number) }
{
    writeln!(text, "{name} {number}")
}

fn push_sum(text: &mut String, name: &str, sum: u128) -> Result<(), AllocError>
    ensures { OnOk result (string_bytes text.new ≡ string_bytes text.old ++ number_line name.now sum) }
{
    writeln!(text, "{name} {sum}")
}

fn push_word(text: &mut String, name: &str, word: &str) -> Result<(), AllocError>
    ensures { OnOk result (string_bytes text.new ≡ string_bytes text.old ++ line_of name.now (word.now ∷ [])) }
{
    writeln!(text, "{name} {word}")
}

fn push_bytes(alloc: Global, text: &mut String, name: &str, bytes: &[u8]) -> Result<(), AllocError>
    ensures { OnOk result (string_bytes text.new ≡ string_bytes text.old ++ line_of name.now (encode_lower bytes.now ∷ [])) }
{
    let digits = hex::encode(alloc, bytes)?;
    push_word(text, name, digits.as_str())
}

fn push_yield(
    alloc: Global,
    text: &mut String,
    yielded: &Option<[u8; 32]>,
) -> Result<(), AllocError>
    ensures { OnOk result (string_bytes text.new ≡ string_bytes text.old ++ line_of (codes "yield") (shown_if_any yielded.now ∷ [])) }
{
    match yielded {
        None => push_word(text, "yield", "-"),
        Some(bytes) => push_bytes(alloc, text, "yield", bytes),
    }
}

fn push_digest(alloc: Global, text: &mut String, digest: &[u8; 32]) -> Result<(), AllocError>
    ensures { OnOk result (string_bytes text.new ≡ string_bytes text.old ++ line_of (encode_lower digest.now) []) }
{
    let digits = hex::encode(alloc, digest)?;
    push_name(text, digits.as_str())
}

fn push_size(
    alloc: Global,
    text: &mut String,
    bytes: u64,
    digest: &[u8; 32],
) -> Result<(), AllocError>
    ensures { OnOk result (string_bytes text.new ≡ string_bytes text.old ++ line_of (codes "bytes") (decimal bytes ∷ (encode_lower digest.now ∷ []))) }
{
    let digits = hex::encode(alloc, digest)?;
    writeln!(text, "bytes {bytes} {digits}")
}

fn push_exit(text: &mut String, exit: Exit) -> Result<(), AllocError>
    ensures { OnOk result (string_bytes text.new ≡ string_bytes text.old ++ exit_line exit) }
{
    match exit {
        Exit::Halt => push_word(text, "exit", "halt"),
        Exit::Panic => push_word(text, "exit", "panic"),
        Exit::OutOfGas => push_word(text, "exit", "out-of-gas"),
        Exit::Fault(address) => writeln!(text, "exit fault {address}"),
        Exit::Host(number) => writeln!(text, "exit host {number}"),
    }
}

fn push_register(text: &mut String, index: u8, value: u64) -> Result<(), AllocError>
    ensures { OnOk result (string_bytes text.new ≡ string_bytes text.old ++ number_line (114 ∷ decimal index) value) }
{
    writeln!(text, "r{index} {value}")
}

fn push_output(
    alloc: Global,
    text: &mut String,
    length: u64,
    front: &[u8],
) -> Result<(), AllocError>
    ensures { OnOk result (string_bytes text.new ≡ string_bytes text.old ++ line_of (codes "output") (decimal length ∷ (shown front.now ∷ []))) }
{
    match front {
        [] => writeln!(text, "output {length} -"),
        _ => {
            let digits = hex::encode(alloc, front)?;
            writeln!(text, "output {length} {digits}")
        }
    }
}

fn push_step(text: &mut String, number: u64, pc: u64, op: Op, gas: u64) -> Result<(), AllocError>
    ensures { OnOk result (string_bytes text.new ≡ string_bytes text.old ++ line_bytes (Line.Step number pc op gas)) }
{
    let name = name_of(op);
    writeln!(text, "step {number} pc {pc} {name} gas {gas}")
}

fn push_group(text: &mut String, number: u64, reports: u64, gas: u64) -> Result<(), AllocError>
    ensures { OnOk result (string_bytes text.new ≡ string_bytes text.old ++ line_bytes (Line.Group number reports gas)) }
{
    writeln!(text, "group {number} reports {reports} gas {gas}")
}

fn push_turn(
    text: &mut String,
    service: u32,
    steps: u64,
    gas: u64,
    pc: u64,
) -> Result<(), AllocError>
    ensures { OnOk result (string_bytes text.new ≡ string_bytes text.old ++ line_bytes (Line.Turn service steps gas pc)) }
{
    writeln!(text, "turn {service} steps {steps} gas {gas} pc {pc}")
}

fn push_credit(
    text: &mut String,
    target: u32,
    amount: u128,
    gas: u64,
    transfers: u64,
) -> Result<(), AllocError>
    ensures { OnOk result (string_bytes text.new ≡ string_bytes text.old ++ line_bytes (Line.Credit target amount gas transfers)) }
{
    writeln!(
        text,
        "credit {target} amount {amount} gas {gas} transfers {transfers}"
    )
}

fn push_lost(text: &mut String, target: u32, amount: u128, transfers: u64) -> Result<(), AllocError>
    ensures { OnOk result (string_bytes text.new ≡ string_bytes text.old ++ line_bytes (Line.Lost target amount transfers)) }
{
    writeln!(text, "lost {target} amount {amount} transfers {transfers}")
}

fn push_account(
    text: &mut String,
    id: u32,
    code: &str,
    balance: u64,
    items: u128,
    octets: u128,
    threshold: u128,
    storage: u64,
    preimages: u64,
    lookups: u64,
    gratis: u64,
    created: u32,
) -> Result<(), AllocError>
    ensures { OnOk result (string_bytes text.new ≡ string_bytes text.old ++ account_line id code.now balance items octets threshold storage preimages lookups gratis created) }
{
    writeln!(
        text,
        "account {id} code {code} balance {balance} items {items} octets {octets} threshold {threshold} storage {storage} preimages {preimages} lookups {lookups} gratis {gratis} created {created}"
    )
}

pub fn push_line(alloc: Global, text: &mut String, line: &Line) -> Result<(), AllocError>
    ensures { OnOk result (string_bytes text.new ≡ string_bytes text.old ++ line_bytes line.now) }
{
    match line {
        Line::Exit(exit) => push_exit(text, *exit),
        Line::Pc(pc) => push_number(text, "pc", *pc),
        Line::Gas(gas) => push_number(text, "gas", *gas),
        Line::Register { index, value } => push_register(text, *index, *value),
        Line::Output { length, front } => push_output(alloc, text, *length, front.as_slice()),
        Line::Step {
            number,
            pc,
            op,
            gas,
        } => push_step(text, *number, *pc, *op, *gas),
        Line::Size { bytes, digest } => push_size(alloc, text, *bytes, digest),
        Line::Digest(digest) => push_digest(alloc, text, digest),
        Line::Version(version) => push_small(text, "version", *version),
        Line::Slot(slot) => push_small(text, "slot", *slot),
        Line::Entropy(entropy) => push_bytes(alloc, text, "entropy", entropy),
        Line::Accounts(count) => push_number(text, "accounts", *count),
        Line::Account {
            id,
            code,
            balance,
            items,
            octets,
            threshold,
            storage,
            preimages,
            lookups,
            gratis,
            created,
        } => {
            let code = hex::encode(alloc, code)?;
            let code = code.as_str();
            push_account(
                text, *id, code, *balance, *items, *octets, *threshold, *storage, *preimages,
                *lookups, *gratis, *created,
            )
        }
        Line::Refine(service) => push_small(text, "refine", *service),
        Line::Absent => push_name(text, "absent"),
        Line::NoCode => push_name(text, "no code"),
        Line::BadCode => push_name(text, "bad code"),
        Line::Exports(count) => push_number(text, "exports", *count),
        Line::Group {
            number,
            reports,
            gas,
        } => push_group(text, *number, *reports, *gas),
        Line::Turn {
            service,
            steps,
            gas,
            pc,
        } => push_turn(text, *service, *steps, *gas, *pc),
        Line::Run(service) => push_small(text, "run", *service),
        Line::Yield(yielded) => push_yield(alloc, text, yielded),
        Line::Transfers(count) => push_number(text, "transfers", *count),
        Line::LeftOut(count) => push_number(text, "left-out", *count),
        Line::Credit {
            target,
            amount,
            gas,
            transfers,
        } => push_credit(text, *target, *amount, *gas, *transfers),
        Line::Lost {
            target,
            amount,
            transfers,
        } => push_lost(text, *target, *amount, *transfers),
        Line::TransferRun(service) => push_small(text, "transfer-run", *service),
        Line::Preimages(count) => push_number(text, "preimages", *count),
        Line::State(digest) => push_bytes(alloc, text, "state", digest),
        Line::Services(count) => push_number(text, "services", *count),
        Line::Reports(count) => push_number(text, "reports", *count),
        Line::Groups(count) => push_number(text, "groups", *count),
        Line::Runs(count) => push_number(text, "runs", *count),
        Line::Items(sum) => push_sum(text, "items", *sum),
        Line::Octets(sum) => push_sum(text, "octets", *sum),
        Line::Balance(sum) => push_sum(text, "balance", *sum),
    }
}

/// The bytes of lines, one after another.
///
/// # Errors
/// Want of memory.
pub fn spell_lines(alloc: Global, lines: &[Line]) -> Result<Vec<u8>, AllocError>
    ensures { IfOk result (λ bytes. bytes.items ≡ text_of lines.now) }
{
    let mut text = String::new(alloc);
    for line in lines {
        push_line(alloc, &mut text, line)?;
    }
    Ok(text.into_bytes())
}
