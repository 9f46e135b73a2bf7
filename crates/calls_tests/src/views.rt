//! All that a scope shows, as texts.
use crate::words::{hash_of, name_of_hash, small, word};
use account_context::{AccountView, Provided, Scope, Transfer};
use preimage_store::History;
use std::alloc::{AllocError, Global};
use std::fmt::Write;
use std::process::Abort;

/// An account: its number; the balance, the code hash, the least gas of accumulate and of a transfer, the gratis,
/// the slot at which it was made, items and octets.
pub fn account_text(
    alloc: Global,
    id: u32,
    view: Option<AccountView>,
) -> Result<String, AllocError> {
    let Some(view) = view else {
        return format!(in alloc; "{id}: -");
    };
    let mut text = format!(in alloc; "{id}: {}", view.balance)?;
    write!(text, " {}", name_of_hash(&view.code_hash))?;
    write!(text, " {} {}", view.min_accumulate, view.min_transfer)?;
    write!(text, " {} {}", view.gratis, view.created)?;
    write!(text, " {}", view.footprint.items())?;
    write!(text, " {}", view.footprint.octets())?;
    Ok(text)
}

// Says bytes as letters.
fn say_bytes(text: &mut String, bytes: &[u8]) -> Result<(), AllocError> {
    text.push('"')?;
    for byte in bytes {
        text.push(char::from(*byte))?;
    }
    text.push('"')
}

// Something with a value, or none.
fn bytes_text(
    alloc: Global,
    id: u32,
    name: &str,
    bytes: Option<&[u8]>,
) -> Result<String, AllocError> {
    let mut text = format!(in alloc; "{id} {name} ")?;
    match bytes {
        Some(bytes) => say_bytes(&mut text, bytes)?,
        None => text.push('-')?,
    }
    Ok(text)
}

// A history, or none.
fn history_text(
    alloc: Global,
    id: u32,
    name: &str,
    length: u32,
    history: Option<History>,
) -> Result<String, AllocError> {
    let mut text = format!(in alloc; "{id} {name} {length} ")?;
    match history {
        Some(history) => write!(text, "{:?}", history.slots())?,
        None => text.push('-')?,
    }
    Ok(text)
}

// What is shown of a service: its account, the values under "k" and "l", the preimage "abc", and its history.
fn push_service<S: Scope>(
    alloc: Global,
    scope: &S,
    id: u32,
    facts: &mut Vec<String>,
) -> Result<(), AllocError> {
    facts.push(account_text(alloc, id, scope.view(id))?)?;
    facts.push(bytes_text(alloc, id, "k", scope.value(id, b"k"))?)?;
    facts.push(bytes_text(alloc, id, "l", scope.value(id, b"l"))?)?;
    let hash = hash_of("abc");
    facts.push(bytes_text(alloc, id, "abc", scope.preimage(id, &hash))?)?;
    facts.push(history_text(alloc, id, "abc", 3, scope.history(id, &hash, 3))?)?;
    Ok(())
}

/// How many transfers there are; and of the last one the source, the target, the amount, the gas, and the first and
/// the last byte of the memo.
pub fn transfers_text(alloc: Global, transfers: &[Transfer]) -> Result<String, AllocError> {
    let mut text = format!(in alloc; "transfers {}", transfers.len())?;
    if let [.., last] = transfers {
        write!(text, " {} {}", last.source, last.target)?;
        write!(text, " {} {}", last.amount, last.gas)?;
        write!(text, " {} {}", last.memo[0], last.memo[127])?;
    }
    Ok(text)
}

/// The hash that was yielded.
pub fn yield_text(alloc: Global, yielded: Option<[u8; 32]>) -> Result<String, AllocError> {
    match yielded {
        Some(hash) => format!(in alloc; "yield {}", name_of_hash(&hash)),
        None => String::from_str(alloc, "yield -"),
    }
}

/// The preimages that were provided.
pub fn provided_text(alloc: Global, provided: &[Provided]) -> Result<String, AllocError> {
    let mut text = String::from_str(alloc, "provided")?;
    for one in provided {
        write!(text, " {} ", one.service)?;
        say_bytes(&mut text, one.bytes.as_slice())?;
    }
    Ok(text)
}

fn free_text(alloc: Global, free: Option<u32>) -> Result<String, AllocError> {
    match free {
        Some(id) => format!(in alloc; "free {id}"),
        None => String::from_str(alloc, "free -"),
    }
}

/// All that is shown: the services 1 and 2 and the first two numbers for new services, with what they keep; what
/// was issued; the number for the next new service; the service that is run.
pub fn facts_of<S: Scope>(alloc: Global, scope: &S) -> Result<Vec<String>, AllocError> {
    let mut facts = Vec::new(alloc);
    for id in [1, 2, 1_318_567_118, 1_318_567_160] {
        push_service(alloc, scope, id, &mut facts)?;
    }
    facts.push(transfers_text(alloc, scope.transfers())?)?;
    facts.push(yield_text(alloc, scope.yielded())?)?;
    facts.push(provided_text(alloc, scope.provided())?)?;
    facts.push(free_text(alloc, scope.free_id())?)?;
    facts.push(format!(in alloc; "service {}", scope.service())?)?;
    Ok(facts)
}

/// Says each fact that is not as before, behind a comma.
pub fn say_new(text: &mut String, before: &[String], after: &[String]) -> Result<(), AllocError> {
    for (place, fact) in after.iter().enumerate() {
        match before.get(place) {
            Some(old) if old.as_str() == fact.as_str() => {}
            _ => write!(text, ", {}", fact.as_str())?,
        }
    }
    Ok(())
}

/// What a line asks for: `account ID`, `value ID KEY`, `preimage ID HASH`, `history ID HASH LENGTH` or `free`.
pub fn shown<S: Scope>(
    rt: &impl Abort,
    alloc: Global,
    scope: &S,
    line: &str,
) -> Result<String, AllocError> {
    let id = small(rt, line, 1);
    let name = word(line, 2);
    let hash = hash_of(name);
    match word(line, 0) {
        "free" => free_text(alloc, scope.free_id()),
        "account" => account_text(alloc, id, scope.view(id)),
        "value" => bytes_text(alloc, id, name, scope.value(id, name.as_bytes())),
        "preimage" => bytes_text(alloc, id, name, scope.preimage(id, &hash)),
        "history" => {
            let length = small(rt, line, 3);
            history_text(alloc, id, name, length, scope.history(id, &hash, length))
        }
        _ => panic!(rt; "not shown: {line}"),
    }
}
