//! Scripts, and how they are played.
use crate::calls::call;
use crate::changes::change;
use crate::deltas::left_by;
use crate::machines::{came_to, first_machine, number_at, set_words};
use crate::starts::state_of;
use crate::views::{facts_of, say_new, shown};
use crate::words::{small, word};
use account_context::{Copies, Scope};
use account_overlay::Overlay;
use jam_accounts::State;
use pvm_step::Machine;
use std::alloc::{AllocError, Global};
use std::process::Abort;

// Makes a host call on a new machine, and says what it came to.
fn make_call<S: Scope>(
    rt: &impl Abort,
    alloc: Global,
    machine: &mut Machine,
    scope: &mut S,
    slot: u32,
    line: &str,
) -> Result<String, AllocError> {
    *machine = first_machine(alloc)?;
    set_words(rt, machine, line);
    let before = machine.registers;
    match call(alloc, machine, scope, slot, word(line, 1))? {
        Some(step) => came_to(alloc, step, &before, machine),
        None => panic!(rt; "no such call: {line}"),
    }
}

// Takes a step, and says what it came to.
fn take_step<S: Scope>(
    rt: &impl Abort,
    alloc: Global,
    machine: &mut Machine,
    scope: &mut S,
    slot: &mut u32,
    line: &str,
) -> Result<String, AllocError> {
    match word(line, 0) {
        "call" => make_call(rt, alloc, machine, scope, *slot, line),
        "at" => number_at(rt, alloc, machine, line),
        "account" | "value" | "preimage" | "history" | "free" => shown(rt, alloc, scope, line),
        "slot" => {
            *slot = small(rt, line, 1);
            String::from_str(alloc, "done")
        }
        "start" => String::from_str(alloc, "done"),
        _ => {
            change(rt, alloc, scope, line)?;
            String::from_str(alloc, "done")
        }
    }
}

/// Plays the lines of a script on a scope. A line is a step, `=>`, and what it comes to, with each fact behind it
/// that is no longer as before. The steps are:
///
/// - `start`: all facts;
/// - `slot N`: the slot of the calls from there on, which is 1 before;
/// - `call NAME GAS R7 R8 ..`: a host call on a new machine with so much gas and these registers;
/// - `at ADDRESS 8` or `at ADDRESS 4`: the number there on that machine;
/// - `account ID`, `value ID KEY`, `preimage ID HASH`, `history ID HASH LENGTH`, `free`: what is shown;
/// - a change of the scope, by the name of its function.
fn play<S: Scope>(
    rt: &impl Abort,
    alloc: Global,
    scope: &mut S,
    script: &str,
) -> Result<(), AllocError> {
    let mut machine = first_machine(alloc)?;
    let mut facts = facts_of(alloc, scope)?;
    let mut slot = 1;
    for line in script.lines() {
        if word(line, 0).is_empty() {
            continue;
        }
        let Some((step, wanted)) = line.split_once(" => ") else {
            panic!(rt; "no step: {line}");
        };
        if word(line, 0) == "start" {
            facts = Vec::new(alloc);
        }
        let mut said = take_step(rt, alloc, &mut machine, scope, &mut slot, step)?;
        let now = facts_of(alloc, scope)?;
        say_new(&mut said, &facts, &now)?;
        facts = now;
        assert!(rt; said.as_str() == wanted, "{line}\n{said}");
    }
    Ok(())
}

/// The context of service 1 over a state by whole copies, with an entropy of zeros, at slot 1.
fn copies_over<'a>(
    rt: &impl Abort,
    alloc: Global,
    state: &'a State,
) -> Result<Copies<'a>, AllocError> {
    if state.accounts.get(1).is_none() {
        panic!(rt; "no service 1");
    }
    Copies::new(alloc, state, 1, &[0; 32], 1)
}

// The same context by changes over the state.
fn overlay_over<'a>(
    rt: &impl Abort,
    alloc: Global,
    state: &'a State,
) -> Result<Overlay<'a>, AllocError> {
    if state.accounts.get(1).is_none() {
        panic!(rt; "no service 1");
    }
    Overlay::new(alloc, state, 1, &[0; 32], 1)
}

/// Plays a script over a state, on each kind of scope.
pub fn plays(rt: &impl Abort, alloc: Global, start: &str, script: &str) -> Result<(), AllocError> {
    let state = state_of(rt, alloc, start)?;
    let mut copies = copies_over(rt, alloc, &state)?;
    play(rt, alloc, &mut copies, script)?;
    let mut overlay = overlay_over(rt, alloc, &state)?;
    play(rt, alloc, &mut overlay, script)
}

/// Plays a script over a state, on each kind of scope, and then looks at what it leaves.
pub fn leaves(
    rt: &impl Abort,
    alloc: Global,
    start: &str,
    script: &str,
    wanted: &str,
) -> Result<(), AllocError> {
    let state = state_of(rt, alloc, start)?;
    let mut copies = copies_over(rt, alloc, &state)?;
    play(rt, alloc, &mut copies, script)?;
    let left = left_by(alloc, copies)?;
    assert!(rt; left.as_str() == wanted, "{left}");
    let mut overlay = overlay_over(rt, alloc, &state)?;
    play(rt, alloc, &mut overlay, script)?;
    let left = left_by(alloc, overlay)?;
    assert!(rt; left.as_str() == wanted, "{left}");
    Ok(())
}
