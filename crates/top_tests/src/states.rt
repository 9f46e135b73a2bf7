//! The lines of a state.
use jam_accounts::{Account, Accounts, State};
use std::alloc::AllocError;
use trace_text::{spell_lines, spell_state, state_lines};

#[test]
fn a_state_is_spelled_as_its_lines_are(rt: HostRuntime) -> Result<(), AllocError> {
    let alloc = rt.alloc();
    let mut accounts = Accounts::new(alloc);
    accounts.put(7, Account::blank(alloc))?;
    let state = State::new(5, [0; 32], accounts);
    let lines = state_lines(alloc, &state)?;
    assert_eq!(rt; lines.len(), 5);
    let spelled = spell_lines(alloc, &lines)?;
    assert!(rt; spell_state(alloc, &state)? == spelled);
    assert!(rt; spelled.starts_with(b"version 2\nslot 5\n"));
    Ok(())
}
