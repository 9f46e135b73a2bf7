//! What a scope leaves, as a text.
use crate::views::{account_text, provided_text, transfers_text, yield_text};
use account_context::{AccountView, Delta, Scope};
use jam_accounts::Account;
use std::alloc::{AllocError, Global};
use std::fmt::Write;

fn view_of(account: &Account) -> AccountView {
    AccountView {
        code_hash: account.code_hash,
        balance: account.balance,
        min_accumulate: account.min_accumulate,
        min_transfer: account.min_transfer,
        gratis: account.gratis,
        created: account.created,
        footprint: account.footprint(),
    }
}

// The own account, the added ones, the numbers of the removed ones, and what was issued.
fn delta_text(alloc: Global, delta: &Delta) -> Result<String, AllocError> {
    let own = account_text(alloc, 1, Some(view_of(&delta.own)))?;
    let mut text = format!(in alloc; "{own}, added")?;
    for (id, account) in delta.added.entries() {
        let added = account_text(alloc, id, Some(view_of(account)))?;
        write!(text, " {added}")?;
    }
    let removed = delta.removed.as_slice();
    let sent = transfers_text(alloc, delta.transfers.as_slice())?;
    let yielded = yield_text(alloc, delta.yielded)?;
    let provided = provided_text(alloc, delta.provided.as_slice())?;
    write!(text, ", removed {removed:?}, {sent}, {yielded}, {provided}")?;
    Ok(text)
}

/// What a scope leaves.
pub fn left_by<S: Scope>(alloc: Global, scope: S) -> Result<String, AllocError> {
    let delta = scope.into_delta()?;
    delta_text(alloc, &delta)
}
