// The lines of a state.
ghost use Rattle.std.specs.Prelude.{◌≡◌, ◌++◌, map, OnOk, IfOk, string_bytes};
ghost use Rattle.std.specs.FinMap as fin;
ghost use Rattle.trace_text.specs.declared.line.Line.TheVariants as of;
ghost use Rattle.trace_text.specs.Transcript.{account_shown, line_bytes, state_lines, text_of};

use crate::line::Line;
use crate::spelling::push_line;
use jam_accounts::{Account, Accounts, State, threshold};
use std::alloc::{AllocError, Global};

fn account_line(id: u32, account: &Account) -> Line
    ensures { result ≡ account_shown (id, account.now) }
{
    let footprint = account.footprint();
    Line::Account {
        id,
        code: account.code_hash,
        balance: account.balance,
        items: footprint.items(),
        octets: footprint.octets(),
        threshold: threshold(footprint, account.gratis),
        storage: account.storage.len() as u64,
        preimages: account.preimages.len() as u64,
        lookups: account.lookups.len() as u64,
        gratis: account.gratis,
        created: account.created,
    }
}

fn push_accounts(lines: &mut Vec<Line>, accounts: &Accounts) -> Result<(), AllocError>
    ensures { OnOk result (lines.new.items ≡ lines.old.items ++ map account_shown (fin.entries accounts.now)) }
{
    for (id, account) in accounts.entries() {
        lines.push(account_line(id, account))?;
    }
    Ok(())
}

/// The version, slot, entropy and count of accounts of a state, and then a line for each account, in the order of their
/// numbers.
///
/// # Errors
/// Want of memory.
#[tactic(auto, unfolding(crate::specs::Transcript::state_lines))]
pub fn state_lines(alloc: Global, state: &State) -> Result<Vec<Line>, AllocError>
    ensures { IfOk result (λ lines. lines.items ≡ state_lines state.now) }
{
    let mut lines = Vec::new(alloc);
    lines.push(Line::Version(state.version()))?;
    lines.push(Line::Slot(state.slot))?;
    lines.push(Line::Entropy(state.entropy))?;
    lines.push(Line::Accounts(state.accounts.len() as u64))?;
    push_accounts(&mut lines, &state.accounts)?;
    Ok(lines)
}

/// How many bytes the line of an account has that keeps little.
const ACCOUNT_BYTES: usize = 192;

// The text of the lines of accounts, one after another.
#[tactic(auto, using(crate::proofs::Lines::text_pushed, crate::proofs::Lines::text_done))]
fn push_account_lines(
    alloc: Global,
    text: &mut String,
    accounts: &Accounts,
) -> Result<(), AllocError>
    ensures { OnOk result (string_bytes text.new ≡ string_bytes text.old ++ text_of (map account_shown (fin.entries accounts.now))) }
{
    for (id, account) in accounts.entries() {
        push_line(alloc, text, &account_line(id, account))?;
    }
    Ok(())
}

// The text of the lines before those of accounts.
fn push_state_head(alloc: Global, text: &mut String, state: &State) -> Result<(), AllocError>
    ensures { OnOk result (string_bytes text.new ≡ string_bytes text.old ++ line_bytes (of.Version state.now.version) ++ line_bytes (of.Slot state.now.slot) ++ line_bytes (of.Entropy state.now.entropy) ++ line_bytes (of.Accounts (fin.len state.now.accounts))) }
{
    push_line(alloc, text, &Line::Version(state.version()))?;
    push_line(alloc, text, &Line::Slot(state.slot))?;
    push_line(alloc, text, &Line::Entropy(state.entropy))?;
    push_line(alloc, text, &Line::Accounts(state.accounts.len() as u64))
}

/// The bytes of the lines of a state, without a list of them: a state may have a million accounts.
///
/// # Errors
/// Want of memory.
#[tactic(auto, unfolding(crate::specs::Transcript::state_lines, crate::specs::Transcript::text_of))]
pub fn spell_state(alloc: Global, state: &State) -> Result<Vec<u8>, AllocError>
    ensures { IfOk result (λ bytes. bytes.items ≡ text_of (state_lines state.now)) }
{
    let room = state.accounts.len().saturating_mul(ACCOUNT_BYTES);
    let mut text = String::with_capacity(alloc, room)?;
    push_state_head(alloc, &mut text, state)?;
    push_account_lines(alloc, &mut text, &state.accounts)?;
    Ok(text.into_bytes())
}
