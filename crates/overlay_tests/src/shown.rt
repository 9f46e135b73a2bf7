//! All that a scope shows, as bytes one after another.
use crate::play::{hash_of, key_of};
use account_context::{AccountView, Delta, Provided, Scope, Transfer};
use jam_accounts::Account;
use preimage_store::History;
use std::alloc::{AllocError, Global};

fn number(out: &mut Vec<u8>, number: u64) -> Result<(), AllocError> {
    out.extend_from_slice(&number.to_le_bytes())
}

fn bytes(out: &mut Vec<u8>, bytes: Option<&[u8]>) -> Result<(), AllocError> {
    match bytes {
        Some(bytes) => {
            number(out, bytes.len() as u64)?;
            out.extend_from_slice(bytes)
        }
        None => number(out, u64::MAX),
    }
}

fn view(out: &mut Vec<u8>, view: Option<AccountView>) -> Result<(), AllocError> {
    let Some(view) = view else {
        return number(out, u64::MAX);
    };
    out.extend_from_slice(&view.code_hash)?;
    number(out, view.balance)?;
    number(out, view.min_accumulate)?;
    number(out, view.min_transfer)?;
    number(out, view.gratis)?;
    number(out, u64::from(view.created))?;
    out.extend_from_slice(&view.footprint.items().to_le_bytes())?;
    out.extend_from_slice(&view.footprint.octets().to_le_bytes())
}

fn history(out: &mut Vec<u8>, history: Option<History>) -> Result<(), AllocError> {
    let Some(history) = history else {
        return number(out, u64::MAX);
    };
    for slot in history.slots() {
        number(out, u64::from(*slot))?;
    }
    number(out, 4)
}

fn transfers(out: &mut Vec<u8>, transfers: &[Transfer]) -> Result<(), AllocError> {
    for transfer in transfers {
        number(out, u64::from(transfer.source))?;
        number(out, u64::from(transfer.target))?;
        number(out, transfer.amount)?;
        number(out, transfer.gas)?;
        out.extend_from_slice(&transfer.memo)?;
    }
    number(out, 5)
}

fn provided(out: &mut Vec<u8>, provided: &[Provided]) -> Result<(), AllocError> {
    for preimage in provided {
        number(out, u64::from(preimage.service))?;
        bytes(out, Some(preimage.bytes.as_slice()))?;
    }
    number(out, 6)
}

fn yielded(out: &mut Vec<u8>, hash: Option<[u8; 32]>) -> Result<(), AllocError> {
    match hash {
        Some(hash) => out.extend_from_slice(&hash),
        None => number(out, u64::MAX),
    }
}

// What a scope shows of an account.
fn account<S: Scope>(out: &mut Vec<u8>, scope: &S, id: u32) -> Result<(), AllocError> {
    view(out, scope.view(id))?;
    for k in 0..4u8 {
        let hash = hash_of(k);
        bytes(out, scope.value(id, key_of(k)))?;
        bytes(out, scope.preimage(id, &hash))?;
        history(out, scope.history(id, &hash, 3))?;
        history(out, scope.history(id, &hash, 4))?;
    }
    Ok(())
}

/// All that a scope shows, with these accounts.
pub(crate) fn shown<S: Scope>(
    alloc: Global,
    scope: &S,
    ids: &[u32],
) -> Result<Vec<u8>, AllocError> {
    let mut out = Vec::with_capacity(alloc, 8192)?;
    number(&mut out, u64::from(scope.service()))?;
    for id in ids {
        account(&mut out, scope, *id)?;
    }
    match scope.free_id() {
        Some(id) => number(&mut out, u64::from(id))?,
        None => number(&mut out, u64::MAX)?,
    }
    transfers(&mut out, scope.transfers())?;
    yielded(&mut out, scope.yielded())?;
    provided(&mut out, scope.provided())?;
    Ok(out)
}

// All that an account has.
fn whole(out: &mut Vec<u8>, account: &Account) -> Result<(), AllocError> {
    out.extend_from_slice(&account.code_hash)?;
    number(out, account.balance)?;
    number(out, account.min_accumulate)?;
    number(out, account.min_transfer)?;
    number(out, account.gratis)?;
    number(out, u64::from(account.created))?;
    for (key, value) in account.storage.entries() {
        bytes(out, Some(key))?;
        bytes(out, Some(value))?;
    }
    for (_hash, preimage) in account.preimages.entries() {
        bytes(out, Some(preimage))?;
    }
    for (hash, length, slots) in account.lookups.entries() {
        out.extend_from_slice(hash)?;
        number(out, u64::from(length))?;
        history(out, Some(slots))?;
    }
    number(out, 7)
}

/// All that an invocation leaves.
pub(crate) fn left(alloc: Global, delta: &Delta) -> Result<Vec<u8>, AllocError> {
    let mut out = Vec::new(alloc);
    whole(&mut out, &delta.own)?;
    for (id, account) in delta.added.entries() {
        number(&mut out, u64::from(id))?;
        whole(&mut out, account)?;
    }
    for id in delta.removed.as_slice() {
        number(&mut out, u64::from(*id))?;
    }
    transfers(&mut out, delta.transfers.as_slice())?;
    yielded(&mut out, delta.yielded)?;
    provided(&mut out, delta.provided.as_slice())?;
    Ok(out)
}
