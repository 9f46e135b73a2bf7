// Preimages that a batch delivers.
ghost use Rattle.std.specs.Prelude.{◌≡◌, ◌+◌, ℕ, IfOk, OnErr, if◌then◌else◌};
ghost use Rattle.batch_accumulate.specs.Deliveries.{none_stored, after_delivery, after_deliveries, AfterSome};

use batch_file::Delivery;
use jam_accounts::{Account, Accounts};
use std::alloc::{AllocError, Global};

// Delivers bytes to a service at a slot, and answers whether they were stored. They are passed over
// where there is no such service, or its history of them is not the empty one. While its account is
// changed a blank one stands in its place, which takes no memory: so it is put back at every end.
fn deliver(
    alloc: Global,
    accounts: &mut Accounts,
    delivery: &Delivery,
    slot: u32,
) -> Result<bool, AllocError>
    ensures made { IfOk result (λ stored. (n : ℕ) → record { accounts = accounts.new; stored = (if stored then n + 1 else n) }
        ≡ after_delivery slot (record { accounts = accounts.old; stored = n }) delivery.now) }
    ensures err { OnErr result (accounts.new ≡ accounts.old) }
{
    let id = delivery.service;
    if accounts.get(id).is_none() {
        return Ok(false);
    }
    let mut account = accounts.replace(id, Account::blank(alloc));
    let stored = account.receive(alloc, delivery.bytes.as_slice(), slot);
    accounts.replace(id, account);
    stored
}

/// Delivers preimages in their order, and answers how many were stored.
///
/// # Errors
/// Want of memory; the first of them may have been delivered then, and no account is lost.
pub fn deliver_all(
    alloc: Global,
    accounts: &mut Accounts,
    deliveries: &[Delivery],
    slot: u32,
) -> Result<u64, AllocError>
    ensures made { IfOk result (λ stored. record { accounts = accounts.new; stored = stored }
        ≡ after_deliveries slot (none_stored accounts.old) deliveries.now) }
    ensures err { OnErr result (AfterSome slot accounts.old deliveries.now accounts.new) }
{
    let mut stored = 0;
    for delivery in deliveries {
        if deliver(alloc, accounts, delivery, slot)? {
            stored += 1;
        }
    }
    Ok(stored)
}
