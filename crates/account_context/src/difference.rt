// What there is only at the start, and what there is only now.
ghost use Rattle.std.specs.Prelude.{◌≡◌, ◌<◌, ◌^◌, not, filter, IsSome, IfOk, None};
ghost use Rattle.std.specs.FinMap as fin;
ghost use Rattle.account_context.specs.Difference.{delta};
ghost use Rattle.account_context.specs.Held.{pair_of};

use crate::context_copy::ContextCopy;
use crate::delta::Delta;
use crate::ids::Ids;
use jam_accounts::Accounts;
use std::alloc::{AllocError, Global};

/// How many accounts there are only now.
pub fn count_added(base: &Accounts, now: &Accounts) -> usize
    ensures count { result ≡ fin.len (fin.retain_keys now.now (λ id. not (fin.contains_key base.now id))) }
    ensures small { result < 2 ^ 63 }
{
    let _all = now.len();
    let mut count = 0;
    for (id, _account) in now.entries() {
        if base.get(id).is_none() {
            count += 1;
        }
    }
    count
}

// The numbers of the accounts that there are only at the start, in ascending order.
fn removed_ids(alloc: Global, base: &Accounts, now: &Accounts) -> Result<Ids, AllocError>
    ensures { IfOk result (λ ids. ids ≡ filter (λ id. not (fin.contains_key now.now id)) (fin.keys base.now)) }
{
    let mut removed = Ids::new(alloc);
    for (id, _account) in base.entries() {
        if now.get(id).is_none() {
            removed.push(id)?;
        }
    }
    Ok(removed)
}

// Removes the accounts that there were at the start.
fn keep_added(base: &Accounts, now: &mut Accounts)
    ensures { now.new ≡ fin.retain_keys now.old (λ id. not (fin.contains_key base.now id)) }
{
    for (id, _account) in base.entries() {
        now.remove(id);
    }
}

/// The context as a difference from the accounts at the start, of which the service's is one.
pub fn difference(
    alloc: Global,
    base: &Accounts,
    service: u32,
    now: ContextCopy,
) -> Result<Delta, AllocError>
    requires base { IsSome (fin.get base.now service) }
    requires now { IsSome (fin.get now.accounts service) }
    ensures { IfOk result (λ left. left ≡ delta (pair_of base.now service now None)) }
{
    let removed = removed_ids(alloc, base, &now.accounts)?;
    let mut accounts = now.accounts;
    let own = accounts.remove(service).unwrap();
    keep_added(base, &mut accounts);
    Ok(Delta {
        own,
        added: accounts,
        removed,
        transfers: now.transfers,
        yielded: now.yielded,
        provided: now.provided,
    })
}
