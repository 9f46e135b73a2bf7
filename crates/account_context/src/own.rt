// Changes of one account among others. While it is changed a blank one stands in its place, which takes no memory: so it is put
// back at every end.
ghost use Rattle.std.specs.Prelude.{◌≡◌, ◌<◌, ◌^◌, IsSome, OnOk, OnErr};
ghost use Rattle.std.specs.Option.{ForSome};
ghost use Rattle.std.specs.FinMap as fin;
ghost use Rattle.jam_accounts.specs.Footprint.{octets_of};
ghost use Rattle.account_context.specs.Context.{changed_account, with_value, without_value, with_history, without_preimage};

use jam_accounts::{Account, Accounts};
use preimage_store::History;
use std::alloc::{AllocError, Global};

/// Keeps a value under a key.
pub fn put_value(
    alloc: Global,
    accounts: &mut Accounts,
    id: u32,
    key: &[u8],
    value: &[u8],
) -> Result<(), AllocError>
    requires there { IsSome (fin.get accounts.old id) }
    requires room { ForSome (fin.get accounts.old id) (λ account. octets_of (with_value key.now value.now account) < 2 ^ 100) }
    ensures ok { OnOk result (accounts.new ≡ changed_account (with_value key.now value.now) accounts.old id (fin.get accounts.old id)) }
    ensures err { OnErr result (accounts.new ≡ accounts.old) }
{
    let key = Vec::from_slice(alloc, key)?;
    let value = Vec::from_slice(alloc, value)?;
    let mut account = accounts.replace(id, Account::blank(alloc));
    let put = account.put_value(key, value);
    accounts.replace(id, account);
    put
}

/// Drops the value under a key, where there is one.
pub fn drop_value(alloc: Global, accounts: &mut Accounts, id: u32, key: &[u8])
    requires { IsSome (fin.get accounts.old id) }
    ensures { accounts.new ≡ changed_account (without_value key.now) accounts.old id (fin.get accounts.old id) }
{
    let mut account = accounts.replace(id, Account::blank(alloc));
    account.remove_value(key);
    accounts.replace(id, account);
}

/// Keeps a history, or drops the one there.
pub fn set_history(
    alloc: Global,
    accounts: &mut Accounts,
    id: u32,
    hash: &[u8; 32],
    length: u32,
    history: Option<History>,
) -> Result<(), AllocError>
    requires there { IsSome (fin.get accounts.old id) }
    requires room { ForSome (fin.get accounts.old id) (λ account. octets_of (with_history hash.now length history account) < 2 ^ 100) }
    ensures ok { OnOk result (accounts.new ≡ changed_account (with_history hash.now length history) accounts.old id (fin.get accounts.old id)) }
    ensures err { OnErr result (accounts.new ≡ accounts.old) }
{
    let mut account = accounts.replace(id, Account::blank(alloc));
    let set = set_in(&mut account, hash, length, history);
    accounts.replace(id, account);
    set
}

// Keeps a history in the account, or drops the one there.
fn set_in(
    account: &mut Account,
    hash: &[u8; 32],
    length: u32,
    history: Option<History>,
) -> Result<(), AllocError>
    requires { octets_of (with_history hash.now length history account.old) < 2 ^ 100 }
    ensures ok { OnOk result (account.new ≡ with_history hash.now length history account.old) }
    ensures err { OnErr result (account.new ≡ account.old) }
{
    match history {
        Some(history) => account.put_history(hash, length, history),
        None => {
            account.remove_history(hash, length);
            Ok(())
        }
    }
}

/// Drops the preimage of a hash, where there is one.
pub fn drop_preimage(alloc: Global, accounts: &mut Accounts, id: u32, hash: &[u8; 32])
    requires { IsSome (fin.get accounts.old id) }
    ensures { accounts.new ≡ changed_account (without_preimage hash.now) accounts.old id (fin.get accounts.old id) }
{
    let mut account = accounts.replace(id, Account::blank(alloc));
    account.remove_preimage(hash);
    accounts.replace(id, account);
}

/// Gives the account a balance.
pub fn set_balance(alloc: Global, accounts: &mut Accounts, id: u32, balance: u64)
    requires { IsSome (fin.get accounts.old id) }
    ensures { accounts.new ≡ changed_account (λ account. record account { balance = balance }) accounts.old id (fin.get accounts.old id) }
{
    let mut account = accounts.replace(id, Account::blank(alloc));
    account.balance = balance;
    accounts.replace(id, account);
}

/// Gives the account the hash of its code, and the least gas of its two entries.
pub fn set_code(
    alloc: Global,
    accounts: &mut Accounts,
    id: u32,
    code_hash: &[u8; 32],
    min_accumulate: u64,
    min_transfer: u64,
)
    requires { IsSome (fin.get accounts.old id) }
    ensures { accounts.new ≡ changed_account (λ account. record account { code_hash = code_hash.now; min_accumulate = min_accumulate; min_transfer = min_transfer }) accounts.old id (fin.get accounts.old id) }
{
    let code_hash = *code_hash;
    let mut account = accounts.replace(id, Account::blank(alloc));
    account.code_hash = code_hash;
    account.min_accumulate = min_accumulate;
    account.min_transfer = min_transfer;
    accounts.replace(id, account);
}
