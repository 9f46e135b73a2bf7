// The own account, and whether its balance carries what it would keep.
ghost use Rattle.std.specs.Prelude.{◌≡◌, ◌<◌, ◌^◌, false, Some, IsSome, nat_lt, length, option_map};
ghost use Rattle.std.specs.FinMap as fin;
ghost use Rattle.jam_accounts.specs.Footprint.{octets_of, threshold_of};
ghost use Rattle.account_context.specs.Context.{account_in, own_account, view_of, drop_value, put_value, set_history, IsOwnWithinBound};
ghost use Rattle.host_general.specs.Deposits.{is_overdrawn};

use account_context::{
    AccountView, Scope, footprint_with_history, footprint_with_value, footprint_without_value,
};
use jam_accounts::{Footprint, threshold};
use preimage_store::History;

/// The service's own account.
pub fn own_view<S: Scope>(scope: &S) -> AccountView
    ensures account { result ≡ view_of (own_account (S.pair scope.now)) }
    ensures there { IsSome (account_in (S.pair scope.now) (S.pair scope.now).service) }
    ensures balance { result.balance < 2 ^ 64 }
    ensures gratis { result.gratis < 2 ^ 64 }
    ensures bounded { octets_of (own_account (S.pair scope.now)) < 2 ^ 100 }
{
    let view = scope.view(scope.service()).unwrap();
    // What it says of every footprint is what is wanted of it.
    let _octets = view.footprint.octets();
    view
}

// Whether the balance of an account is below what it would need with this footprint.
fn is_short_of(view: &AccountView, footprint: Footprint) -> bool
    ensures { result ≡ nat_lt view.now.balance (threshold_of footprint view.now.gratis) }
{
    u128::from(view.balance) < threshold(footprint, view.gratis)
}

/// Whether the own balance would be below the threshold with a value under a key. Where it would not, the value may be kept.
pub fn put_overdraws<S: Scope>(scope: &S, key: &[u8], value: &[u8]) -> bool
    ensures overdrawn { result ≡ is_overdrawn (own_account (put_value (S.pair scope.now) key.now value.now)) }
    ensures bound { result ≡ false → IsOwnWithinBound (put_value (S.pair scope.now) key.now value.now) }
{
    let own = own_view(scope);
    match footprint_with_value(scope, key, value) {
        Some(footprint) => is_short_of(&own, footprint),
        None => true,
    }
}

// The length of the own value under a key.
pub(crate) fn own_value_length<S: Scope>(scope: &S, key: &[u8]) -> Option<u64>
    ensures { result ≡ option_map length (fin.get (own_account (S.pair scope.now)).storage key.now) }
{
    match scope.value(scope.service(), key) {
        Some(value) => Some(value.len() as u64),
        None => None,
    }
}

/// Whether the own balance would be below the threshold without the value under a key.
pub fn drop_overdraws<S: Scope>(scope: &S, key: &[u8]) -> bool
    ensures { result ≡ is_overdrawn (own_account (drop_value (S.pair scope.now) key.now)) }
{
    let own = own_view(scope);
    is_short_of(&own, footprint_without_value(scope, key))
}

/// Whether the own balance would be below the threshold with a history under a hash and a length. Where it would not, the history
/// may be kept.
pub fn history_overdraws<S: Scope>(
    scope: &S,
    hash: &[u8; 32],
    length: u32,
    history: History,
) -> bool
    ensures overdrawn { result ≡ is_overdrawn (own_account (set_history (S.pair scope.now) hash.now length (Some history))) }
    ensures bound { result ≡ false → IsOwnWithinBound (set_history (S.pair scope.now) hash.now length (Some history)) }
{
    let own = own_view(scope);
    match footprint_with_history(scope, hash, length, Some(history)) {
        Some(footprint) => is_short_of(&own, footprint),
        None => true,
    }
}
