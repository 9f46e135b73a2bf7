// What the own balance carries.
ghost use Rattle.std.specs.Prelude.{◌≡◌, ◌-◌, Some, None, if◌then◌else◌};
ghost use Rattle.account_context.specs.Context.{own_account};
ghost use Rattle.account_calls.specs.AccountCalls.{can_spend};

use account_context::Scope;
use host_general::own_view;
use jam_accounts::threshold;

/// What is left of the own balance once an amount is spent, where it carries that beside the deposits.
pub fn balance_after<S: Scope>(scope: &S, amount: u64) -> Option<u64>
    ensures { result ≡ (if can_spend (own_account (S.pair scope.now)) amount then Some ((own_account (S.pair scope.now)).balance - amount) else None) }
{
    let own = own_view(scope);
    let needed = threshold(own.footprint, own.gratis) + u128::from(amount);
    if needed > u128::from(own.balance) {
        return None;
    }
    Some(own.balance - amount)
}
