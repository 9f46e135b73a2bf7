// Services that words name, and histories that are asked for.
ghost use Rattle.std.specs.Prelude.{◌≡◌, ◌<◌, ◌^◌, OnSome, option_map};
ghost use Rattle.account_context.specs.Context.{view_of};
ghost use Rattle.account_calls.specs.AccountCalls.{service_there, history_asked};

use account_context::{AccountView, Scope};
use call_parts::service_named;
use preimage_store::History;

/// The service that a word names, where it is there, with its account.
pub fn service_there<S: Scope>(scope: &S, word: u64) -> Option<(u32, AccountView)>
    ensures { result ≡ option_map (λ found. (found.0, view_of found.1)) (service_there (S.pair scope.now) word) }
{
    let id = service_named(scope.service(), word)?;
    let view = scope.view(id)?;
    Some((id, view))
}

/// The history of a hash with a length, of a service. A length may be too great for a history: there is none then.
pub fn history_asked<S: Scope>(
    scope: &S,
    service: u32,
    hash: &[u8; 32],
    length: u64,
) -> Option<History>
    ensures history { result ≡ history_asked (S.pair scope.now) service hash.now length }
    ensures short { OnSome result (length < 2 ^ 32) }
{
    if length >= 1 << 32 {
        return None;
    }
    scope.history(service, hash, length as u32)
}
