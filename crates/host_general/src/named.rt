// What stands in the account of the service that a word names.
ghost use Rattle.std.specs.Prelude.{◌≡◌, option_map};
ghost use Rattle.host_general.specs.GeneralCalls.{preimage_named, value_named, view_named};

use account_context::{AccountView, Scope};
use call_parts::service_named;

pub fn view_named<S: Scope>(scope: &S, word: u64) -> Option<AccountView>
    ensures { result ≡ view_named (S.pair scope.now) word }
{
    let id = service_named(scope.service(), word)?;
    scope.view(id)
}

pub fn value_named<'a, S: Scope>(scope: &'a S, word: u64, key: &[u8]) -> Option<&'a [u8]>
    ensures { option_map (λ value. value.now) result ≡ value_named (S.pair scope.now) word key.now }
{
    let id = service_named(scope.service(), word)?;
    scope.value(id, key)
}

pub fn preimage_named<'a, S: Scope>(scope: &'a S, word: u64, hash: &[u8; 32]) -> Option<&'a [u8]>
    ensures { option_map (λ bytes. bytes.now) result ≡ preimage_named (S.pair scope.now) word hash.now }
{
    let id = service_named(scope.service(), word)?;
    scope.preimage(id, hash)
}
