// The text of info.
ghost use Rattle.std.specs.Prelude.{◌≡◌, ◌^◌, ◌-◌, IfOk, min, option_map};
ghost use Rattle.byte_numbers.specs.Numbers.{little_endian};
ghost use Rattle.host_general.specs.GeneralCalls.{info_text, eight_bytes, view_named};

use crate::named::view_named;
use account_context::{AccountView, Scope};
use jam_accounts::threshold;
use std::alloc::{AllocError, Global};

// The eight bytes of a number.
fn bytes_of(number: u64) -> [u8; 8]
    ensures { result ≡ little_endian 8 number }
{
    number.to_le_bytes()
}

// The four bytes of a number.
fn four_bytes(number: u32) -> [u8; 4]
    ensures { result ≡ little_endian 4 number }
{
    number.to_le_bytes()
}

// At most the greatest number of eight bytes.
fn capped(number: u128) -> u64
    ensures { result ≡ min number (2 ^ 64 - 1) }
{
    number.min(u128::from(u64::MAX)) as u64
}

fn eight_bytes(number: u128) -> [u8; 8]
    ensures { result ≡ eight_bytes number }
{
    bytes_of(capped(number))
}

/// What info says of an account.
///
/// # Errors
/// Want of memory.
pub fn info_text(alloc: Global, view: &AccountView) -> Result<Vec<u8>, AllocError>
    ensures { IfOk result (λ text. text.items ≡ info_text view.now) }
{
    let needed = threshold(view.footprint, view.gratis);
    let mut text = Vec::new(alloc);
    text.extend_from_slice(&view.code_hash)?;
    text.extend_from_slice(&eight_bytes(u128::from(view.balance)))?;
    text.extend_from_slice(&eight_bytes(needed))?;
    text.extend_from_slice(&eight_bytes(u128::from(view.min_accumulate)))?;
    text.extend_from_slice(&eight_bytes(u128::from(view.min_transfer)))?;
    text.extend_from_slice(&eight_bytes(view.footprint.octets()))?;
    text.extend_from_slice(&eight_bytes(view.footprint.items()))?;
    text.extend_from_slice(&eight_bytes(u128::from(view.gratis)))?;
    text.extend_from_slice(&four_bytes(view.created))?;
    Ok(text)
}

/// What info says of the service that a word names.
///
/// # Errors
/// Want of memory.
pub fn info_named<S: Scope>(
    alloc: Global,
    scope: &S,
    word: u64,
) -> Result<Option<Vec<u8>>, AllocError>
    ensures { IfOk result (λ text. option_map (λ bytes. bytes.items) text ≡ option_map info_text (view_named (S.pair scope.now) word)) }
{
    match view_named(scope, word) {
        Some(view) => Ok(Some(info_text(alloc, &view)?)),
        None => Ok(None),
    }
}
