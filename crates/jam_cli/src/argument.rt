// The arguments of words.
ghost use Rattle.std.specs.Prelude.{◌≡◌, ◌≢◌, ◌<◌, ◌≤◌, ◌^◌, [], List, ℕ, Ok, Err, IfOk, MatchResult, IsTrue, ◌↔◌, decimal, string_bytes};
ghost use Rattle.hex.specs.Hex.{decode_of};
ghost use Rattle.jam_cli.specs.declared.argument.Misfit.TheVariants.{OtherWords, NoMemory};
ghost use Rattle.jam_cli.specs.Table.{hexadecimal, Fits, IsWord};

use crate::number::Small;
use hex::FromHexError;
use std::alloc::{AllocError, AllocFailed, Global};

/// Why a word is not one of an argument, or words are not those of a verb.
#[derive(Clone, Copy, Debug, PartialEq, Eq)]
pub enum Misfit {
    OtherWords,
    NoMemory,
}

impl From<AllocError> for Misfit {
    ghost from_gives = { λ _ e. e ≡ NoMemory };

    fn from(_: AllocError) -> Self {
        Misfit::NoMemory
    }
}

impl<T: Drop> From<AllocFailed<T>> for Misfit {
    ghost from_gives = { λ _ e. e ≡ NoMemory };

    fn from(_: AllocFailed<T>) -> Self {
        Misfit::NoMemory
    }
}

/// Whether a word is a text.
pub fn is_text(word: &str, text: &str) -> bool
    ensures { IsTrue result ↔ (word.now ≡ text.now) }
{
    word == text
}

/// A word that is a name.
pub fn name(word: &String) -> Result<&str, Misfit>
    ensures { MatchResult result
        (λ name. (name.now ≡ string_bytes word.now) × (string_bytes word.now ≢ []))
        (λ e. (e ≡ OtherWords) × (string_bytes word.now ≡ [])) }
{
    if word.is_empty() {
        return Err(Misfit::OtherWords);
    }
    Ok(word.as_str())
}

/// The number from the least on and below the bound whose decimal digits without leading zeros are the word.
pub fn number(alloc: Global, word: &String, least: u64, bound: u64) -> Result<u64, Misfit>
    ensures fits { IfOk result (λ n. (least ≤ n) × (n < bound) × (string_bytes word.now ≡ decimal n)) }
    ensures other { result ≡ Err OtherWords → (n : ℕ) → least ≤ n → n < bound → string_bytes word.now ≢ decimal n }
{
    let Ok(number) = word.as_str().parse::<u64>() else {
        return Err(Misfit::OtherWords);
    };
    if number < least || number >= bound {
        return Err(Misfit::OtherWords);
    }
    let digits = number.to_string(alloc)?;
    if is_text(digits.as_str(), word.as_str()) {
        Ok(number)
    } else {
        Err(Misfit::OtherWords)
    }
}

/// The same for any number below 2^63.
pub fn small(alloc: Global, word: &String) -> Result<Small, Misfit>
    ensures fits { IfOk result (λ n. string_bytes word.now ≡ decimal n.value) }
    ensures other { result ≡ Err OtherWords → (n : ℕ) → n < 2 ^ 63 → string_bytes word.now ≢ decimal n }
{
    let value = number(alloc, word, 0, 1 << 63)?;
    Ok(Small { value })
}

// The bytes of an even number of digits of either case.
fn pairs(alloc: Global, word: &str) -> Result<Vec<u8>, Misfit>
    ensures ok { IfOk result (λ bytes. decode_of word.now ≡ Ok bytes.items) }
    ensures other { result ≡ Err OtherWords → (bytes : List ℕ) → decode_of word.now ≢ Ok bytes }
{
    match hex::decode(alloc, word) {
        Ok(bytes) => Ok(bytes),
        Err(FromHexError::OutOfMemory) => Err(Misfit::NoMemory),
        Err(_) => Err(Misfit::OtherWords),
    }
}

/// The bytes that a word spells in hexadecimal, where they are no fewer than the least and no more than the most: a dash
/// is no bytes, and else two digits of either case are a byte each.
///
/// # Errors
///
/// `OtherWords` exactly where the word spells no such bytes, but for `NoMemory`.
pub fn hexadecimal(alloc: Global, word: &str, least: usize, most: usize) -> Result<Vec<u8>, Misfit>
    ensures fits { IfOk result (λ bytes. Fits (hexadecimal least most) bytes.items × IsWord (hexadecimal least most) bytes.items word.now) }
    ensures other { result ≡ Err OtherWords → (bytes : List ℕ) → Fits (hexadecimal least most) bytes → IsWord (hexadecimal least most) bytes word.now → ⊥ }
{
    if is_text(word, "-") {
        return if least == 0 {
            Ok(Vec::new(alloc))
        } else {
            Err(Misfit::OtherWords)
        };
    }
    let bytes = pairs(alloc, word)?;
    if bytes.is_empty() || bytes.len() < least || bytes.len() > most {
        return Err(Misfit::OtherWords);
    }
    Ok(bytes)
}
