// Words of a text, and bytes that a text spells.
ghost use Rattle.std.specs.Prelude.{◌≡◌, ◌+◌, ◌*◌, true, ◌/◌, ◌++◌, length, Some, None, MatchOption, OnOk};
ghost use Rattle.pvm_asm.specs.Numbers.{hex_bytes, paired, digit, is_digit};

use crate::numeral::{are_digits, digit};
use std::alloc::AllocError;
use std::marker::Model;

/// A word of a text.
#[derive(Drop)]
pub struct Word<'a> {
    bytes: &'a [u8],
}

impl<'a> Model for Word<'a> {
    ghost use Rattle.std.specs.Prelude.{List, ℕ};

    ghost Value = { List ℕ };

    ghost view = { λ w. w.bytes.now };
}

impl<'a> Word<'a> {
    /// The word of these bytes.
    pub fn new(bytes: &'a [u8]) -> Word<'a>
        ensures { result ≡ bytes.now }
    {
        Word { bytes }
    }

    /// Its bytes.
    pub fn bytes(&self) -> &'a [u8]
        ensures { result.now ≡ self.now }
    {
        self.bytes
    }
}

/// Bytes that a text spells in hexadecimal.
#[derive(Drop)]
pub struct Hex<'a> {
    digits: &'a [u8],
}

impl<'a> Model for Hex<'a> {
    ghost use Rattle.std.specs.Prelude.{List, ℕ};
    ghost use Rattle.std.specs.Prelude.{◌≡◌, true};
    ghost use Rattle.std.specs.List.{list_all};
    ghost use Rattle.pvm_asm.specs.Numbers.{paired, is_digit};

    ghost Value = { List ℕ };

    ghost view = { λ h. paired h.digits.now };

    ghost invariant = { λ h. list_all (is_digit 16) h.digits.now ≡ true };
}

// The byte of two hexadecimal digits.
fn pair(high: u8, low: u8) -> u8
    requires high { is_digit 16 high ≡ true }
    requires low { is_digit 16 low ≡ true }
    ensures { result ≡ 16 * digit high + digit low }
{
    16 * digit(high) + digit(low)
}

impl<'a> Hex<'a> {
    /// The bytes of a word: an even number of digits of either case, at least two.
    pub fn read(word: &'a [u8]) -> Option<Hex<'a>>
        ensures { result ≡ hex_bytes word.now }
    {
        if !word.is_empty() && word.len() % 2 == 0 && are_digits(word, 16) {
            Some(Hex { digits: word })
        } else {
            None
        }
    }

    /// How many bytes they are.
    #[tactic(auto, using(crate::proofs::Digits::length_paired))]
    pub fn len(&self) -> usize
        ensures { result ≡ length self.now }
    {
        self.digits.len() / 2
    }

    /// Adds them.
    ///
    /// # Errors
    /// Want of memory; then some of them may have been added.
    pub fn push_to(&self, out: &mut Vec<u8>) -> Result<(), AllocError>
        ensures { OnOk result (out.new.items ≡ out.old.items ++ self.now) }
    {
        let mut left = self.digits;
        'pairs: while let [high, low, more @ ..] = left {
            out.push(pair(*high, *low))?;
            left = more;
        }
        Ok(())
    }
}
