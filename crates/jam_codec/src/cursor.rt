// A place in bytes, from which fields are read one after another.
ghost use Rattle.std.specs.Prelude.{◌≡◌, ◌+◌, ◌*◌, ◌^◌, ◌<◌, ◌≤◌, List, ℕ, Bool, [], ◌++◌, length, IfOk, IfErr, OnErr, IsTrue, ◌↔◌, Some};
ghost use Rattle.jam_codec.specs.Reading.{Reading, Takes, Reads, natural_at, fixed_at, bytes_at, bits_at};
ghost use Rattle.jam_codec.specs.Format.{any};
ghost use Rattle.jam_codec.specs.Lists.{blob_where, HasNoBlob, option_tag};
ghost use Rattle.jam_codec.specs.Spelling.{natural, binary_digits, bytes_for, packed};
ghost use Rattle.byte_numbers.specs.Numbers.{little_endian, little_number};

use crate::natural::{number_of, split_natural};
use crate::spare::has_spare_bit;
use std::marker::Model;

/// No field spells at this place.
#[derive(Clone, Copy, Debug, PartialEq, Eq)]
pub struct Malformed {
    /// How many bytes stand before it.
    pub place: u64,
}

/// Reads fields from the front of bytes. A call that is refused leaves it where it was.
#[derive(Drop)]
pub struct Cursor<'a> {
    place: u64,
    rest: &'a [u8],
}

impl<'a> Model for Cursor<'a> {
    ghost Value = { Reading };

    ghost view = { λ c. record { place = c.place; rest = c.rest.now } };

    ghost invariant = { λ c. c.place + length c.rest.now < 2 ^ 64 };
}

impl<'a> Cursor<'a> {
    /// At the front of these bytes.
    pub fn new(bytes: &'a [u8]) -> Cursor<'a>
        ensures { result ≡ record { place = 0; rest = bytes.now } }
    {
        Cursor {
            place: 0,
            rest: bytes,
        }
    }

    /// How many bytes were read.
    pub fn place(&self) -> u64
        ensures place { result ≡ self.now.place }
        ensures bound { self.now.place + length self.now.rest < 2 ^ 64 }
    {
        self.place
    }

    /// How many bytes are left.
    pub fn remaining(&self) -> u64
        ensures { result ≡ length self.now.rest }
    {
        self.rest.len() as u64
    }

    /// Whether no byte is left.
    pub fn at_end(&self) -> bool
        ensures { IsTrue result ↔ (self.now.rest ≡ []) }
    {
        self.rest.is_empty()
    }

    /// The next n bytes.
    ///
    /// # Errors
    /// `Malformed` where fewer are left.
    #[tactic(auto, unfolding(crate::specs::Reading::bytes_at))]
    pub fn bytes(&mut self, n: u64) -> Result<&'a [u8], Malformed>
        ensures exact { Reads (λ e. Some e.place) (λ found. found.now) result self.new (bytes_at n self.old) }
        ensures ok { IfOk result (λ found. (length found.now ≡ n) × Takes self.old found.now self.new) }
        ensures malformed { IfErr result (λ e. (e.place ≡ self.old.place) × (length self.old.rest < n)) }
        ensures err { OnErr result (self.new ≡ self.old) }
    {
        if self.remaining() < n {
            return Err(Malformed { place: self.place });
        }
        let (front, rest) = self.rest.split_at(n as usize);
        self.rest = rest;
        self.place += n;
        Ok(front)
    }

    /// The number in the next `width` bytes, the least significant first.
    ///
    /// # Errors
    /// `Malformed` where fewer are left.
    #[tactic(auto, unfolding(crate::specs::Reading::fixed_at, crate::specs::Reading::bytes_at))]
    pub fn fixed(&mut self, width: u8) -> Result<u64, Malformed>
        requires { width ≤ 8 }
        ensures exact { Reads (λ e. Some e.place) (λ x. x) result self.new (fixed_at width self.old) }
        ensures ok { IfOk result (λ x. (x < 2 ^ (8 * width)) × Takes self.old (little_endian width x) self.new) }
        ensures malformed { IfErr result (λ e. (e.place ≡ self.old.place) × (length self.old.rest < width)) }
        ensures err { OnErr result (self.new ≡ self.old) }
    {
        let found = self.bytes(u64::from(width))?;
        Ok(number_of(found))
    }

    /// The natural that is spelled next.
    ///
    /// # Errors
    /// `Malformed` where none is: bytes are missing, or fewer would do.
    #[tactic(auto, unfolding(crate::specs::Reading::natural_at))]
    pub fn natural(&mut self) -> Result<u64, Malformed>
        ensures exact { Reads (λ e. Some e.place) (λ x. x) result self.new (natural_at self.old) }
        ensures ok { IfOk result (λ x. (x < 2 ^ 64) × Takes self.old (natural x) self.new) }
        ensures malformed { IfErr result (λ e. (e.place ≡ self.old.place)
            × ((x : ℕ) (tail : List ℕ) → x < 2 ^ 64 → self.old.rest ≡ natural x ++ tail → ⊥)) }
        ensures err { OnErr result (self.new ≡ self.old) }
    {
        match split_natural(self.rest) {
            None => Err(Malformed { place: self.place }),
            Some((value, rest)) => {
                self.place += (self.rest.len() - rest.len()) as u64;
                self.rest = rest;
                Ok(value)
            }
        }
    }

    /// The bytes in which the next n bits are packed.
    ///
    /// # Errors
    /// `Malformed` where bytes are missing, or a bit is set beyond the n.
    #[tactic(auto, unfolding(crate::specs::Reading::bits_at))]
    pub fn bits(&mut self, n: u64) -> Result<&'a [u8], Malformed>
        ensures exact { Reads (λ e. Some e.place) (λ found. binary_digits n (little_number found.now)) result self.new (bits_at n self.old) }
        ensures size { IfOk result (λ found. length found.now ≡ bytes_for n) }
        ensures ok { IfOk result (λ found. (found.now ≡ packed (binary_digits n (little_number found.now))) × Takes self.old found.now self.new) }
        ensures malformed { IfErr result (λ e. (e.place ≡ self.old.place)
            × ((x : List Bool) (tail : List ℕ) → length x ≡ n → self.old.rest ≡ packed x ++ tail → ⊥)) }
        ensures err { OnErr result (self.new ≡ self.old) }
    {
        let count = n.div_ceil(8);
        if self.remaining() < count {
            return Err(Malformed { place: self.place });
        }
        let (front, rest) = self.rest.split_at(count as usize);
        if has_spare_bit(front, n) {
            return Err(Malformed { place: self.place });
        }
        self.rest = rest;
        self.place += count;
        Ok(front)
    }

    /// A second cursor at the same place, for fields that are read all or none.
    pub fn ahead(&self) -> Cursor<'a>
        ensures same { result ≡ self.now }
        ensures bound { self.now.place + length self.now.rest < 2 ^ 64 }
    {
        Cursor {
            place: self.place,
            rest: self.rest,
        }
    }

    /// The bytes of a blob: its length stands before them.
    ///
    /// # Errors
    /// `Malformed` where no length is spelled, or, at the first byte after the length, where fewer bytes are left.
    #[tactic(auto, using(std::proofs::lemmas::Result::err_from_is_err_and))]
    pub fn blob(&mut self) -> Result<&'a [u8], Malformed>
        ensures exact { Reads (λ e. Some e.place) (λ found. found.now) result self.new ((blob_where any).read self.old) }
        ensures ok { IfOk result (λ found. Takes self.old (natural (length found.now) ++ found.now) self.new) }
        ensures malformed { IfErr result (λ e. HasNoBlob self.old e.place) }
        ensures none { IfErr result (λ e. (x tail : List ℕ) → length x < 2 ^ 64 → self.old.rest ≡ (natural (length x) ++ x) ++ tail → ⊥) }
        ensures err { OnErr result (self.new ≡ self.old) }
    {
        let mut ahead = self.ahead();
        let length = ahead.natural()?;
        let found = ahead.bytes(length)?;
        *self = ahead;
        Ok(found)
    }

    /// Whether a value follows, as the tag before it says.
    ///
    /// # Errors
    /// `Malformed` where no byte is left, or the byte is neither 0 nor 1.
    #[tactic(auto, using(std::proofs::lemmas::Result::err_from_is_err_and))]
    pub fn option_tag(&mut self) -> Result<bool, Malformed>
        ensures exact { Reads (λ e. Some e.place) (λ present. present) result self.new (option_tag.read self.old) }
        ensures ok { IfOk result (λ present. Takes self.old (option_tag.spell present) self.new) }
        ensures malformed { IfErr result (λ e. e.place ≡ self.old.place) }
        ensures none { IfErr result (λ e. (x : Bool) (tail : List ℕ) → self.old.rest ≡ option_tag.spell x ++ tail → ⊥) }
        ensures err { OnErr result (self.new ≡ self.old) }
    {
        let mut ahead = self.ahead();
        let tag = ahead.fixed(1)?;
        if tag > 1 {
            return Err(Malformed { place: self.place });
        }
        *self = ahead;
        Ok(tag == 1)
    }
}
