// Numbers, registers and bytes as a text spells them.
ghost use Rattle.std.specs.Prelude.{◌≡◌, ◌≤◌, ◌<◌, ◌+◌, ◌*◌, ◌^◌, ℕ, Bool, true, min, length, nat_lt, List, MatchOption, None, Some, IsTrue};
ghost use Rattle.std.specs.List.{list_all};
ghost use Rattle.pvm_asm.specs.Numbers.{digit, is_digit, followed_by, spelled, hexadecimal, unsigned, numeral, register_named, holds, least_bytes, is_up_to, is_wide, word_of};

/// A number of a text. Sizes from 2 ^ 64 on are not told apart: they are 2 ^ 64.
#[derive(Clone, Copy)]
pub struct Numeral {
    /// Whether a minus stands before it.
    pub negative: bool,
    /// How far it is from 0.
    pub size: u128,
}

// From here on sizes are one.
const CAP: u128 = 1 << 64;

/// The value of a hexadecimal digit of either case; of another byte it is 16.
pub fn digit(byte: u8) -> u8
    ensures { result ≡ digit byte }
{
    match byte {
        b'0'..=b'9' => byte - b'0',
        b'a'..=b'f' => byte - b'a' + 10,
        b'A'..=b'F' => byte - b'A' + 10,
        _ => 16,
    }
}

/// Whether all bytes are digits to this base.
pub fn are_digits(bytes: &[u8], base: u8) -> bool
    ensures { result ≡ list_all (is_digit base) bytes.now }
{
    bytes.iter().all(|b| digit(*b) < base)
}

// The number that digits spell, or 2 ^ 64 where it is more.
#[tactic(auto, using(crate::proofs::Digits::digit_step))]
fn size_of(digits: &[u8], base: u8) -> u128
    requires low { 0 < base }
    requires high { base ≤ 16 }
    ensures { result ≡ min (followed_by base 0 digits.now) (2 ^ 64) }
{
    let mut size = 0u128;
    for b in digits {
        size = (size * u128::from(base) + u128::from(digit(*b))).min(CAP);
    }
    size
}

// The number that digits spell, of which there is at least one.
fn spelled(digits: &[u8], base: u8) -> Option<u128>
    requires low { 0 < base }
    requires high { base ≤ 16 }
    ensures { result ≡ spelled base digits.now }
{
    if !digits.is_empty() && are_digits(digits, base) {
        Some(size_of(digits, base))
    } else {
        None
    }
}

/// A number without a sign.
pub fn unsigned(word: &[u8]) -> Option<u128>
    ensures { result ≡ unsigned word.now }
{
    match word {
        [b'0', b'x', digits @ ..] => {
            if digits.len() <= 16 {
                spelled(digits, 16)
            } else {
                None
            }
        }
        _ => spelled(word, 10),
    }
}

/// A number: decimal digits, which may have a minus before them, or hexadecimal ones.
pub fn number_in(word: &[u8]) -> Option<Numeral>
    ensures { result ≡ numeral word.now }
{
    match word {
        [b'-', digits @ ..] => {
            let size = spelled(digits, 10)?;
            Some(Numeral {
                negative: true,
                size,
            })
        }
        _ => {
            let size = unsigned(word)?;
            Some(Numeral {
                negative: false,
                size,
            })
        }
    }
}

/// The register that a word names, `r0` to `r12`.
pub fn register_named(word: &[u8]) -> Option<u8>
    ensures { result ≡ register_named word.now }
{
    match word {
        [b'r', one] if digit(*one) < 10 => Some(digit(*one)),
        [b'r', b'1', one] if digit(*one) < 3 => Some(10 + digit(*one)),
        _ => None,
    }
}

impl Numeral {
    // Whether n bytes hold it with its sign.
    fn is_held(&self, n: u8) -> bool
        requires low { 1 ≤ n }
        requires high { n ≤ 8 }
        ensures { result ≡ holds n self.now }
    {
        let half = 1u128 << (8 * n - 1);
        if self.negative {
            self.size <= half
        } else {
            self.size < half
        }
    }

    /// Whether it is an immediate: -2 ^ 31 to 2 ^ 31 - 1.
    pub fn is_immediate(&self) -> bool
        ensures { result ≡ holds 4 self.now }
    {
        self.is_held(4)
    }

    /// The least number of bytes that give it.
    pub fn least_bytes(&self) -> u8
        ensures value { result ≡ least_bytes self.now }
        ensures most { result ≤ 4 }
    {
        if self.size == 0 {
            0
        } else if self.is_held(1) {
            1
        } else if self.is_held(2) {
            2
        } else if self.is_held(3) {
            3
        } else {
            4
        }
    }

    /// Whether it is a number from 0 to a limit.
    pub fn is_up_to(&self, most: u64) -> bool
        ensures { result ≡ is_up_to most self.now }
    {
        self.size <= u128::from(most) && (self.size == 0 || !self.negative)
    }

    /// Whether it is an immediate of 64 bits: -2 ^ 63 to 2 ^ 64 - 1.
    pub fn is_wide(&self) -> bool
        ensures { result ≡ is_wide self.now }
    {
        if self.negative {
            self.size <= 1 << 63
        } else {
            self.size < CAP
        }
    }

    /// It as a number of 64 bits.
    pub fn word(&self) -> u128
        ensures { result ≡ word_of self.now }
    {
        if self.negative && self.size > 0 {
            CAP.saturating_sub(self.size)
        } else {
            self.size
        }
    }
}
