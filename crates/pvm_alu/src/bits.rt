// Bits, and the larger and smaller of two numbers.
ghost use Rattle.std.specs.Prelude.{◌≡◌, if◌then◌else◌, int_lt, bit_and, bit_or, bit_xor};
ghost use Rattle.std.specs.Int.{w32, w64, leading_zeros, trailing_zeros};
ghost use Rattle.std.specs.Int.RustNames.{count_ones};
ghost use Rattle.pvm_alu.specs.Words.{inverted, low_32, one_where, signed_64};

use crate::words::low_32;

#[inline]
pub fn and_inv(a: u64, b: u64) -> u64
    ensures { result ≡ bit_and a (inverted b) }
{
    a & !b
}

#[inline]
pub fn or_inv(a: u64, b: u64) -> u64
    ensures { result ≡ bit_or a (inverted b) }
{
    a | !b
}

#[inline]
pub fn xnor(a: u64, b: u64) -> u64
    ensures { result ≡ inverted (bit_xor a b) }
{
    !(a ^ b)
}

#[inline]
pub fn less_signed(a: u64, b: u64) -> bool
    ensures { result ≡ int_lt (signed_64 a) (signed_64 b) }
{
    a.cast_signed() < b.cast_signed()
}

#[inline]
pub fn max_signed(a: u64, b: u64) -> u64
    ensures { result ≡ (if int_lt (signed_64 a) (signed_64 b) then b else a) }
{
    if less_signed(a, b) { b } else { a }
}

#[inline]
pub fn min_signed(a: u64, b: u64) -> u64
    ensures { result ≡ (if int_lt (signed_64 a) (signed_64 b) then a else b) }
{
    if less_signed(a, b) { a } else { b }
}

#[inline]
pub fn one_where(passes: bool) -> u64
    ensures { result ≡ one_where passes }
{
    u64::from(passes)
}

#[inline]
pub fn count_set_bits_64(a: u64) -> u64
    ensures { result ≡ count_ones a }
{
    u64::from(a.count_ones())
}

#[inline]
pub fn count_set_bits_32(a: u64) -> u64
    ensures { result ≡ count_ones (low_32 a) }
{
    u64::from(low_32(a).count_ones())
}

#[inline]
pub fn leading_zero_bits_64(a: u64) -> u64
    ensures { result ≡ leading_zeros w64 a }
{
    u64::from(a.leading_zeros())
}

#[inline]
pub fn leading_zero_bits_32(a: u64) -> u64
    ensures { result ≡ leading_zeros w32 (low_32 a) }
{
    u64::from(low_32(a).leading_zeros())
}

#[inline]
pub fn trailing_zero_bits_64(a: u64) -> u64
    ensures { result ≡ trailing_zeros w64 a }
{
    u64::from(a.trailing_zeros())
}

#[inline]
pub fn trailing_zero_bits_32(a: u64) -> u64
    ensures { result ≡ trailing_zeros w32 (low_32 a) }
{
    u64::from(low_32(a).trailing_zeros())
}
