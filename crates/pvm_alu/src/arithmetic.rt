// Sums, products, quotients and remainders.
ghost use Rattle.std.specs.Prelude.{◌≡◌, ◌≢◌, ◌+◌, ◌*◌, ◌%◌, ◌^◌, pos, ◌*ℤ◌, int_div, int_rem};
ghost use Rattle.pvm_alu.specs.Words.{difference, extended_32, low_32, modulo_64, quotient, remainder, signed_32, signed_64, signed_quotient, signed_remainder, upper_half};

use crate::words::{extended_32, low_32, signed_32};

#[inline]
pub fn add_32(a: u64, b: u64) -> u64
    ensures { result ≡ extended_32 (a + b) }
{
    extended_32(a.wrapping_add(b))
}

#[inline]
pub fn sub_32(a: u64, b: u64) -> u64
    ensures { result ≡ extended_32 (difference a b) }
{
    extended_32(a.wrapping_sub(b))
}

#[inline]
pub fn mul_32(a: u64, b: u64) -> u64
    ensures { result ≡ extended_32 (a * b) }
{
    extended_32(a.wrapping_mul(b))
}

#[inline]
pub fn add_64(a: u64, b: u64) -> u64
    ensures { result ≡ (a + b) % 2 ^ 64 }
{
    a.wrapping_add(b)
}

#[inline]
pub fn sub_64(a: u64, b: u64) -> u64
    ensures { result ≡ difference a b }
{
    a.wrapping_sub(b)
}

#[inline]
pub fn mul_64(a: u64, b: u64) -> u64
    ensures { result ≡ a * b % 2 ^ 64 }
{
    a.wrapping_mul(b)
}

#[inline]
pub fn div_u_32(a: u64, b: u64) -> u64
    ensures { result ≡ extended_32 (quotient (low_32 a) (low_32 b)) }
{
    let divisor = low_32(b);
    if divisor == 0 {
        u64::MAX
    } else {
        extended_32(u64::from(low_32(a) / divisor))
    }
}

#[inline]
pub fn rem_u_32(a: u64, b: u64) -> u64
    ensures { result ≡ extended_32 (remainder (low_32 a) (low_32 b)) }
{
    let divisor = low_32(b);
    if divisor == 0 {
        extended_32(a)
    } else {
        extended_32(u64::from(low_32(a) % divisor))
    }
}

// In 64 bits, since that of the least number by -1 has no place in 32.
#[inline]
fn quotient_32(x: i32, y: i32) -> u64
    requires { y ≢ pos 0 }
    ensures { result ≡ modulo_64 (int_div x y) }
{
    (i64::from(x) / i64::from(y)).cast_unsigned()
}

#[inline]
fn remainder_32(x: i32, y: i32) -> u64
    requires { y ≢ pos 0 }
    ensures { result ≡ modulo_64 (int_rem x y) }
{
    i64::from(x).wrapping_rem(i64::from(y)).cast_unsigned()
}

#[inline]
pub fn div_s_32(a: u64, b: u64) -> u64
    ensures { result ≡ extended_32 (signed_quotient (signed_32 a) (signed_32 b)) }
{
    let divisor = signed_32(b);
    if divisor == 0 {
        u64::MAX
    } else {
        extended_32(quotient_32(signed_32(a), divisor))
    }
}

#[inline]
pub fn rem_s_32(a: u64, b: u64) -> u64
    ensures { result ≡ extended_32 (signed_remainder (signed_32 a) (signed_32 b)) }
{
    let divisor = signed_32(b);
    if divisor == 0 {
        extended_32(a)
    } else {
        remainder_32(signed_32(a), divisor)
    }
}

#[inline]
pub fn div_u_64(a: u64, b: u64) -> u64
    ensures { result ≡ quotient a b }
{
    if b == 0 { u64::MAX } else { a / b }
}

#[inline]
pub fn rem_u_64(a: u64, b: u64) -> u64
    ensures { result ≡ remainder a b }
{
    if b == 0 { a } else { a % b }
}

#[inline]
pub fn div_s_64(a: u64, b: u64) -> u64
    ensures { result ≡ signed_quotient (signed_64 a) (signed_64 b) }
{
    if b == 0 {
        u64::MAX
    } else {
        a.cast_signed()
            .wrapping_div(b.cast_signed())
            .cast_unsigned()
    }
}

#[inline]
pub fn rem_s_64(a: u64, b: u64) -> u64
    ensures { result ≡ signed_remainder (signed_64 a) (signed_64 b) }
{
    if b == 0 {
        a
    } else {
        a.cast_signed()
            .wrapping_rem(b.cast_signed())
            .cast_unsigned()
    }
}

#[inline]
fn product_s_u(a: i64, b: u64) -> i128
    ensures { result ≡ a *ℤ pos b }
{
    i128::from(a) * i128::from(b)
}

#[inline]
fn upper_half(product: i128) -> u64
    ensures { result ≡ upper_half product }
{
    ((product >> 64).cast_unsigned() & 0xffff_ffff_ffff_ffff) as u64
}

#[inline]
pub fn mul_upper_s_s(a: u64, b: u64) -> u64
    ensures { result ≡ upper_half (signed_64 a *ℤ signed_64 b) }
{
    upper_half(i128::from(a.cast_signed()) * i128::from(b.cast_signed()))
}

#[inline]
pub fn mul_upper_u_u(a: u64, b: u64) -> u64
    ensures { result ≡ upper_half (pos a *ℤ pos b) }
{
    (((u128::from(a) * u128::from(b)) >> 64) & 0xffff_ffff_ffff_ffff) as u64
}

#[inline]
pub fn mul_upper_s_u(a: u64, b: u64) -> u64
    ensures { result ≡ upper_half (signed_64 a *ℤ pos b) }
{
    upper_half(product_s_u(a.cast_signed(), b))
}
