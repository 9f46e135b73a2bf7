// Shifts and rotations. Amounts are modulo the width.
ghost use Rattle.std.specs.Prelude.{◌≡◌, ◌<◌, ◌%◌, ◌^◌};
ghost use Rattle.pvm_alu.specs.Words.{extended_32, low_32, shifted_left, shifted_right, shifted_right_signed, signed_32, signed_64, turned_left, turned_right};

use crate::words::{extended_32, low_32, signed_32};

#[inline]
pub fn shlo_l_32(a: u64, b: u64) -> u64
    ensures { result ≡ extended_32 (shifted_left (low_32 a) (b % 32)) }
{
    extended_32((a & 0xffff_ffff) << (b % 32))
}

#[inline]
pub fn shlo_r_32(a: u64, b: u64) -> u64
    ensures { result ≡ extended_32 (shifted_right (low_32 a) (b % 32)) }
{
    extended_32((a & 0xffff_ffff) >> (b % 32))
}

#[inline]
pub fn shar_r_32(a: u64, b: u64) -> u64
    ensures { result ≡ extended_32 (shifted_right_signed (signed_32 a) (b % 32)) }
{
    i64::from(signed_32(a) >> (b % 32)).cast_unsigned()
}

#[inline]
pub fn shlo_l_64(a: u64, b: u64) -> u64
    ensures { result ≡ shifted_left a (b % 64) % 2 ^ 64 }
{
    a << (b % 64)
}

#[inline]
pub fn shlo_r_64(a: u64, b: u64) -> u64
    ensures { result ≡ shifted_right a (b % 64) }
{
    a >> (b % 64)
}

#[inline]
pub fn shar_r_64(a: u64, b: u64) -> u64
    ensures { result ≡ shifted_right_signed (signed_64 a) (b % 64) }
{
    (a.cast_signed() >> (b % 64)).cast_unsigned()
}

#[inline]
fn turned_right_32(x: u32, by: u32) -> u32
    requires { by < 32 }
    ensures { result ≡ turned_right 32 x by }
{
    x.rotate_right(by)
}

#[inline]
fn turned_left_32(x: u32, by: u32) -> u32
    requires { by < 32 }
    ensures { result ≡ turned_left 32 x by }
{
    x.rotate_left(by)
}

#[inline]
fn turned_right_64(x: u64, by: u32) -> u64
    requires { by < 64 }
    ensures { result ≡ turned_right 64 x by }
{
    x.rotate_right(by)
}

#[inline]
fn turned_left_64(x: u64, by: u32) -> u64
    requires { by < 64 }
    ensures { result ≡ turned_left 64 x by }
{
    x.rotate_left(by)
}

#[inline]
pub fn rot_r_32(a: u64, b: u64) -> u64
    ensures { result ≡ extended_32 (turned_right 32 (low_32 a) (b % 32)) }
{
    extended_32(u64::from(turned_right_32(low_32(a), (b % 32) as u32)))
}

#[inline]
pub fn rot_l_32(a: u64, b: u64) -> u64
    ensures { result ≡ extended_32 (turned_left 32 (low_32 a) (b % 32)) }
{
    extended_32(u64::from(turned_left_32(low_32(a), (b % 32) as u32)))
}

#[inline]
pub fn rot_r_64(a: u64, b: u64) -> u64
    ensures { result ≡ turned_right 64 a (b % 64) }
{
    turned_right_64(a, (b % 64) as u32)
}

#[inline]
pub fn rot_l_64(a: u64, b: u64) -> u64
    ensures { result ≡ turned_left 64 a (b % 64) }
{
    turned_left_64(a, (b % 64) as u32)
}
