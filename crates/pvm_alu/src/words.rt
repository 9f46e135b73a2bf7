// Parts of words of 64 bits.
ghost use Rattle.std.specs.Prelude.{◌≡◌, ◌%◌, ◌^◌};
ghost use Rattle.byte_numbers.specs.Signs.{extended_bits};
ghost use Rattle.pvm_alu.specs.Words.{extended_32, low_32, signed_32};

#[inline]
pub fn low_32(a: u64) -> u32
    ensures { result ≡ low_32 a }
{
    (a & 0xffff_ffff) as u32
}

#[inline]
pub fn signed_32(a: u64) -> i32
    ensures { result ≡ signed_32 a }
{
    low_32(a).cast_signed()
}

#[inline]
pub fn extended_32(a: u64) -> u64
    ensures { result ≡ extended_32 a }
{
    i64::from(signed_32(a)).cast_unsigned()
}

#[inline]
pub fn extended_16(a: u64) -> u64
    ensures { result ≡ extended_bits 16 (a % 2 ^ 16) }
{
    i64::from(((a & 0xffff) as u16).cast_signed()).cast_unsigned()
}

#[inline]
pub fn extended_8(a: u64) -> u64
    ensures { result ≡ extended_bits 8 (a % 2 ^ 8) }
{
    i64::from(((a & 0xff) as u8).cast_signed()).cast_unsigned()
}
