// Spellings at the end of bytes.
ghost use Rattle.std.specs.Prelude.{◌≡◌, ◌+◌, ◌-◌, ◌*◌, ◌/◌, ◌%◌, ◌^◌, ◌<◌, ◌≤◌, ◌++◌, length, take, drop, replicate, OnOk, OnErr};
ghost use Rattle.jam_codec.specs.Spelling.{natural, tail_length, prefix_of, binary_number, packed};
ghost use Rattle.byte_numbers.specs.Numbers.{little_endian};

use crate::natural::least_natural;
use std::alloc::AllocError;

// How many bytes follow the first one of this natural.
fn tail_for(x: u64) -> usize
    ensures { result ≡ tail_length x }
{
    let mut length = 0;
    while length < 8 && least_natural(length + 1) <= x {
        length += 1;
    }
    length
}

// The first byte of a natural that so many bytes follow.
fn first_byte(length: usize, x: u64) -> u8
    requires { length ≡ tail_length x }
    ensures { result ≡ prefix_of length + x / 2 ^ (8 * length) }
{
    if length == 8 {
        return 0xff;
    }
    (0x100 - (0x100 >> length) + (x >> (8 * length))) as u8
}

// The part of a natural in the bytes after the first.
fn low_part(length: usize, x: u64) -> u64
    requires { length ≤ 8 }
    ensures { result ≡ x % 2 ^ (8 * length) }
{
    if length == 8 {
        return x;
    }
    x % (1 << (8 * length))
}

/// The spelling of a natural at the front of the array, and how many bytes it takes. The other bytes are 0.
#[tactic(auto, unfolding(crate::specs::Spelling::natural))]
pub fn spell_natural(x: u64) -> ([u8; 9], usize)
    ensures spelled { take result.1 result.0 ≡ natural x }
    ensures others { drop result.1 result.0 ≡ replicate (9 - result.1) 0 }
    ensures size { (0 < result.1) × (result.1 ≤ 9) }
{
    let length = tail_for(x);
    let mut bytes = [0; 9];
    bytes[0] = first_byte(length, x);
    bytes[1..].copy_from_slice(&low_part(length, x).to_le_bytes());
    (bytes, length + 1)
}

/// Adds the spelling of a natural.
///
/// # Errors
/// Want of memory; then nothing was added.
pub fn push_natural(out: &mut Vec<u8>, x: u64) -> Result<(), AllocError>
    ensures ok { OnOk result (out.new.items ≡ out.old.items ++ natural x) }
    ensures err { OnErr result (out.new.items ≡ out.old.items) }
{
    let (bytes, length) = spell_natural(x);
    out.extend_from_slice(&bytes[..length])
}

/// Adds a number in `width` bytes, the least significant first.
///
/// # Errors
/// Want of memory; then nothing was added.
pub fn push_fixed(out: &mut Vec<u8>, width: u8, x: u64) -> Result<(), AllocError>
    requires width { width ≤ 8 }
    requires below { x < 2 ^ (8 * width) }
    ensures ok { OnOk result (out.new.items ≡ out.old.items ++ little_endian width x) }
    ensures err { OnErr result (out.new.items ≡ out.old.items) }
{
    let bytes = x.to_le_bytes();
    out.extend_from_slice(&bytes[..usize::from(width)])
}

/// Adds the length of bytes, and the bytes.
///
/// # Errors
/// Want of memory; then nothing was added.
pub fn push_blob(out: &mut Vec<u8>, bytes: &[u8]) -> Result<(), AllocError>
    ensures ok { OnOk result (out.new.items ≡ out.old.items ++ natural (length bytes.now) ++ bytes.now) }
    ensures err { OnErr result (out.new.items ≡ out.old.items) }
{
    let mark = out.len();
    push_natural(out, bytes.len() as u64)?;
    let pushed = out.extend_from_slice(bytes);
    if pushed.is_err() {
        out.truncate(mark);
    }
    pushed
}

// The byte that holds up to 8 bits.
fn byte_of(bits: &[bool]) -> u8
    requires { length bits.now ≤ 8 }
    ensures { result ≡ binary_number bits.now }
{
    let mut byte = 0;
    let mut place = bits.len();
    while place > 0 {
        place -= 1;
        byte = 2 * byte + u8::from(bits[place]);
    }
    byte
}

// Adds packed bits, or some of their bytes.
fn push_packed(out: &mut Vec<u8>, bits: &[bool]) -> Result<(), AllocError>
    ensures ok { OnOk result (out.new.items ≡ out.old.items ++ packed bits.now) }
    ensures err { OnErr result (take (length out.old.items) out.new.items ≡ out.old.items) }
{
    let mut left = bits;
    while !left.is_empty() {
        let (front, rest) = left.split_at(left.len().min(8));
        out.push(byte_of(front))?;
        left = rest;
    }
    Ok(())
}

/// Adds bits, packed in bytes.
///
/// # Errors
/// Want of memory; then nothing was added.
pub fn push_bits(out: &mut Vec<u8>, bits: &[bool]) -> Result<(), AllocError>
    ensures ok { OnOk result (out.new.items ≡ out.old.items ++ packed bits.now) }
    ensures err { OnErr result (out.new.items ≡ out.old.items) }
{
    let mark = out.len();
    let pushed = push_packed(out, bits);
    if pushed.is_err() {
        out.truncate(mark);
    }
    pushed
}
