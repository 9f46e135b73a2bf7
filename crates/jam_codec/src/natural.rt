// Numbers at the front of bytes.
ghost use Rattle.std.specs.Prelude.{◌≡◌, ◌+◌, ◌-◌, ◌*◌, ◌^◌, ◌<◌, ◌≤◌, ◌++◌, length, IfSome, MatchOption, Some, None};
ghost use Rattle.byte_numbers.specs.Numbers.{little_endian, little_number};
ghost use Rattle.jam_codec.specs.Spelling.{natural, prefix_of};
ghost use Rattle.jam_codec.specs.Reading.{least_with, natural_of, tail_after};

use byteorder::{ByteOrder, LittleEndian};

/// The number in these bytes, the least significant first; of no bytes it is 0.
pub fn number_of(bytes: &[u8]) -> u64
    requires { length bytes.now ≤ 8 }
    ensures value { result ≡ little_number bytes.now }
    ensures below { result < 2 ^ (8 * length bytes.now) }
    ensures spelled { little_endian (length bytes.now) result ≡ bytes.now }
{
    if bytes.is_empty() {
        return 0;
    }
    LittleEndian::read_uint(bytes, bytes.len())
}

// How many bytes follow this first byte.
fn tail_length(first: u8) -> usize
    ensures { result ≡ tail_after first }
{
    first.leading_ones() as usize
}

// The natural of a first byte, with the number in the bytes after it.
fn joined(first: u8, length: usize, low: u64) -> u64
    requires tail { length ≡ tail_after first }
    requires below { low < 2 ^ (8 * length) }
    ensures { result ≡ (first - prefix_of length) * 2 ^ (8 * length) + low }
{
    if length == 8 {
        return low;
    }
    let high = u64::from(first) - (0x100 - (0x100 >> length));
    (high << (8 * length)) + low
}

/// The least natural that so many bytes follow.
pub fn least_natural(length: usize) -> u64
    requires { length ≤ 8 }
    ensures { result ≡ least_with length }
{
    if length == 0 { 0 } else { 1 << (7 * length) }
}

/// The natural at the front of bytes, and the bytes after it.
#[tactic(auto, unfolding(crate::specs::Reading::natural_of))]
pub fn split_natural(bytes: &[u8]) -> Option<(u64, &[u8])>
    ensures exact { MatchOption result (natural_of bytes.now ≡ None) (λ found. natural_of bytes.now ≡ Some (found.0, found.1.now)) }
    ensures found { IfSome result (λ found. (found.0 < 2 ^ 64) × (bytes.now ≡ natural found.0 ++ found.1.now)) }
{
    let (first, tail) = bytes.split_first()?;
    let length = tail_length(*first);
    if tail.len() < length {
        return None;
    }
    let (low, rest) = tail.split_at(length);
    let value = joined(*first, length, number_of(low));
    if value < least_natural(length) {
        return None;
    }
    Some((value, rest))
}
