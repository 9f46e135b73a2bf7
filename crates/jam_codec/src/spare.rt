// The spare bits of packed bits.
ghost use Rattle.std.specs.Prelude.{◌≡◌, ◌^◌, ◌≤◌, length, IsTrue, ◌↔◌};
ghost use Rattle.std.specs.Bool.{OnFalse};
ghost use Rattle.jam_codec.specs.Spelling.{binary_digits, bytes_for, packed};
ghost use Rattle.byte_numbers.specs.Numbers.{little_number};

/// Whether a bit is set beyond the n bits that these bytes hold.
pub fn has_spare_bit(bytes: &[u8], n: u64) -> bool
    requires { length bytes.now ≡ bytes_for n }
    ensures spare { IsTrue result ↔ (2 ^ n ≤ little_number bytes.now) }
    ensures packed { OnFalse result (bytes.now ≡ packed (binary_digits n (little_number bytes.now))) }
{
    let used = n % 8;
    match bytes.last() {
        Some(last) => used > 0 && *last >> used > 0,
        None => false,
    }
}
