// What holds of the numbers that bytes spell.
ghost use Rattle.std.specs.Prelude.{◌≡◌, ◌+◌, ◌-◌, ◌*◌, ◌/◌, ◌%◌, ◌^◌, ◌<◌, ◌≤◌, ◌++◌, ℕ, List, length, get_or, slice_get, Some, None};
ghost use Rattle.byte_numbers.specs.Numbers.{AreBytes, little_number, little_endian, number_at, numbers};
ghost use Rattle.byte_numbers.specs.Signs.{extended_bits};

/// Bytes and the number that they spell:
/// - n bytes spell a number below 2^(8 n), and are what this number is spelled in;
/// - a number below 2^(8 n) is spelled in n bytes, which spell it;
/// - bytes before others spell the low part of the number of all.
pub fn number_laws()
    ensures below { (bytes : List ℕ) → AreBytes bytes → little_number bytes < 2 ^ (8 * length bytes) }
    ensures spelled { (bytes : List ℕ) → AreBytes bytes → little_endian (length bytes) (little_number bytes) ≡ bytes }
    ensures size { (n x : ℕ) → length (little_endian n x) ≡ n }
    ensures bytes { (n x : ℕ) → AreBytes (little_endian n x) }
    ensures read { (n x : ℕ) → x < 2 ^ (8 * n) → little_number (little_endian n x) ≡ x }
    ensures parts { (low high : List ℕ) → little_number (low ++ high) ≡ little_number low + 2 ^ (8 * length low) * little_number high }
{}

/// Numbers that stand at places of bytes:
/// - one of n + 1 bytes is its first byte, and above it the number of the others;
/// - the number of the first few of its bytes is its low part, and that of the others its high part;
/// - of numbers of one width that stand one after another, the k-th stands at k times the width.
pub fn place_laws()
    ensures first { (bytes : List ℕ) (place n : ℕ) → number_at bytes place (n + 1) ≡ get_or bytes place 0 + 256 * number_at bytes (place + 1) n }
    ensures low { (bytes : List ℕ) (place n more : ℕ) → AreBytes bytes → n ≤ more → number_at bytes place more % 2 ^ (8 * n) ≡ number_at bytes place n }
    ensures high { (bytes : List ℕ) (place n more : ℕ) → AreBytes bytes → number_at bytes place (n + more) / 2 ^ (8 * n) ≡ number_at bytes (place + n) more }
    ensures inside { (width n k : ℕ) (bytes : List ℕ) → k < n → slice_get (numbers width n bytes) k ≡ Some (number_at bytes (k * width) width) }
    ensures past { (width n k : ℕ) (bytes : List ℕ) → n ≤ k → slice_get (numbers width n bytes) k ≡ None }
{}

/// A number of at most 64 bits and its sign extension: one whose sign bit is 0 stays as it is; one whose sign bit is 1
/// lacks as much to 2^64 as it lacked to 2 to its bits.
pub fn sign_laws()
    ensures fits { (bits x : ℕ) → bits ≤ 64 → x < 2 ^ bits → extended_bits bits x < 2 ^ 64 }
    ensures positive { (bits x : ℕ) → x < 2 ^ (bits - 1) → extended_bits bits x ≡ x }
    ensures negative { (bits x : ℕ) → bits ≤ 64 → 2 ^ (bits - 1) ≤ x → x < 2 ^ bits → 2 ^ 64 - extended_bits bits x ≡ 2 ^ bits - x }
{}
