// What holds of the spelling of a natural, and of the formats of fields, whatever test their values have to pass.
ghost use Rattle.std.specs.Prelude.{◌≡◌, ◌+◌, ◌-◌, ◌*◌, ◌/◌, ◌%◌, ◌^◌, ◌<◌, ◌≤◌, ℕ, Bool, List, [], ◌∷◌, Option};
ghost use Rattle.byte_numbers.specs.Numbers.{little_endian};
ghost use Rattle.jam_codec.specs.Spelling.{natural};
ghost use Rattle.jam_codec.specs.Format.{natural_where, fixed_where, bytes_where, bits_where, numbers_of};
ghost use Rattle.jam_codec.specs.Lists.{blob_where, hash_and_number_after, option_tag};
ghost use Rattle.jam_codec.specs.Laws.{IsFormat, HasOneSpelling, HasNoPrefix};

/// Each field keeps the laws of a format:
/// - what is spelled is read again, whatever bytes follow it;
/// - what is read has a spelling, and it stood there;
/// - where nothing is read, the place of the refusal is the end of the longest run of whole fields.
///
/// The clauses speak of a natural, a number of n bytes, n bytes, n bits, and n numbers of one width.
pub fn field_laws()
    ensures natural { (test : ℕ → Bool) → IsFormat (natural_where test) }
    ensures fixed { (n : ℕ) (test : ℕ → Bool) → IsFormat (fixed_where n test) }
    ensures bytes { (n : ℕ) (test : List ℕ → Bool) → IsFormat (bytes_where n test) }
    ensures bits { (n : ℕ) (test : List Bool → Bool) → IsFormat (bits_where n test) }
    ensures numbers { (width n : ℕ) → IsFormat (numbers_of width n) }
{}

/// Of each field: a value has one spelling and bytes spell one value, and no spelling begins another.
pub fn one_spelling_laws()
    ensures natural { (test : ℕ → Bool) → HasOneSpelling (natural_where test) × HasNoPrefix (natural_where test) }
    ensures fixed { (n : ℕ) (test : ℕ → Bool) → HasOneSpelling (fixed_where n test) × HasNoPrefix (fixed_where n test) }
    ensures bytes { (n : ℕ) (test : List ℕ → Bool) → HasOneSpelling (bytes_where n test) × HasNoPrefix (bytes_where n test) }
    ensures bits { (n : ℕ) (test : List Bool → Bool) → HasOneSpelling (bits_where n test) × HasNoPrefix (bits_where n test) }
    ensures numbers { (width n : ℕ) → HasOneSpelling (numbers_of width n) × HasNoPrefix (numbers_of width n) }
{}

/// The same of what is put together from two fields or from one byte: a blob, a key of a hash and a number, a tag.
pub fn joined_laws()
    ensures blob { (test : List ℕ → Bool) → IsFormat (blob_where test) }
    ensures hash_and_number { (last : Option (List ℕ × ℕ)) → IsFormat (hash_and_number_after last) }
    ensures tag { IsFormat option_tag }
{}

/// The spelling of a natural, by its ranges: 0 is one byte; from 2^(7 l) on and below 2^(7 (l + 1)), for l below 8, l bytes
/// follow the first one, which begins with l ones and holds the high part; from 2^56 on eight follow, and the first one is 255.
pub fn natural_spelling_laws()
    ensures zero { natural 0 ≡ 0 ∷ [] }
    ensures short { (l x : ℕ) → l < 8 → 2 ^ (7 * l) ≤ x → x < 2 ^ (7 * (l + 1)) → natural x ≡ (2 ^ 8 - 2 ^ (8 - l) + x / 2 ^ (8 * l)) ∷ little_endian l (x % 2 ^ (8 * l)) }
    ensures long { (x : ℕ) → 2 ^ 56 ≤ x → x < 2 ^ 64 → natural x ≡ 255 ∷ little_endian 8 x }
{}
