// What the definitions of accesses and writes say.
ghost use Rattle.std.specs.Prelude.{◌≡◌, ◌≢◌, ◌+◌, ◌-◌, ◌*◌, ◌≤◌, ◌<◌, ◌^◌, ◌↔◌, ◌&&◌, ℕ, Bool, List, [], Some, None, Ok, IsTrue, length, slice_index_or, if◌then◌else◌};
ghost use Rattle.std.specs.List.{All, Any};
ghost use Rattle.page_rights.specs.declared.rights.Rights.{Rights};
ghost use Rattle.page_rights.specs.declared.rights.Rights.TheVariants as may;
ghost use Rattle.page_rights.specs.PageRights.{lifted, within};
ghost use Rattle.paged_memory.specs.declared.access.Access.TheVariants.{Low, Fault};
ghost use Rattle.byte_numbers.specs.Numbers.{little_endian};
ghost use Rattle.paged_memory.specs.PageMap.{Memory, HasWholePages, page_of, rights, byte, reaches, has, forbidden, refusal, loaded, put_byte, put_bytes, readable, accessible, set_pages, lift_pages};

/// An access is allowed exactly where no address is forbidden. It is Low exactly where some
/// forbidden address is below 65,536. A fault names the page of the least forbidden address.
pub fn refusal_laws()
    ensures allowed { (m : Memory) (need : Rights) (from n : ℕ) → (refusal m need from n ≡ None) ↔ (forbidden m need from n ≡ []) }
    ensures low { (m : Memory) (need : Rights) (from n : ℕ) → (refusal m need from n ≡ Some Low) ↔ Any (λ address. address < 65536) (forbidden m need from n) }
    ensures fault { (m : Memory) (need : Rights) (from n start : ℕ) → refusal m need from n ≡ Some (Fault start) → Any (λ address. (start ≡ page_of address * 4096) × All (λ other. address ≤ other) (forbidden m need from n)) (forbidden m need from n) }
{}

/// A byte that is put is the byte there; others stay, and so do all rights. What is stored is
/// loaded.
pub fn write_laws()
    ensures there { (m : Memory) (address value : ℕ) → HasWholePages m → IsTrue (has m may.Read address) → byte (put_byte m address value) address ≡ value }
    ensures others { (m : Memory) (address value other : ℕ) → other ≢ address → byte (put_byte m address value) other ≡ byte m other }
    ensures rights { (m : Memory) (from : ℕ) (bytes : List ℕ) (page : ℕ) → rights (put_bytes m from bytes) page ≡ rights m page }
    ensures bytes { (m : Memory) (from : ℕ) (bytes : List ℕ) (address : ℕ) → HasWholePages m → All (λ b. b < 256) bytes → IsTrue (readable m from (length bytes)) → byte (put_bytes m from bytes) address ≡ (if within from (length bytes) address then slice_index_or bytes (address - from) 0 else byte m address) }
    ensures reads_back { (m : Memory) (from n value : ℕ) → HasWholePages m → n ≤ 2 ^ 32 → value < 256 ^ n → refusal m may.Write from n ≡ None → loaded (put_bytes m from (little_endian n value)) from n ≡ Ok value }
{}

/// Each page of a range that was given rights has them, and its bytes are kept or 0; each page of a
/// lifted range without rights may be written, and no byte changes. Other pages stay.
pub fn page_laws()
    ensures set_rights { (m : Memory) (first count page : ℕ) (to : Rights) (keep : Bool) → rights (set_pages m first count to keep) page ≡ (if within first count page then to else rights m page) }
    ensures set_bytes { (m : Memory) (first count address : ℕ) (to : Rights) (keep : Bool) → byte (set_pages m first count to keep) address ≡ (if within first count (page_of address) then (if keep && reaches to may.Read then byte m address else 0) else byte m address) }
    ensures lifted_rights { (m : Memory) (first count page : ℕ) → rights (lift_pages m first count) page ≡ (if within first count page then lifted (rights m page) else rights m page) }
    ensures lifted_bytes { (m : Memory) (first count address : ℕ) → byte (lift_pages m first count) address ≡ byte m address }
{}

/// Bytes are accessible exactly where each has the right, for ranges that end at or below 2^32.
pub fn accessible_laws()
    ensures each { (m : Memory) (need : Rights) (from n address : ℕ) → IsTrue (accessible m need from n) → from ≤ address → address < from + n → IsTrue (has m need address) }
    ensures end { (m : Memory) (need : Rights) (from n : ℕ) → IsTrue (accessible m need from n) → 0 < n → from + n ≤ 2 ^ 32 }
    ensures all { (m : Memory) (need : Rights) (from n : ℕ) → from + n ≤ 2 ^ 32 → ((address : ℕ) → from ≤ address → address < from + n → IsTrue (has m need address)) → IsTrue (accessible m need from n) }
{}
