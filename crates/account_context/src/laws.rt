// What the definitions of contexts say in other words.
ghost use Rattle.std.specs.Prelude.{◌≡◌, ◌≢◌, ◌+◌, ◌-◌, ◌^◌, ◌≤◌, ◌<◌, ℕ, List, Some, None, IsSome, false, not, ◌&&◌, nat_eq, if◌then◌else◌};
ghost use Rattle.std.specs.List.{list_any};
ghost use Rattle.std.specs.FinMap as fin;
ghost use Rattle.jam_accounts.specs.Accounts.{Accounts};
ghost use Rattle.jam_accounts.specs.Footprint.{items_of, octets_of, value_octets, history_octets, weight_at};
ghost use Rattle.account_context.specs.NewIds.{IsInRing, ring_size, ring_place};
ghost use Rattle.account_context.specs.Context.{Pair, account_in, own_account, put_value, drop_value, set_history, checkpoint, restore, started};
ghost use Rattle.account_context.specs.FreeIds.{taken_count, max_services, free_id, IsFirstFree};
ghost use Rattle.account_context.specs.Difference.{delta};
ghost use Rattle.account_context.specs.Changes.{ContextChange, after_change, after_changes, adds_or_removes};

/// Whatever is changed, a restore gives all as it was at the last checkpoint, or at the last
/// restore, or at the start. Another account than the service's own is changed by its addition or
/// its removal alone.
pub fn restore_laws()
    ensures checkpointed { (pair : Pair) (changes : List ContextChange) → restore (after_changes (checkpoint pair) changes) ≡ checkpoint pair }
    ensures restored { (pair : Pair) (changes : List ContextChange) → restore (after_changes (restore pair) changes) ≡ restore pair }
    ensures at_start { (base : Accounts) (service : ℕ) (entropy : List ℕ) (slot : ℕ) (changes : List ContextChange) → restore (after_changes (started base service entropy slot) changes) ≡ started base service entropy slot }
    ensures others { (pair : Pair) (change : ContextChange) (id : ℕ) → id ≢ pair.service → adds_or_removes change id ≡ false → account_in (after_change pair change) id ≡ account_in pair id }
{}

/// Each place along the ring is in it, the place 0 is the number itself, fewer places on than the
/// ring has numbers stand different ones, and the first number comes after the last. There is no
/// number for a new service exactly where 2^24 or more are taken; else it is the first one along
/// the ring that is not.
pub fn new_id_laws()
    ensures within { (id places : ℕ) → IsInRing (ring_place id places) }
    ensures itself { (id : ℕ) → IsInRing id → ring_place id 0 ≡ id }
    ensures different { (id i j : ℕ) → i < j → j < ring_size → ring_place id i ≢ ring_place id j }
    ensures around { ring_place (2 ^ 32 - 2 ^ 8 - 1) 1 ≡ 2 ^ 8 }
    ensures too_many { (pair : Pair) → max_services ≤ taken_count pair → free_id pair ≡ None }
    ensures only_then { (pair : Pair) → free_id pair ≡ None → max_services ≤ taken_count pair }
    ensures first { (pair : Pair) (id : ℕ) → free_id pair ≡ Some id → IsFirstFree pair id }
{}

/// Items and octets of the service's own account once a value or a history is put or dropped: those
/// of the one that is put are added, and those of the one that was there are taken off.
pub fn own_account_laws()
    ensures octets_with_value { (pair : Pair) (key value : List ℕ) → IsSome (account_in pair pair.service)
        → octets_of (own_account (put_value pair key value)) + weight_at value_octets (own_account pair).storage key ≡ octets_of (own_account pair) + value_octets (key, value) }
    ensures items_with_value { (pair : Pair) (key value : List ℕ) → IsSome (account_in pair pair.service)
        → items_of (own_account (put_value pair key value)) + weight_at (λ entry. 1) (own_account pair).storage key ≡ items_of (own_account pair) + 1 }
    ensures octets_without_value { (pair : Pair) (key : List ℕ) → IsSome (account_in pair pair.service)
        → octets_of (own_account (drop_value pair key)) + weight_at value_octets (own_account pair).storage key ≡ octets_of (own_account pair) }
    ensures octets_with_history { (pair : Pair) (hash : List ℕ) (length : ℕ) (history : List ℕ) → IsSome (account_in pair pair.service)
        → octets_of (own_account (set_history pair hash length (Some history))) + weight_at history_octets (own_account pair).lookups (hash, length) ≡ octets_of (own_account pair) + history_octets ((hash, length), history) }
    ensures octets_without_history { (pair : Pair) (hash : List ℕ) (length : ℕ) → IsSome (account_in pair pair.service)
        → octets_of (own_account (set_history pair hash length None)) + weight_at history_octets (own_account pair).lookups (hash, length) ≡ octets_of (own_account pair) }
{}

/// An account is among the added ones of a delta exactly where the base has none of that number and
/// there is one now, and its number is among the removed ones exactly where the base has one and
/// there is none now.
pub fn delta_laws()
    ensures added { (pair : Pair) (id : ℕ) → fin.get (delta pair).added id ≡ (if fin.contains_key pair.base id then None else account_in pair id) }
    ensures removed { (pair : Pair) (id : ℕ) → list_any (nat_eq id) (delta pair).removed ≡ (fin.contains_key pair.base id && not (fin.contains_key pair.now.accounts id)) }
{}
