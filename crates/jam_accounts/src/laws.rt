// How an account's footprint follows a change of the account.
ghost use Rattle.std.specs.Prelude.{◌≡◌, ◌+◌, ◌*◌, ◌≤◌, ℕ, List, Some};
ghost use Rattle.std.specs.FinMap as fin;
ghost use Rattle.jam_accounts.specs.Accounts.{Account, Storage, Lookups, Accounts};
ghost use Rattle.jam_accounts.specs.Footprint.{items_of, octets_of, value_octets, history_octets, storage_octets, lookups_octets, weight_at};

/// Items are counted by the lengths of the maps, and are at most the octets. A value or a history
/// that is put adds its octets, and takes off those of the one whose place it takes; one that is
/// removed takes off its own.
pub fn footprint_laws()
    ensures items { (account : Account) → items_of account ≡ fin.len account.storage + 2 * fin.len account.lookups }
    ensures below { (account : Account) → items_of account ≤ octets_of account }
    ensures value_put { (storage : Storage) (key value : List ℕ) → storage_octets (fin.insert storage key value) + weight_at value_octets storage key ≡ storage_octets storage + value_octets (key, value) }
    ensures value_removed { (storage : Storage) (key : List ℕ) → storage_octets (fin.remove storage key) + weight_at value_octets storage key ≡ storage_octets storage }
    ensures history_put { (lookups : Lookups) (key : List ℕ × ℕ) (history : List ℕ) → lookups_octets (fin.insert lookups key history) + weight_at history_octets lookups key ≡ lookups_octets lookups + history_octets (key, history) }
    ensures history_removed { (lookups : Lookups) (key : List ℕ × ℕ) → lookups_octets (fin.remove lookups key) + weight_at history_octets lookups key ≡ lookups_octets lookups }
{}

/// An account that is taken out, or has another put in its place, and is then put back is as if it
/// were put in its place at once; and as it was, it may be put back and nothing has changed.
pub fn put_back_law()
    ensures removed { (accounts : Accounts) (id : ℕ) (account : Account) → fin.insert (fin.remove accounts id) id account ≡ fin.insert accounts id account }
    ensures replaced { (accounts : Accounts) (id : ℕ) (other account : Account) → fin.insert (fin.insert accounts id other) id account ≡ fin.insert accounts id account }
    ensures same { (accounts : Accounts) (id : ℕ) (account : Account) → fin.get accounts id ≡ Some account → fin.insert accounts id account ≡ accounts }
{}
