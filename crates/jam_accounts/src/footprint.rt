// What an account takes up.
ghost use Rattle.std.specs.Prelude.{◌≡◌, ◌≤◌, ◌<◌, ◌^◌};
ghost use Rattle.jam_accounts.specs.Footprint.{threshold_of, IsBounded};

use std::marker::Model;

/// The octets of every account are below this.
pub const OCTETS_LIMIT: u128 = 1 << 100;

/// The items and octets of an account. There are at least as many octets as items, and fewer than
/// 2^100.
#[derive(Clone, Copy, PartialEq, Eq)]
pub struct Footprint {
    items: u128,
    octets: u128,
}

impl Model for Footprint {
    ghost use Rattle.jam_accounts.specs.Footprint.{Footprint, IsBounded};

    ghost Value = { Footprint };

    ghost view = { λ f. record { items = f.items; octets = f.octets } };

    ghost invariant = { λ f. IsBounded (record { items = f.items; octets = f.octets }) };

    ghost inverse = { λ f. record { items = f.items; octets = f.octets } };
}

impl Footprint {
    /// The footprint of so many items and octets.
    pub fn new(items: u128, octets: u128) -> Footprint
        requires { IsBounded (record { items = items; octets = octets }) }
        ensures { result ≡ record { items = items; octets = octets } }
    {
        Footprint { items, octets }
    }

    /// Two for each history and one for each value.
    pub fn items(&self) -> u128
        ensures value { result ≡ self.now.items }
        ensures bounded { IsBounded self.now }
    {
        self.items
    }

    /// For each history 81 and its length; for each value 34, and the lengths of its key and of
    /// its own.
    pub fn octets(&self) -> u128
        ensures value { result ≡ self.now.octets }
        ensures bounded { IsBounded self.now }
    {
        self.octets
    }
}

/// The balance that an account with this footprint needs: its deposits less the gratis, or nothing
/// where the gratis is more.
pub fn threshold(footprint: Footprint, gratis: u64) -> u128
    ensures { result ≡ threshold_of footprint gratis }
{
    let deposits = 100 + 10 * footprint.items + footprint.octets;
    deposits.saturating_sub(u128::from(gratis))
}
