// The gas that is left.
ghost use Rattle.std.specs.Prelude.{◌≡◌, ℕ, ◌+◌, ◌-◌, ◌^◌, ◌<◌, ◌≤◌, ◌↔◌, IsTrue, min, if◌then◌else◌};

use std::marker::Model;

/// The gas that is left. It can't be copied, so that none is made.
#[derive(Debug, PartialEq, Eq, Drop)]
pub struct Ledger {
    gas: u64,
}

impl Model for Ledger {
    ghost Value = { ℕ };

    ghost view = { λ ledger. ledger.gas };

    ghost inverse = { λ gas. record { gas = gas } };
}

impl Ledger {
    /// With so much gas left.
    pub fn new(gas: u64) -> Ledger
        ensures { result ≡ gas }
    {
        Ledger { gas }
    }

    /// How much is left.
    pub fn left(&self) -> u64
        ensures { result ≡ self.now }
    {
        self.gas
    }

    /// Takes n away. Where fewer are left it answers false, and takes none.
    pub fn charge(&mut self, n: u64) -> bool
        ensures charged { IsTrue result ↔ (n ≤ self.old) }
        ensures left { self.new ≡ (if result then self.old - n else self.old) }
    {
        if self.gas < n {
            return false;
        }
        self.gas -= n;
        true
    }

    /// Takes all away.
    pub fn exhaust(&mut self)
        ensures { self.new ≡ 0 }
    {
        self.gas = 0;
    }

    /// Moves gas into a ledger of its own: up to the limit, as far as it is left.
    pub fn take_inner(&mut self, limit: u64) -> Ledger
        ensures inner { result ≡ min limit self.old }
        ensures whole { self.new + result ≡ self.old }
    {
        let gas = limit.min(self.gas);
        self.gas -= gas;
        Ledger { gas }
    }

    /// Moves back what is left of an inner ledger.
    pub fn return_inner(&mut self, inner: Ledger)
        requires { self.old + inner < 2 ^ 64 }
        ensures { self.new ≡ self.old + inner }
    {
        self.gas += inner.gas;
    }
}
