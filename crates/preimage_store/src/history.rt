// The history of a preimage.
ghost use Rattle.std.specs.Prelude.{◌≡◌, ◌≤◌, ◌+◌, ◌*◌, ◌^◌, [], ◌∷◌, length, nat_le, if◌then◌else◌};
ghost use Rattle.preimage_store.specs.History.{solicit, is_expunged, forget, available, query_words, deliver};

use std::marker::Model;

/// For how many time slots a preimage is kept after it was forgotten.
pub const EXPUNGE_PERIOD: u32 = 19_200;

/// The time slots of a preimage that a service asked for, at most three.
///
/// - No slot: it was asked for, and never available.
/// - `x`: it is available since x.
/// - `x, y`: it was available from x on, and no longer at y.
/// - `x, y, z`: it was so, and is available again since z.
#[derive(Clone, Copy, PartialEq, Eq)]
pub struct History {
    count: u8,
    slots: [u32; 3],
}

impl Model for History {
    ghost use Rattle.std.specs.Prelude.{ℕ, List};
    ghost use Rattle.preimage_store.specs.Kept.{KeepsSlots, used, kept, kept-used};

    ghost Value = { List ℕ };

    ghost view = { used };

    ghost invariant = { KeepsSlots };

    ghost inverse = { kept };

    ghost inverse_ok = { kept-used };
}

/// The history at hand does not allow what was asked.
#[derive(Clone, Copy, PartialEq, Eq)]
pub struct Huh;

/// What is left where a preimage is asked for no longer.
#[derive(Clone, Copy, PartialEq, Eq)]
pub enum Forgot {
    /// Nothing: the preimage may go.
    Dropped,
    /// The history that is kept.
    Kept(History),
}

// The 64-bit number with these lower and upper halves.
fn word(low: u32, high: u32) -> u64
    ensures { result ≡ low + 2 ^ 32 * high }
{
    u64::from(low) + (u64::from(high) << 32)
}

impl History {
    fn empty() -> History
        ensures { result ≡ [] }
    {
        History {
            count: 0,
            slots: [0; 3],
        }
    }

    fn one(x: u32) -> History
        ensures { result ≡ x ∷ [] }
    {
        History {
            count: 1,
            slots: [x, 0, 0],
        }
    }

    fn two(x: u32, y: u32) -> History
        ensures { result ≡ x ∷ y ∷ [] }
    {
        History {
            count: 2,
            slots: [x, y, 0],
        }
    }

    fn three(x: u32, y: u32, z: u32) -> History
        ensures { result ≡ x ∷ y ∷ z ∷ [] }
    {
        History {
            count: 3,
            slots: [x, y, z],
        }
    }

    /// The history of these slots; none where there are more than three.
    pub fn of(slots: &[u32]) -> Option<History>
        ensures { result ≡ (if nat_le (length slots.now) 3 then Some slots.now else None) }
    {
        match *slots {
            [] => Some(History::empty()),
            [x] => Some(History::one(x)),
            [x, y] => Some(History::two(x, y)),
            [x, y, z] => Some(History::three(x, y, z)),
            _ => None,
        }
    }

    /// The slots, at most three.
    pub fn slots(&self) -> &[u32]
        ensures value { result.now ≡ self.now }
        ensures few { length self.now ≤ 3 }
    {
        &self.slots[..usize::from(self.count)]
    }

    /// Whether the preimage is available at a time: with `x` from x on, with `x, y` from x on and
    /// before y, with `x, y, z` so or from z on, and with no slot never.
    pub fn available(&self, at: u32) -> bool
        ensures { result ≡ available self.now at }
    {
        match *self.slots() {
            [x] => x <= at,
            [x, y] => x <= at && at < y,
            [x, y, z] => (x <= at && at < y) || z <= at,
            _ => false,
        }
    }

    /// The two words that answer a query. Their lower halves are how many slots there are and the
    /// second slot, their upper halves the first and the third; a slot that isn't there is 0.
    pub fn words(&self) -> (u64, u64)
        ensures { result ≡ query_words self.now }
    {
        match *self.slots() {
            [] => (0, 0),
            [x] => (word(1, x), 0),
            [x, y] => (word(2, x), u64::from(y)),
            [x, y, z, ..] => (word(3, x), word(y, z)),
        }
    }

    /// The history once the preimage is given: now, with no slot before; else none.
    pub fn deliver(&self, now: u32) -> Option<History>
        ensures { result ≡ deliver self.now now }
    {
        if self.count > 0 {
            return None;
        }
        Some(History::one(now))
    }
}

/// The history once a preimage is asked for: with no history before, no slot; with `x, y`, now as
/// the third.
///
/// # Errors
/// `Huh` with any other history.
pub fn solicit(prior: Option<History>, now: u32) -> Result<History, Huh>
    ensures { result ≡ solicit prior now }
{
    let Some(history) = prior else {
        return Ok(History::empty());
    };
    match *history.slots() {
        [x, y] => Ok(History::three(x, y, now)),
        _ => Err(Huh),
    }
}

// Whether a preimage that was forgotten at y need be kept no longer.
fn is_expunged(y: u32, now: u32) -> bool
    ensures { result ≡ is_expunged y now }
{
    u64::from(y) + u64::from(EXPUNGE_PERIOD) < u64::from(now)
}

/// What is left once a preimage is asked for no longer: nothing with no slot; `x, now` with `x`;
/// nothing with `x, y`, and `w, now` with `x, y, w`, where more than the period went by since y.
///
/// # Errors
/// `Huh` with `x, y` and `x, y, w` where no more than the period went by.
pub fn forget(prior: History, now: u32) -> Result<Forgot, Huh>
    ensures { result ≡ forget prior now }
{
    match *prior.slots() {
        [] => Ok(Forgot::Dropped),
        [x] => Ok(Forgot::Kept(History::two(x, now))),
        [_, y] if is_expunged(y, now) => Ok(Forgot::Dropped),
        [_, y, w] if is_expunged(y, now) => Ok(Forgot::Kept(History::two(w, now))),
        _ => Err(Huh),
    }
}
