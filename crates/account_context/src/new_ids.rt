// Numbers for new services.
ghost use Rattle.std.specs.Prelude.{◌≡◌, ◌^◌, ◌≤◌, ◌<◌, ◌||◌, ◌++◌};
ghost use Rattle.std.specs.FinMap as fin;
ghost use Rattle.jam_codec.specs.Spelling.{natural};
ghost use Rattle.blake2b_core.specs.Blake2b.{digest};
ghost use Rattle.account_context.specs.NewIds.{IsInRing, ring_place, bump, first_candidate};
ghost use Rattle.account_context.specs.FreeIds.{first_free};

use blake2b_core::digest_of_pieces;
use jam_accounts::Accounts;
use jam_codec::{number_of, spell_natural};

/// The numbers of services are below this where new services have theirs: from this on.
pub const FIRST_NEW_ID: u64 = 1 << 8;

/// How many numbers there are for new services.
pub const RING_SIZE: u64 = (1 << 32) - (1 << 9);

/// How far the candidate moves past a new service.
const STEP: u64 = 42;

// The number that stands so many places after another along the ring.
fn ring_place(id: u32, places: u64) -> u32
    requires low { 2 ^ 8 ≤ id }
    requires few { places < 2 ^ 32 }
    ensures value { result ≡ ring_place id places }
    ensures ring { IsInRing result }
{
    let place = (u64::from(id) - FIRST_NEW_ID + places) % RING_SIZE;
    (FIRST_NEW_ID + place) as u32
}

/// The candidate for the next new service, once one was made with this number.
pub fn bump(id: u32) -> u32
    requires { IsInRing id }
    ensures value { result ≡ bump id }
    ensures ring { IsInRing result }
{
    ring_place(id, STEP)
}

// The digest that decides with which number an invocation begins.
fn seed(service: u32, entropy: &[u8; 32], slot: u32) -> [u8; 32]
    ensures { result ≡ digest (natural service ++ entropy.now ++ natural slot) }
{
    let (front, front_length) = spell_natural(u64::from(service));
    let (back, back_length) = spell_natural(u64::from(slot));
    digest_of_pieces(&[&front[..front_length], &entropy[..], &back[..back_length]])
}

/// The candidate that an invocation of a service begins with, by an entropy and a slot: 2^8 and the
/// remainder by the number of numbers of the first four bytes, the least significant first, of the
/// digest of the service's natural, the entropy and the slot's natural.
pub fn first_candidate(service: u32, entropy: &[u8; 32], slot: u32) -> u32
    ensures value { result ≡ first_candidate service entropy.now slot }
    ensures ring { IsInRing result }
{
    let seed = seed(service, entropy, slot);
    let place = number_of(&seed[..4]) % RING_SIZE;
    (FIRST_NEW_ID + place) as u32
}

// Whether one of the two has an account with this number.
fn is_taken(base: &Accounts, now: &Accounts, id: u32) -> bool
    ensures { result ≡ (fin.contains_key base.now id || fin.contains_key now.now id) }
{
    base.get(id).is_some() || now.get(id).is_some()
}

/// The first number that neither has, of so many along the ring from the candidate on.
pub fn first_free(base: &Accounts, now: &Accounts, candidate: u32, count: u64) -> Option<u32>
    requires low { 2 ^ 8 ≤ candidate }
    requires few { count < 2 ^ 32 }
    ensures { result ≡ first_free (λ id. fin.contains_key base.now id || fin.contains_key now.now id) candidate count 0 }
{
    for places in 0..count {
        let id = ring_place(candidate, places);
        if !is_taken(base, now, id) {
            return Some(id);
        }
    }
    None
}
