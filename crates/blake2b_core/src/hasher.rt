// A hasher, which takes its input in pieces.
ghost use Rattle.std.specs.Prelude.{◌≡◌, ◌+◌, ◌^◌, ◌<◌, List, ℕ, [], ◌++◌, length};
ghost use Rattle.blake2b_core.specs.Blake2b.{digest};
ghost use Rattle.blake2b_core.specs.Hasher.{Hashing, hashing, StandsFor};

use crate::buffer::{finish, hold, pass, waiting};
use crate::compress::INITIAL_VECTOR;
use std::marker::Model;

/// Takes bytes in pieces of any size, and gives the digest of all of them. It keeps at most the last block of them.
#[derive(Drop)]
pub struct Hasher {
    chain: [u64; 8],
    count: u64,
    block: [u8; 128],
}

impl Model for Hasher {
    ghost Value = { Hashing };

    ghost view = { λ h. hashing h.chain h.count h.block };
}

impl Hasher {
    /// A hasher to which no byte has come.
    pub fn new() -> Hasher
        ensures count { result.count ≡ 0 }
        ensures bytes { StandsFor result [] }
    {
        let mut chain = INITIAL_VECTOR;
        // The parameters: a digest of 32 bytes, no key, fanout and depth 1.
        chain[0] = INITIAL_VECTOR[0] ^ 0x0101_0000 ^ 32;
        Hasher {
            chain,
            count: 0,
            block: [0; 128],
        }
    }

    /// How many bytes have come.
    pub fn count(&self) -> u64
        ensures { result ≡ self.now.count }
    {
        self.count
    }

    /// Takes further bytes.
    pub fn update(&mut self, bytes: &[u8])
        requires { self.old.count + length bytes.now < 2 ^ 64 }
        ensures count { self.new.count ≡ self.old.count + length bytes.now }
        ensures bytes { (all : List ℕ) → StandsFor self.old all → StandsFor self.new (all ++ bytes.now) }
    {
        if bytes.len() <= 128 - waiting(self.count) {
            hold(&mut self.block, self.count, bytes);
        } else {
            pass(&mut self.chain, &mut self.block, self.count, bytes);
        }
        self.count += bytes.len() as u64;
    }

    /// The digest of all bytes that came.
    pub fn finish(self) -> [u8; 32]
        ensures { (all : List ℕ) → StandsFor self all → result ≡ digest all }
    {
        finish(self.chain, self.block, self.count)
    }
}
