// The bytes that wait for a block of 128, and the blocks that are compressed.
ghost use Rattle.std.specs.Prelude.{◌≡◌, ◌+◌, ◌*◌, ◌/◌, ◌%◌, ◌^◌, ◌<◌, ◌≤◌, List, ℕ, ◌++◌, length, take, replicate};
ghost use Rattle.blake2b_core.specs.Blake2b.{blocks, chained, filled, digest};
ghost use Rattle.blake2b_core.specs.Hasher.{waiting, hashing, StandsFor};

use crate::compress::compress;
use byteorder::{ByteOrder, LittleEndian};

const BLOCK: usize = 128;

// How many of `count` bytes are not compressed yet.
pub fn waiting(count: u64) -> usize
    ensures count { result ≡ waiting count }
    ensures bound { result ≤ 128 }
{
    let compressed = count.saturating_sub(1) / BLOCK as u64 * BLOCK as u64;
    (count - compressed) as usize
}

// Puts bytes behind the first `used` of the block.
fn put(block: &mut [u8; BLOCK], used: usize, bytes: &[u8])
    requires { used + length bytes.now ≤ 128 }
    ensures { take (used + length bytes.now) block.new ≡ take used block.old ++ bytes.now }
{
    block[used..used + bytes.len()].copy_from_slice(bytes);
}

// Fills the block up with zeros behind its first `used`.
fn fill(block: &mut [u8; BLOCK], used: usize)
    requires { used ≤ 128 }
    ensures { block.new ≡ filled (take used block.old) }
{
    block[used..].fill(0);
}

// The chain after whole blocks that come after `count` bytes.
fn compress_blocks(chain: &mut [u64; 8], count: u64, bytes: &[u8])
    requires before { count % 128 ≡ 0 }
    requires whole { length bytes.now % 128 ≡ 0 }
    requires below { count + length bytes.now < 2 ^ 64 }
    ensures { chain.new ≡ chained chain.old (count / 128) (blocks (length bytes.now / 128) bytes.now) }
{
    'blocks: for i in 0..bytes.len() / BLOCK {
        let start = BLOCK * i;
        let end = start + BLOCK;
        compress(chain, &bytes[start..end], count + end as u64, false);
    }
}

// Holds bytes for which the block has room.
pub fn hold(block: &mut [u8; BLOCK], count: u64, bytes: &[u8])
    requires room { waiting count + length bytes.now ≤ 128 }
    requires below { count + length bytes.now < 2 ^ 64 }
    ensures { (chain all : List ℕ) → StandsFor (hashing chain count block.old) all
        → StandsFor (hashing chain (count + length bytes.now) block.new) (all ++ bytes.now) }
{
    put(block, waiting(count), bytes);
}

// Compresses the block with the front of bytes for which it has no room, and whole blocks of them, and holds the rest.
pub fn pass(chain: &mut [u64; 8], block: &mut [u8; BLOCK], count: u64, bytes: &[u8])
    requires over { 128 < waiting count + length bytes.now }
    requires below { count + length bytes.now < 2 ^ 64 }
    ensures { (all : List ℕ) → StandsFor (hashing chain.old count block.old) all
        → StandsFor (hashing chain.new (count + length bytes.now) block.new) (all ++ bytes.now) }
{
    let used = waiting(count);
    let (front, rest) = bytes.split_at(BLOCK - used);
    put(block, used, front);
    let taken = count + front.len() as u64;
    compress(chain, block, taken, false);
    let (whole, tail) = rest.split_at((rest.len() - 1) / BLOCK * BLOCK);
    compress_blocks(chain, taken, whole);
    put(block, 0, tail);
}

// The digest of all bytes that came.
pub fn finish(mut chain: [u64; 8], mut block: [u8; BLOCK], count: u64) -> [u8; 32]
    ensures { (all : List ℕ) → StandsFor (hashing chain count block) all → result ≡ digest all }
{
    fill(&mut block, waiting(count));
    compress(&mut chain, &block, count, true);
    let mut found = [0u8; 32];
    LittleEndian::write_u64_into(&chain[..4], &mut found);
    found
}
