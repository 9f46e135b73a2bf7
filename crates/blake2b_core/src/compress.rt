// The compression function F (RFC 7693, 3.2), one block of 128 bytes at a time.
ghost use Rattle.std.specs.Prelude.{◌≡◌, ◌<◌, IsTrue, length, nat_lt, slice_index};
ghost use Rattle.std.specs.List.{list_all};
ghost use Rattle.blake2b_core.specs.Blake2b.{half_mix, mix, round, work_vector, two_halves, compress};
ghost use Rattle.byte_numbers.specs.Numbers.{numbers};

use byteorder::{ByteOrder, LittleEndian};

// The initialization vector (RFC 7693, 2.6).
pub const INITIAL_VECTOR: [u64; 8] = [
    0x6A09_E667_F3BC_C908,
    0xBB67_AE85_84CA_A73B,
    0x3C6E_F372_FE94_F82B,
    0xA54F_F53A_5F1D_36F1,
    0x510E_527F_ADE6_82D1,
    0x9B05_688C_2B3E_6C1F,
    0x1F83_D9AB_FB41_BD6B,
    0x5BE0_CD19_137E_2179,
];

// The message schedule (RFC 7693, 2.7).
const SIGMA: [[usize; 16]; 10] = [
    [0, 1, 2, 3, 4, 5, 6, 7, 8, 9, 10, 11, 12, 13, 14, 15],
    [14, 10, 4, 8, 9, 15, 13, 6, 1, 12, 0, 2, 11, 7, 5, 3],
    [11, 8, 12, 0, 5, 2, 15, 13, 10, 14, 3, 6, 7, 1, 9, 4],
    [7, 9, 3, 1, 13, 12, 11, 14, 2, 6, 5, 10, 4, 0, 15, 8],
    [9, 0, 5, 7, 2, 4, 10, 15, 14, 1, 11, 12, 6, 8, 3, 13],
    [2, 12, 6, 10, 0, 11, 8, 3, 4, 13, 7, 5, 15, 14, 1, 9],
    [12, 5, 1, 15, 14, 13, 4, 10, 0, 7, 6, 3, 9, 2, 8, 11],
    [13, 11, 7, 14, 12, 1, 3, 9, 5, 0, 15, 4, 8, 6, 2, 10],
    [6, 15, 14, 9, 11, 3, 0, 8, 12, 2, 13, 7, 1, 4, 10, 5],
    [10, 2, 8, 4, 7, 6, 1, 5, 15, 11, 9, 14, 3, 12, 13, 0],
];

// Half of the mixing function on the words at a, b, c and d, with its two rotations.
#[inline(always)]
fn half_mix(
    v: &mut [u64; 16],
    rotations: [u32; 2],
    a: usize,
    b: usize,
    c: usize,
    d: usize,
    word: u64,
)
    requires a { a < 16 }
    requires b { b < 16 }
    requires c { c < 16 }
    requires d { d < 16 }
    requires near_some { 0 < slice_index rotations 0 }
    requires near { slice_index rotations 0 < 64 }
    requires far_some { 0 < slice_index rotations 1 }
    requires far { slice_index rotations 1 < 64 }
    ensures { v.new ≡ half_mix (slice_index rotations 0) (slice_index rotations 1) a b c d word v.old }
{
    let [near, far] = rotations;
    let new_a = v[a].wrapping_add(v[b]).wrapping_add(word);
    let new_d = (v[d] ^ new_a).rotate_right(near);
    let new_c = v[c].wrapping_add(new_d);
    let new_b = (v[b] ^ new_c).rotate_right(far);
    v[a] = new_a;
    v[d] = new_d;
    v[c] = new_c;
    v[b] = new_b;
}

// The mixing function G on the words at a, b, c and d.
#[inline(always)]
#[tactic(auto, unfolding(crate::specs::Blake2b::mix))]
fn mix(v: &mut [u64; 16], a: usize, b: usize, c: usize, d: usize, x: u64, y: u64)
    requires a { a < 16 }
    requires b { b < 16 }
    requires c { c < 16 }
    requires d { d < 16 }
    ensures { v.new ≡ mix a b c d x y v.old }
{
    half_mix(v, [32, 24], a, b, c, d, x);
    half_mix(v, [16, 63], a, b, c, d, y);
}

// The word of the message at place k of a row of the schedule.
#[inline(always)]
fn scheduled(m: &[u64; 16], row: &[usize; 16], k: usize) -> u64
    requires row { IsTrue (list_all (λ place. nat_lt place 16) row.now) }
    requires place { k < 16 }
    ensures { result ≡ slice_index m.now (slice_index row.now k) }
{
    m[row[k]]
}

// A round with the message m by a row of the schedule.
#[inline(always)]
#[tactic(auto, unfolding(crate::specs::Blake2b::round))]
fn round(v: &mut [u64; 16], m: &[u64; 16], row: &[usize; 16])
    requires { IsTrue (list_all (λ place. nat_lt place 16) row.now) }
    ensures { v.new ≡ round row.now m.now v.old }
{
    mix(v, 0, 4, 8, 12, scheduled(m, row, 0), scheduled(m, row, 1));
    mix(v, 1, 5, 9, 13, scheduled(m, row, 2), scheduled(m, row, 3));
    mix(v, 2, 6, 10, 14, scheduled(m, row, 4), scheduled(m, row, 5));
    mix(v, 3, 7, 11, 15, scheduled(m, row, 6), scheduled(m, row, 7));
    mix(v, 0, 5, 10, 15, scheduled(m, row, 8), scheduled(m, row, 9));
    mix(
        v,
        1,
        6,
        11,
        12,
        scheduled(m, row, 10),
        scheduled(m, row, 11),
    );
    mix(v, 2, 7, 8, 13, scheduled(m, row, 12), scheduled(m, row, 13));
    mix(v, 3, 4, 9, 14, scheduled(m, row, 14), scheduled(m, row, 15));
}

// The work vector of a block that ends `count` bytes into the input.
#[tactic(auto, unfolding(crate::specs::Blake2b::work_vector))]
fn work_vector(chain: &[u64; 8], count: u64, last: bool) -> [u64; 16]
    ensures { result ≡ work_vector chain.now count last }
{
    let flag = if last { u64::MAX } else { 0 };
    [
        chain[0],
        chain[1],
        chain[2],
        chain[3],
        chain[4],
        chain[5],
        chain[6],
        chain[7],
        INITIAL_VECTOR[0],
        INITIAL_VECTOR[1],
        INITIAL_VECTOR[2],
        INITIAL_VECTOR[3],
        INITIAL_VECTOR[4] ^ count,
        INITIAL_VECTOR[5],
        INITIAL_VECTOR[6] ^ flag,
        INITIAL_VECTOR[7],
    ]
}

// The words of a block.
fn block_words(block: &[u8]) -> [u64; 16]
    requires { length block.now ≡ 128 }
    ensures { result ≡ numbers 8 16 block.now }
{
    let mut found = [0u64; 16];
    LittleEndian::read_u64_into(block, &mut found);
    found
}

// The chain with both halves of the work vector.
fn two_halves(chain: &[u64; 8], v: &[u64; 16]) -> [u64; 8]
    ensures { result ≡ two_halves chain.now v.now }
{
    [
        chain[0] ^ v[0] ^ v[8],
        chain[1] ^ v[1] ^ v[9],
        chain[2] ^ v[2] ^ v[10],
        chain[3] ^ v[3] ^ v[11],
        chain[4] ^ v[4] ^ v[12],
        chain[5] ^ v[5] ^ v[13],
        chain[6] ^ v[6] ^ v[14],
        chain[7] ^ v[7] ^ v[15],
    ]
}

// The chain after a block that ends `count` bytes into the input.
#[tactic(auto, unfolding(crate::specs::Blake2b::compress, crate::specs::Blake2b::rounds))]
pub fn compress(chain: &mut [u64; 8], block: &[u8], count: u64, last: bool)
    requires { length block.now ≡ 128 }
    ensures { chain.new ≡ compress chain.old block.now count last }
{
    let m = block_words(block);
    let mut v = work_vector(chain, count, last);
    round(&mut v, &m, &SIGMA[0]);
    round(&mut v, &m, &SIGMA[1]);
    round(&mut v, &m, &SIGMA[2]);
    round(&mut v, &m, &SIGMA[3]);
    round(&mut v, &m, &SIGMA[4]);
    round(&mut v, &m, &SIGMA[5]);
    round(&mut v, &m, &SIGMA[6]);
    round(&mut v, &m, &SIGMA[7]);
    round(&mut v, &m, &SIGMA[8]);
    round(&mut v, &m, &SIGMA[9]);
    round(&mut v, &m, &SIGMA[0]);
    round(&mut v, &m, &SIGMA[1]);
    *chain = two_halves(chain, &v);
}
