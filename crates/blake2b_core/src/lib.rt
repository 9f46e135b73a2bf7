//! BLAKE2b with a digest of 32 bytes and no key (RFC 7693).
#![tactic(auto)]

ghost use Rattle.std.specs.Prelude.{◌≡◌, ◌^◌, ◌<◌, length};
ghost use Rattle.std.specs.List.{flat_map};
ghost use Rattle.blake2b_core.specs.Blake2b.{digest};

mod buffer;
mod compress;
mod hasher;

pub use hasher::Hasher;

/// The digest of bytes.
pub fn digest(bytes: &[u8]) -> [u8; 32]
    ensures { result ≡ digest bytes.now }
{
    let mut hasher = Hasher::new();
    hasher.update(bytes);
    hasher.finish()
}

/// The digest of bytes that come in pieces. It is that of the joined bytes, however they are cut.
pub fn digest_of_pieces(pieces: &[&[u8]]) -> [u8; 32]
    requires { length (flat_map (λ piece. piece.now) pieces.now) < 2 ^ 64 }
    ensures { result ≡ digest (flat_map (λ piece. piece.now) pieces.now) }
{
    let mut hasher = Hasher::new();
    'pieces: for piece in pieces {
        hasher.update(piece);
    }
    hasher.finish()
}
