// What a run is given.
ghost use Rattle.std.specs.Prelude.{◌≡◌, IfOk, map, option_map};
ghost use Rattle.host_general.specs.Inputs.{fetched, listed, constants};

use std::alloc::{AllocError, Global};
use std::marker::Model;

/// The numbers that services rely on, of eight bytes each: 100, 10 and 1 for an account, an item and
/// an octet, 19,200, 4,104, 3,072, 128 and 4,000,000.
const CONSTANTS: [u8; 64] = [
    100, 0, 0, 0, 0, 0, 0, 0, 10, 0, 0, 0, 0, 0, 0, 0, 1, 0, 0, 0, 0, 0, 0, 0, 0, 75, 0, 0, 0, 0,
    0, 0, 8, 16, 0, 0, 0, 0, 0, 0, 0, 12, 0, 0, 0, 0, 0, 0, 128, 0, 0, 0, 0, 0, 0, 0, 0, 9, 61, 0,
    0, 0, 0, 0,
];

/// What a run is given: the entropy, a payload or none, and pieces, which are imports, operands or
/// transfers.
#[derive(Drop)]
pub struct Inputs {
    entropy: [u8; 32],
    payload: Option<Vec<u8>>,
    pieces: Vec<Vec<u8>>,
    // The pieces behind their count, and the numbers that services rely on, so that each value is there to be lent.
    joined: Vec<u8>,
    numbers: [u8; 64],
}

impl Model for Inputs {
    ghost use Rattle.std.specs.Prelude.{◌≡◌, map, option_map};
    ghost use Rattle.host_general.specs.Inputs.{Inputs, coded_inputs, listed, constants};

    ghost Value = { Inputs };

    ghost coded = { coded_inputs };

    ghost view = { λ i. record { entropy = i.entropy; payload = option_map (λ bytes. bytes.items) i.payload; pieces = map (λ piece. piece.items) i.pieces.items } };

    ghost invariant = { λ i. (i.joined.items ≡ listed (map (λ piece. piece.items) i.pieces.items)) × (i.numbers ≡ constants) };
}

// The pieces behind their count.
fn list(alloc: Global, pieces: &[Vec<u8>]) -> Result<Vec<u8>, AllocError>
    ensures { IfOk result (λ bytes. bytes.items ≡ listed (map (λ piece. piece.items) pieces.now)) }
{
    let mut bytes = Vec::new(alloc);
    jam_codec::push_natural(&mut bytes, pieces.len() as u64)?;
    'pieces: for piece in pieces {
        bytes.extend_from_slice(piece)?;
    }
    Ok(bytes)
}

fn constants() -> [u8; 64]
    ensures { result ≡ constants }
{
    CONSTANTS
}

impl Inputs {
    /// The entropy, a payload or none, and pieces.
    ///
    /// # Errors
    /// Want of memory.
    pub fn new(
        alloc: Global,
        entropy: [u8; 32],
        payload: Option<Vec<u8>>,
        pieces: Vec<Vec<u8>>,
    ) -> Result<Inputs, AllocError>
        ensures { IfOk result (λ inputs. inputs ≡ record { entropy = entropy; payload = option_map (λ bytes. bytes.items) payload; pieces = map (λ piece. piece.items) pieces.items }) }
    {
        let joined = list(alloc, &pieces)?;
        Ok(Inputs {
            entropy,
            payload,
            pieces,
            joined,
            numbers: constants(),
        })
    }

    /// The value of a kind: the constants for 0, the entropy for 1, the payload for 2, the piece of
    /// an index for 3, all pieces behind their count for 4; none for any other.
    pub(crate) fn value(&self, kind: u64, index: u64) -> Option<&[u8]>
        ensures { option_map (λ bytes. bytes.now) result ≡ fetched self.now kind index }
    {
        match kind {
            0 => Some(&self.numbers),
            1 => Some(&self.entropy),
            2 => match &self.payload {
                Some(payload) => Some(payload.as_slice()),
                None => None,
            },
            3 => match self.pieces.get(index as usize) {
                Some(piece) => Some(piece.as_slice()),
                None => None,
            },
            4 => Some(&self.joined),
            _ => None,
        }
    }
}
