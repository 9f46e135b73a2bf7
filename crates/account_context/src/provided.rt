// Preimages that a service provides.
use jam_fields::Blob;

/// A preimage that is provided for a service.
#[derive(Drop)]
pub struct Provided {
    pub service: u32,
    /// The preimage.
    pub bytes: Blob,
}
