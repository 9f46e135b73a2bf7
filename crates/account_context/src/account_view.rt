// An account without what it keeps.
use jam_accounts::Footprint;

/// An account without what it keeps: its code's hash, its balance, the least gas of its entries,
/// how much of its deposits needs no balance, the slot at which it was made, and what it takes up.
#[derive(Clone, Copy)]
pub struct AccountView {
    pub code_hash: [u8; 32],
    pub balance: u64,
    pub min_accumulate: u64,
    pub min_transfer: u64,
    pub gratis: u64,
    pub created: u32,
    pub footprint: Footprint,
}
