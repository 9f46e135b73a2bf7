// Transfers between services.
/// A transfer from a service to another: the amount, the gas for the receiver's run, and a memo.
#[derive(Clone, Copy)]
pub struct Transfer {
    pub source: u32,
    pub target: u32,
    pub amount: u64,
    pub gas: u64,
    pub memo: [u8; 128],
}
