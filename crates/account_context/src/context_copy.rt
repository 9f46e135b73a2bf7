// A whole context.
use crate::provided_list::ProvidedList;
use crate::transfers::Transfers;
use jam_accounts::Accounts;

/// A whole context, with accounts and lists of its own.
#[derive(Drop)]
pub struct ContextCopy {
    pub accounts: Accounts,
    pub candidate: u32,
    pub transfers: Transfers,
    pub yielded: Option<[u8; 32]>,
    pub provided: ProvidedList,
}
