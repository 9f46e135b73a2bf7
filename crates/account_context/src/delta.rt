// What an invocation leaves.
use crate::ids::Ids;
use crate::provided_list::ProvidedList;
use crate::transfers::Transfers;
use jam_accounts::{Account, Accounts};

/// What an invocation leaves: the account of its service; the accounts that it added; the numbers,
/// in ascending order, of those that were there before and that it removed; and what it issued, in
/// order.
#[derive(Drop)]
pub struct Delta {
    pub own: Account,
    pub added: Accounts,
    pub removed: Ids,
    pub transfers: Transfers,
    pub yielded: Option<[u8; 32]>,
    pub provided: ProvidedList,
}
