// The context of an invocation, as host calls read and change it.
ghost use Rattle.std.specs.Prelude.{◌≡◌, ◌≢◌, Some, IfOk, OnOk, OnErr, IsSome};
ghost use Rattle.std.specs.Option.{option_map};
ghost use Rattle.account_context.specs.Context.{Pair, account_in, view_in, stored_value, preimage_in, history_in, put_value, drop_value, set_history, drop_preimage, set_balance, set_code, add_account, remove_account, push_transfer, set_yield, push_provided, checkpoint, restore, IsLawful, IsOwnWithinBound};
ghost use Rattle.account_context.specs.FreeIds.{free_id};
ghost use Rattle.account_context.specs.Difference.{delta};

use crate::account_view::AccountView;
use crate::delta::Delta;
use crate::provided::Provided;
use crate::transfer::Transfer;
use jam_accounts::Account;
use preimage_store::History;
use std::alloc::AllocError;

/// The context of one invocation of a service. Calls read and change it as it is now. A checkpoint
/// saves it whole, and what was saved can be restored. A call that finds no memory leaves it as it
/// was.
pub trait Scope {
    /// The context now and the one that was saved, over the accounts at the start.
    ghost pair: { Self → Pair };

    /// The service that is run. It has its account, at the start, now, and as it was saved.
    fn service(&self) -> u32
        ensures value { result ≡ (pair self.now).service }
        ensures lawful { IsLawful (pair self.now) };

    /// An account without what it keeps; none where there is no such account.
    fn view(&self, id: u32) -> Option<AccountView>
        ensures { result ≡ view_in (pair self.now) id };

    /// The value that a service keeps under a key; none where there is no such account or value.
    fn value(&self, id: u32, key: &[u8]) -> Option<&[u8]>
        ensures { option_map (λ value. value.now) result ≡ stored_value (pair self.now) id key.now };

    /// The preimage of a hash; none where there is no such account or preimage.
    fn preimage(&self, id: u32, hash: &[u8; 32]) -> Option<&[u8]>
        ensures { option_map (λ bytes. bytes.now) result ≡ preimage_in (pair self.now) id hash.now };

    /// The history of a hash with a length; none where there is no such account or history.
    fn history(&self, id: u32, hash: &[u8; 32], length: u32) -> Option<History>
        ensures { result ≡ history_in (pair self.now) id hash.now length };

    /// The transfers, in the order in which they were issued.
    fn transfers(&self) -> &[Transfer]
        ensures { result.now ≡ (pair self.now).now.transfers };

    /// The hash that was yielded, if one was.
    fn yielded(&self) -> Option<[u8; 32]>
        ensures { result ≡ (pair self.now).now.yielded };

    /// The preimages that were provided, in the order in which they were issued.
    fn provided(&self) -> &[Provided]
        ensures { result.now ≡ (pair self.now).now.provided };

    /// The number for the next new service: the first one from the candidate on that no service
    /// has, at the start or now. None exactly where 2^24 numbers or more are taken.
    fn free_id(&self) -> Option<u32>
        ensures { result ≡ free_id (pair self.now) };

    /// Keeps a value under a key in the service's own account.
    ///
    /// # Errors
    /// `AllocError` for want of memory.
    fn put_value(&mut self, key: &[u8], value: &[u8]) -> Result<(), AllocError>
        requires { IsOwnWithinBound (put_value (pair self.old) key.now value.now) }
        ensures ok { OnOk result (pair self.new ≡ put_value (pair self.old) key.now value.now) }
        ensures err { OnErr result (pair self.new ≡ pair self.old) };

    /// Drops the value under a key from the service's own account, where there is one.
    ///
    /// # Errors
    /// `AllocError` for want of memory.
    fn drop_value(&mut self, key: &[u8]) -> Result<(), AllocError>
        ensures ok { OnOk result (pair self.new ≡ drop_value (pair self.old) key.now) }
        ensures err { OnErr result (pair self.new ≡ pair self.old) };

    /// Keeps a history in the service's own account, or drops the one there.
    ///
    /// # Errors
    /// `AllocError` for want of memory.
    fn set_history(
        &mut self,
        hash: &[u8; 32],
        length: u32,
        history: Option<History>,
    ) -> Result<(), AllocError>
        requires { IsOwnWithinBound (set_history (pair self.old) hash.now length history) }
        ensures ok { OnOk result (pair self.new ≡ set_history (pair self.old) hash.now length history) }
        ensures err { OnErr result (pair self.new ≡ pair self.old) };

    /// Drops the preimage of a hash from the service's own account, where there is one.
    ///
    /// # Errors
    /// `AllocError` for want of memory.
    fn drop_preimage(&mut self, hash: &[u8; 32]) -> Result<(), AllocError>
        ensures ok { OnOk result (pair self.new ≡ drop_preimage (pair self.old) hash.now) }
        ensures err { OnErr result (pair self.new ≡ pair self.old) };

    /// Gives the service's own account a balance.
    ///
    /// # Errors
    /// `AllocError` for want of memory.
    fn set_balance(&mut self, balance: u64) -> Result<(), AllocError>
        ensures ok { OnOk result (pair self.new ≡ set_balance (pair self.old) balance) }
        ensures err { OnErr result (pair self.new ≡ pair self.old) };

    /// Gives the service's own account the hash of its code, and the least gas of its two entries.
    ///
    /// # Errors
    /// `AllocError` for want of memory.
    fn set_code(
        &mut self,
        code_hash: &[u8; 32],
        min_accumulate: u64,
        min_transfer: u64,
    ) -> Result<(), AllocError>
        ensures ok { OnOk result (pair self.new ≡ set_code (pair self.old) code_hash.now min_accumulate min_transfer) }
        ensures err { OnErr result (pair self.new ≡ pair self.old) };

    /// Adds an account under the number for the next new service. The candidate moves past it.
    ///
    /// # Errors
    /// `AllocError` for want of memory.
    fn add_account(&mut self, id: u32, account: Account) -> Result<(), AllocError>
        requires { free_id (pair self.old) ≡ Some id }
        ensures ok { OnOk result (pair self.new ≡ add_account (pair self.old) id account) }
        ensures err { OnErr result (pair self.new ≡ pair self.old) };

    /// Removes the account of another service.
    ///
    /// # Errors
    /// `AllocError` for want of memory.
    fn remove_account(&mut self, id: u32) -> Result<(), AllocError>
        requires there { IsSome (account_in (pair self.old) id) }
        requires other { id ≢ (pair self.old).service }
        ensures ok { OnOk result (pair self.new ≡ remove_account (pair self.old) id) }
        ensures err { OnErr result (pair self.new ≡ pair self.old) };

    /// Adds a transfer behind the others.
    ///
    /// # Errors
    /// `AllocError` for want of memory.
    fn push_transfer(&mut self, transfer: Transfer) -> Result<(), AllocError>
        ensures ok { OnOk result (pair self.new ≡ push_transfer (pair self.old) transfer) }
        ensures err { OnErr result (pair self.new ≡ pair self.old) };

    /// Yields a hash, in place of the one before.
    ///
    /// # Errors
    /// `AllocError` for want of memory.
    fn set_yield(&mut self, hash: [u8; 32]) -> Result<(), AllocError>
        ensures ok { OnOk result (pair self.new ≡ set_yield (pair self.old) hash) }
        ensures err { OnErr result (pair self.new ≡ pair self.old) };

    /// Adds a preimage for a service behind those that were provided before.
    ///
    /// # Errors
    /// `AllocError` for want of memory.
    fn push_provided(&mut self, service: u32, bytes: &[u8]) -> Result<(), AllocError>
        ensures ok { OnOk result (pair self.new ≡ push_provided (pair self.old) service bytes.now) }
        ensures err { OnErr result (pair self.new ≡ pair self.old) };

    /// Saves the context as it is now.
    ///
    /// # Errors
    /// `AllocError` for want of memory.
    fn checkpoint(&mut self) -> Result<(), AllocError>
        ensures ok { OnOk result (pair self.new ≡ checkpoint (pair self.old)) }
        ensures err { OnErr result (pair self.new ≡ pair self.old) };

    /// Makes the context as it was saved. This takes no memory.
    fn restore(&mut self)
        ensures { pair self.new ≡ restore (pair self.old) };

    /// What the invocation leaves: the context now, as a difference from the accounts at the start.
    ///
    /// # Errors
    /// `AllocError` for want of memory; the context is gone then.
    fn into_delta(self) -> Result<Delta, AllocError>
        ensures { IfOk result (λ left. left ≡ delta (pair self)) };
}
