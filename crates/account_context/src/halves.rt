// Two halves of whole contexts, for which one copy may stand.
ghost use Rattle.std.specs.Prelude.{◌≡◌, Some, IfOk, OnOk, OnErr};
ghost use Rattle.account_context.specs.Held.{saved_copy};

use crate::context_copy::ContextCopy;
use std::alloc::{AllocError, Global};

/// The same context, with accounts and lists of its own.
pub fn copy_of(alloc: Global, context: &ContextCopy) -> Result<ContextCopy, AllocError>
    ensures { IfOk result (λ copy. copy ≡ context.now) }
{
    Ok(ContextCopy {
        accounts: context.accounts.copy()?,
        candidate: context.candidate,
        transfers: context.transfers.copy(alloc)?,
        yielded: context.yielded,
        provided: context.provided.copy(alloc)?,
    })
}

/// Makes the second copy, where one stands for both halves.
pub fn part(
    alloc: Global,
    now: &ContextCopy,
    saved: &mut Option<ContextCopy>,
) -> Result<(), AllocError>
    ensures ok { OnOk result (saved.new ≡ Some (saved_copy now.now saved.old)) }
    ensures err { OnErr result (saved.new ≡ saved.old) }
{
    if saved.is_none() {
        *saved = Some(copy_of(alloc, now)?);
    }
    Ok(())
}
