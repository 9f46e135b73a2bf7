// The state that a batch leaves.
ghost use Rattle.std.specs.Prelude.{◌≡◌, IfOk};
ghost use Rattle.batch_accumulate.specs.Batch.{posterior_of};

use crate::deliveries::deliver_all;
use batch_file::Batch;
use jam_accounts::State;
use std::alloc::{AllocError, Global};

/// The state that a batch leaves, and what was done of the batch.
#[derive(Drop)]
pub struct Posterior {
    pub state: State,
    /// How many reports were left out.
    pub left_out: u64,
    /// How many of the delivered preimages were stored.
    pub preimages: u64,
}

/// The state that a batch makes of the one before, which is only read. It has version 2, and the
/// batch's slot and entropy. Each delivered preimage, in order, is stored with the batch's slot as
/// its history where its service is there, and the service's history of it is the empty one. A
/// batch has no reports for now.
///
/// # Errors
/// Want of memory.
pub fn accumulate_batch(
    alloc: Global,
    prior: &State,
    batch: &Batch,
) -> Result<Posterior, AllocError>
    ensures { IfOk result (λ posterior. posterior ≡ posterior_of prior.now batch.now) }
{
    let reports = batch.reports.as_slice();
    let deliveries = batch.preimages.as_slice();
    let mut accounts = prior.accounts.copy()?;
    let preimages = deliver_all(alloc, &mut accounts, deliveries, batch.slot)?;
    Ok(Posterior {
        state: State::new(batch.slot, batch.entropy, accounts),
        left_out: reports.len() as u64,
        preimages,
    })
}
