// The work of `accumulate`.
ghost use Rattle.std.specs.Prelude.{◌≡◌, IfOk};
ghost use Rattle.trace_text.specs.Transcript.{text_of};
ghost use Rattle.jam_cli.specs.Command.{batch_lines, accumulate_work};
ghost use Rattle.jam_cli.specs.Parts.{plain_work};

use crate::work::{Entry, Work};
use batch_accumulate::{Posterior, accumulate_batch};
use batch_file::Batch;
use blake2b_core::digest;
use jam_accounts::State;
use state_file::write_state;
use std::alloc::{AllocError, Global};
use trace_text::{Line, spell_lines};

// The lines of a batch that makes no group.
fn batch_text(alloc: Global, made: &Posterior, bytes: &[u8]) -> Result<Vec<u8>, AllocError>
    ensures { IfOk result (λ text. text.items ≡ text_of (batch_lines made.now bytes.now)) }
{
    let lines = [
        Line::Slot(made.state.slot),
        Line::LeftOut(made.left_out),
        Line::Preimages(made.preimages),
        Line::Accounts(made.state.accounts.len() as u64),
        Line::State(digest(bytes)),
    ];
    spell_lines(alloc, &lines)
}

/// Prints the lines of a batch, and stores the state that it makes of the prior one.
pub fn accumulate<'a>(
    alloc: Global,
    prior: &State,
    batch: &Batch,
    name: &'a str,
) -> Result<Work<'a>, AllocError>
    ensures { IfOk result (λ work. plain_work work ≡ accumulate_work prior.now batch.now name.now) }
{
    let made = accumulate_batch(alloc, prior, batch)?;
    let bytes = write_state(alloc, &made.state)?;
    let text = batch_text(alloc, &made, &bytes)?;
    let entry = Some(Entry { name, bytes });
    Ok(Work { text, entry })
}
