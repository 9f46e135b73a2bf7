// The work of `show`.
ghost use Rattle.std.specs.Prelude.{◌≡◌, IfOk};
ghost use Rattle.jam_cli.specs.Command.{show_work};
ghost use Rattle.jam_cli.specs.Parts.{plain_work};

use crate::work::Work;
use jam_accounts::State;
use std::alloc::{AllocError, Global};
use trace_text::spell_state;

/// Prints the lines of a state.
pub fn show(alloc: Global, state: &State) -> Result<Work<'static>, AllocError>
    ensures { IfOk result (λ work. plain_work work ≡ show_work state.now) }
{
    let text = spell_state(alloc, state)?;
    Ok(Work { text, entry: None })
}
