// What holds of the table of words and of what files spell.
ghost use Rattle.jam_cli.specs.Laws.{AskOnce, StoreApart, SpellOnce, RefuseOnce, EntryNamed};

use batch_file::batch_laws;
use blob_decode::blob_laws;
use program_init::standard_laws;
use state_file::state_laws;

/// What the clauses of [`jam`](crate::jam) say of a call is said of one command and one list of values:
/// - words ask for at most one command, and files spell at most one list of values of their kinds;
/// - bytes that spell no value are refused at one place;
/// - nothing is stored under a name that is read, and what is stored is stored under the name of the table.
pub fn command_laws()
    ensures command { AskOnce }
    ensures values { SpellOnce }
    ensures place { RefuseOnce }
    ensures apart { StoreApart }
    ensures entry { EntryNamed }
{
    // Each kind of files has its own law of one spelling.
    blob_laws();
    standard_laws();
    state_laws();
    batch_laws();
}
