// The top call.
ghost use Rattle.std.specs.Prelude.{◌≡◌};
ghost use Rattle.jam_cli.specs.Table.{texts};
ghost use Rattle.jam_cli.specs.Ending.{call, DoneMeans, BadWordsMeans, BadWordsComes, ReadFaultMeans, TooLongMeans, TooLongComes, RefusedMeans, RefusedComes, BadLineMeans, BadLineComes, SinkFaultMeans, StoreFaultMeans, NoMemoryMeans, SilentMeans, OthersKeepFiles, InputsKept, CountsFaults, KeepsNames, CountsStores, ServedIsDone};
ghost use Rattle.jam_cli.specs.Parts.{asked, IsLine, Ends, CallEnds};

use crate::deliver::{print, store};
use crate::laws::command_laws;
use crate::reads::read_inputs;
use crate::refusal::{Refusal, status_of};
use crate::status::Status;
use crate::words::{Line, command_of};
use crate::work::work_of;
use jam_outside::{Sink, Vault};
use std::alloc::Global;

// Reads a command's files, works, prints, and last of all stores.
#[tactic(auto, using(std::proofs::lemmas::Result::err_from_is_err_and))]
fn carry_out<V: Vault, S: Sink>(
    alloc: Global,
    line: &Line<'_>,
    vault: &mut V,
    out: &mut S,
) -> Result<(), Refusal>
    requires { IsLine line.now }
    ensures { Ends result (asked line.now.command) (call (V.state vault.old) (V.state vault.new) (S.state out.old) (S.state out.new)) }
{
    let files = read_inputs(alloc, vault, &line.inputs)?;
    let work = work_of(alloc, &line.command, &files)?;
    print(out, &work.text)?;
    store(vault, &work.entry)?;
    Ok(())
}

// Does what the words ask for.
fn serve<V: Vault, S: Sink>(
    alloc: Global,
    words: &Vec<String>,
    vault: &mut V,
    out: &mut S,
) -> Result<(), Refusal>
    ensures { CallEnds result (texts words.now.items) (call (V.state vault.old) (V.state vault.new) (S.state out.old) (S.state out.new)) }
{
    match command_of(alloc, words) {
        Err(_) => Err(Refusal::NoMemory),
        Ok(None) => Err(Refusal::BadWords),
        Ok(Some(line)) => carry_out(alloc, &line, vault, out),
    }
}

/// Does what the words of a command line ask for, over a vault of files and a sink for what is printed.
///
/// A call that ends [`Status::Done`] printed exactly what the command's work gives of the values that
/// the files spell, and stored exactly what it gives; every other ending names its cause and stores
/// nothing. What the vault's files hold is spoken of where the vault tells it, and what was printed
/// where the sink does. Each count of failures is raised by one at the status that names it, and at no
/// other. Want of memory may come anywhere.
pub fn jam<V: Vault, S: Sink>(
    alloc: Global,
    words: &Vec<String>,
    vault: &mut V,
    out: &mut S,
) -> Status
    ensures done { DoneMeans result (texts words.now.items) (call (V.state vault.old) (V.state vault.new) (S.state out.old) (S.state out.new)) }

    ensures bad_words { BadWordsMeans result (texts words.now.items) }
    ensures bad_words_where { BadWordsComes result (texts words.now.items) }
    ensures read_fault { ReadFaultMeans result (texts words.now.items) (call (V.state vault.old) (V.state vault.new) (S.state out.old) (S.state out.new)) }
    ensures too_long { TooLongMeans result (texts words.now.items) (call (V.state vault.old) (V.state vault.new) (S.state out.old) (S.state out.new)) }
    ensures too_long_where { TooLongComes result (texts words.now.items) (call (V.state vault.old) (V.state vault.new) (S.state out.old) (S.state out.new)) }
    ensures refused { RefusedMeans result (texts words.now.items) (call (V.state vault.old) (V.state vault.new) (S.state out.old) (S.state out.new)) }
    ensures refused_where { RefusedComes result (texts words.now.items) (call (V.state vault.old) (V.state vault.new) (S.state out.old) (S.state out.new)) }
    ensures bad_line { BadLineMeans result (texts words.now.items) (call (V.state vault.old) (V.state vault.new) (S.state out.old) (S.state out.new)) }
    ensures bad_line_where { BadLineComes result (texts words.now.items) (call (V.state vault.old) (V.state vault.new) (S.state out.old) (S.state out.new)) }
    ensures sink_fault { SinkFaultMeans result (texts words.now.items) (call (V.state vault.old) (V.state vault.new) (S.state out.old) (S.state out.new)) }
    ensures store_fault { StoreFaultMeans result (texts words.now.items) (call (V.state vault.old) (V.state vault.new) (S.state out.old) (S.state out.new)) }
    ensures no_memory { NoMemoryMeans result (texts words.now.items) (call (V.state vault.old) (V.state vault.new) (S.state out.old) (S.state out.new)) }

    ensures silent { SilentMeans result (call (V.state vault.old) (V.state vault.new) (S.state out.old) (S.state out.new)) }
    ensures files { OthersKeepFiles result (call (V.state vault.old) (V.state vault.new) (S.state out.old) (S.state out.new)) }
    ensures inputs_kept { InputsKept (texts words.now.items) (call (V.state vault.old) (V.state vault.new) (S.state out.old) (S.state out.new)) }
    ensures faults { CountsFaults result (call (V.state vault.old) (V.state vault.new) (S.state out.old) (S.state out.new)) }
    ensures names { KeepsNames result (call (V.state vault.old) (V.state vault.new) (S.state out.old) (S.state out.new)) }
    ensures stores { CountsStores result (texts words.now.items) (call (V.state vault.old) (V.state vault.new) (S.state out.old) (S.state out.new)) }
    ensures complete { ServedIsDone result (texts words.now.items) (call (V.state vault.old) (V.state vault.new) (S.state out.old) (S.state out.new)) }
{
    command_laws();
    status_of(serve(alloc, words, vault, out))
}
