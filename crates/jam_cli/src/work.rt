// What each command makes of the values of its files.
#![tactic(auto, using(std::proofs::lemmas::Result::err_from_is_err_and, crate::proofs::Carried::not_worked))]

ghost use Rattle.std.specs.Prelude.{◌≡◌, [], ◌∷◌};
ghost use Rattle.jam_cli.specs.declared.verb.Kind.TheVariants as kind;
ghost use Rattle.jam_cli.specs.declared.verb.Verb.TheVariants as the;
ghost use Rattle.jam_cli.specs.Table.{command, inputs};
ghost use Rattle.jam_cli.specs.Command.{kinds};
ghost use Rattle.jam_cli.specs.Parts.{asked, inputs_in, AreKeptFiles, WorkedOn};

use crate::accumulate::accumulate;
use crate::asm::asm;
use crate::disasm::disasm;
use crate::hash::hash;
use crate::number::{ArgumentBytes, LineCount, Small};
use crate::reads::File;
use crate::refusal::Refusal;
use crate::run::run;
use crate::show::show;
use crate::trace::trace;
use crate::values::{Contents, Digest, Whole};
use crate::words::Command;
use std::alloc::Global;

/// Bytes, and the name under which they are to be stored.
#[derive(Drop)]
pub struct Entry<'a> {
    pub name: &'a str,
    pub bytes: Vec<u8>,
}

/// What a command prints, and what it stores, if anything.
#[derive(Drop)]
pub struct Work<'a> {
    pub text: Vec<u8>,
    pub entry: Option<Entry<'a>>,
}

fn run_on<'a>(
    alloc: Global,
    blob: &'a str,
    gas: Small,
    files: &[File<'_>],
) -> Result<Work<'a>, Refusal>
    requires kinds { kinds (inputs_in files.now) ≡ kind.Program ∷ [] }
    requires kept { AreKeptFiles files.now }
    ensures { WorkedOn (command the.Run (blob.now, (gas.value, tt))) files.now result }
{
    let (Whole(program), ()) = Contents::decode_all(alloc, files)?;
    Ok(run(alloc, program, gas)?)
}

fn trace_on<'a>(
    alloc: Global,
    standard: &'a str,
    entry: u64,
    gas: Small,
    args: &ArgumentBytes,
    last: LineCount,
    files: &[File<'_>],
) -> Result<Work<'a>, Refusal>
    requires kinds { kinds (inputs_in files.now) ≡ kind.Standard ∷ [] }
    requires kept { AreKeptFiles files.now }
    ensures { WorkedOn (command the.Trace (standard.now, (entry, (gas.value, (args.now.bytes.items, (last.value, tt)))))) files.now result }
{
    let (Whole(program), ()) = Contents::decode_all(alloc, files)?;
    Ok(trace(alloc, &program, entry, gas, args, last)?)
}

fn show_on<'a>(alloc: Global, state: &'a str, files: &[File<'_>]) -> Result<Work<'a>, Refusal>
    requires kinds { kinds (inputs_in files.now) ≡ kind.State ∷ [] }
    requires kept { AreKeptFiles files.now }
    ensures { WorkedOn (command the.Show (state.now, tt)) files.now result }
{
    let (Whole(state), ()) = Contents::decode_all(alloc, files)?;
    Ok(show(alloc, &state)?)
}

fn hash_on<'a>(alloc: Global, file: &'a str, files: &[File<'_>]) -> Result<Work<'a>, Refusal>
    requires kinds { kinds (inputs_in files.now) ≡ kind.Bytes ∷ [] }
    requires kept { AreKeptFiles files.now }
    ensures { WorkedOn (command the.Hash (file.now, tt)) files.now result }
{
    let (Digest(digest), ()) = Contents::decode_all(alloc, files)?;
    Ok(hash(alloc, digest)?)
}

fn asm_on<'a>(
    alloc: Global,
    text: &'a str,
    out: &'a str,
    files: &[File<'_>],
) -> Result<Work<'a>, Refusal>
    requires kinds { kinds (inputs_in files.now) ≡ kind.Text ∷ [] }
    requires kept { AreKeptFiles files.now }
    ensures { WorkedOn (command the.Asm (text.now, (out.now, tt))) files.now result }
{
    let (Whole(found), ()): (Whole<String>, ()) = Contents::decode_all(alloc, files)?;
    asm(alloc, found.as_str(), out)
}

fn disasm_on<'a>(alloc: Global, blob: &'a str, files: &[File<'_>]) -> Result<Work<'a>, Refusal>
    requires kinds { kinds (inputs_in files.now) ≡ kind.Program ∷ [] }
    requires kept { AreKeptFiles files.now }
    ensures { WorkedOn (command the.Disasm (blob.now, tt)) files.now result }
{
    let (Whole(program), ()) = Contents::decode_all(alloc, files)?;
    Ok(disasm(alloc, &program)?)
}

fn accumulate_on<'a>(
    alloc: Global,
    state: &'a str,
    batch: &'a str,
    posterior: &'a str,
    slice: u64,
    files: &[File<'_>],
) -> Result<Work<'a>, Refusal>
    requires kinds { kinds (inputs_in files.now) ≡ kind.State ∷ (kind.Batch ∷ []) }
    requires kept { AreKeptFiles files.now }
    ensures { WorkedOn (command the.Accumulate (state.now, (batch.now, (posterior.now, (slice, tt))))) files.now result }
{
    let (Whole(prior), (Whole(batch), ())) = Contents::decode_all(alloc, files)?;
    Ok(accumulate(alloc, &prior, &batch, posterior)?)
}

/// The work of a command on its files.
#[tactic(auto, using(crate::proofs::Carried::worked))]
pub fn work_of<'a>(
    alloc: Global,
    command: &Command<'a>,
    files: &[File<'_>],
) -> Result<Work<'a>, Refusal>
    requires kinds { kinds (inputs_in files.now) ≡ kinds (inputs (asked command.now)) }
    requires kept { AreKeptFiles files.now }
    ensures { WorkedOn (asked command.now) files.now result }
{
    match command {
        Command::Run { blob, gas } => run_on(alloc, *blob, *gas, files),
        Command::Trace {
            standard,
            entry,
            gas,
            args,
            last,
        } => trace_on(alloc, *standard, *entry, *gas, args, *last, files),
        Command::Show(state) => show_on(alloc, *state, files),
        Command::Hash(file) => hash_on(alloc, *file, files),
        Command::Asm { text, out } => asm_on(alloc, *text, *out, files),
        Command::Disasm(blob) => disasm_on(alloc, *blob, files),
        Command::Accumulate {
            state,
            batch,
            posterior,
            slice,
        } => accumulate_on(alloc, *state, *batch, *posterior, *slice, files),
    }
}
