// The files that a command reads.
ghost use Rattle.std.specs.Prelude.{◌≡◌, ◌≢◌, ◌⊎◌, OnOk, IfOk, IfErr, IfSome, IsTrue, ◌↔◌};
ghost use Rattle.jam_cli.specs.Table.{NamesNone};
ghost use Rattle.jam_cli.specs.Ending.{FirstNamed};
ghost use Rattle.jam_cli.specs.Parts.{plain_input, plain_inputs, inputs_in, AreKeptFiles, AreReadFiles, NotRead, EndOf};

use crate::kept::{Kept, read_kept};
use crate::refusal::Refusal;
use crate::verb::Kind;
use jam_outside::{ReadRefusal, Vault};
use std::alloc::Global;

/// A file that is read: the number of its word, where the verb is word 0, its name and its kind.
#[derive(Clone, Copy)]
pub struct Input<'a> {
    pub word: u8,
    pub name: &'a str,
    pub kind: Kind,
}

/// A file that was read.
#[derive(Drop)]
pub struct File<'a> {
    pub input: Input<'a>,
    pub kept: Kept,
}

fn is_name(input: &Input<'_>, name: &str) -> bool
    ensures { IsTrue result ↔ (name.now ≡ input.now.name.now) }
{
    name == input.name
}

// The first word that has the name; where none has it, the other.
fn first_word(inputs: &[Input<'_>], name: &str, otherwise: u8) -> u8
    ensures { FirstNamed name.now (plain_inputs inputs.now) result ⊎ NamesNone (plain_inputs inputs.now) name.now }
{
    for input in inputs {
        if is_name(input, name) {
            return input.word;
        }
    }
    otherwise
}

fn end_of(inputs: &[Input<'_>], input: &Input<'_>, refusal: ReadRefusal) -> Refusal
    ensures { EndOf refusal result (plain_inputs inputs.now) (plain_input input.now) }
{
    match refusal {
        ReadRefusal::ReadFault => { Refusal::ReadFault(first_word(inputs, input.name, input.word)) }
        ReadRefusal::TooLong => Refusal::TooLong(input.word),
        ReadRefusal::NoMemory => Refusal::NoMemory,
    }
}

/// The files of inputs, read in their order. A fault is that of the first word with the file's name.
#[tactic(auto, using(std::proofs::lemmas::Result::err_from_is_err_and))]
pub fn read_inputs<'a, V: Vault>(
    alloc: Global,
    vault: &mut V,
    inputs: &[Input<'a>],
) -> Result<Vec<File<'a>>, Refusal>
    ensures inputs { IfOk result (λ all. inputs_in all.items ≡ plain_inputs inputs.now) }
    ensures read { IfOk result (λ all. AreReadFiles (V.state vault.old).files (plain_inputs inputs.now) all.items) }
    ensures keeps { IfOk result (λ all. AreKeptFiles all.items) }
    ensures kept { OnOk result (V.state vault.new ≡ V.state vault.old) }
    ensures not_read { IfErr result (λ refusal. NotRead refusal (plain_inputs inputs.now) (V.state vault.old) (V.state vault.new)) }
{
    let mut all = Vec::new(alloc);
    for input in inputs {
        match read_kept(alloc, vault, input.name, input.kind) {
            Ok(kept) => all.push(File {
                input: *input,
                kept,
            })?,
            Err(refusal) => return Err(end_of(inputs, input, refusal)),
        }
    }
    Ok(all)
}
