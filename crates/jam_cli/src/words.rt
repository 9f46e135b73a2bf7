// The words of a command line.
ghost use Rattle.std.specs.Prelude.{◌≡◌, ◌≢◌, IfOk, MatchOption, MatchResult};
ghost use Rattle.jam_cli.specs.declared.verb.Verb.TheVariants as the;
ghost use Rattle.jam_cli.specs.declared.argument.Misfit.TheVariants.{OtherWords};
ghost use Rattle.jam_cli.specs.Table.{Asks, AsksNothing, texts};
ghost use Rattle.jam_cli.specs.Parts.{asked, IsLine, Parses};

use crate::argument::{Misfit, hexadecimal, is_text, name, number, small};
use crate::number::{ArgumentBytes, LineCount, Small};
use crate::reads::Input;
use crate::verb::{Kind, Verb, verb_of};
use std::alloc::{AllocError, Global};

/// A row of the table of words, with its arguments. The files that it reads are not among them.
#[derive(Drop)]
pub enum Command<'a> {
    /// `run BLOB GAS`: runs a program blob with so much gas.
    Run {
        blob: &'a str,
        gas: Small,
    },
    /// `trace STANDARD ENTRY GAS ARGSHEX LAST`: runs a standard program from a place, with so much gas and these arguments,
    /// and shows its last instructions.
    Trace {
        standard: &'a str,
        entry: u64,
        gas: Small,
        args: ArgumentBytes,
        last: LineCount,
    },
    /// `show STATE`: what a state holds.
    Show(&'a str),
    /// `hash FILE`: the digest of the bytes of a file.
    Hash(&'a str),
    /// `asm TEXT OUT`: stores the bytes that a text is assembled to.
    Asm {
        text: &'a str,
        out: &'a str,
    },
    /// `disasm BLOB`: a text that is assembled to a program blob.
    Disasm(&'a str),
    /// `accumulate STATE BATCH POSTERIOR SLICE`: stores the state that a batch makes of a state.
    Accumulate {
        state: &'a str,
        batch: &'a str,
        posterior: &'a str,
        slice: u64,
    },
}

/// A command, the files that it reads in the order of their words, and the name that it stores under.
#[derive(Drop)]
pub struct Line<'a> {
    pub command: Command<'a>,
    pub inputs: Vec<Input<'a>>,
    pub stored: Option<&'a str>,
}

// Fails where the name is that of a file that is read.
fn apart(stored: &str, read: &str) -> Result<(), Misfit>
    ensures { MatchResult result (λ _. stored.now ≢ read.now) (λ e. (e ≡ OtherWords) × (stored.now ≡ read.now)) }
{
    if is_text(stored, read) {
        return Err(Misfit::OtherWords);
    }
    Ok(())
}

fn input(word: u8, name: &str, kind: Kind) -> Input<'_>
    ensures word { result.word ≡ word }
    ensures name { result.name.now ≡ name.now }
    ensures kind { result.kind ≡ kind }
{
    Input { word, name, kind }
}

fn run_of<'a>(alloc: Global, words: &'a [String]) -> Result<Line<'a>, Misfit>
    ensures { Parses the.Run (texts words.now) result }
{
    let [blob, gas] = words else {
        return Err(Misfit::OtherWords);
    };
    let blob = name(blob)?;
    let gas = small(alloc, gas)?;
    Ok(Line {
        command: Command::Run { blob, gas },
        inputs: vec![in alloc; input(1, blob, Kind::Program)]?,
        stored: None,
    })
}

fn trace_of<'a>(alloc: Global, words: &'a [String]) -> Result<Line<'a>, Misfit>
    ensures { Parses the.Trace (texts words.now) result }
{
    let [standard, entry, gas, args, last] = words else {
        return Err(Misfit::OtherWords);
    };
    let standard = name(standard)?;
    let entry = number(alloc, entry, 0, 1 << 32)?;
    let gas = small(alloc, gas)?;
    let bytes = hexadecimal(alloc, args.as_str(), 0, 1 << 24)?;
    let value = number(alloc, last, 1, 1001)?;
    Ok(Line {
        command: Command::Trace {
            standard,
            entry,
            gas,
            args: ArgumentBytes { bytes },
            last: LineCount { value },
        },
        inputs: vec![in alloc; input(1, standard, Kind::Standard)]?,
        stored: None,
    })
}

fn show_of<'a>(alloc: Global, words: &'a [String]) -> Result<Line<'a>, Misfit>
    ensures { Parses the.Show (texts words.now) result }
{
    let [state] = words else {
        return Err(Misfit::OtherWords);
    };
    let state = name(state)?;
    Ok(Line {
        command: Command::Show(state),
        inputs: vec![in alloc; input(1, state, Kind::State)]?,
        stored: None,
    })
}

fn hash_of<'a>(alloc: Global, words: &'a [String]) -> Result<Line<'a>, Misfit>
    ensures { Parses the.Hash (texts words.now) result }
{
    let [file] = words else {
        return Err(Misfit::OtherWords);
    };
    let file = name(file)?;
    Ok(Line {
        command: Command::Hash(file),
        inputs: vec![in alloc; input(1, file, Kind::Bytes)]?,
        stored: None,
    })
}

fn asm_of<'a>(alloc: Global, words: &'a [String]) -> Result<Line<'a>, Misfit>
    ensures { Parses the.Asm (texts words.now) result }
{
    let [text, out] = words else {
        return Err(Misfit::OtherWords);
    };
    let text = name(text)?;
    let out = name(out)?;
    apart(out, text)?;
    Ok(Line {
        command: Command::Asm { text, out },
        inputs: vec![in alloc; input(1, text, Kind::Text)]?,
        stored: Some(out),
    })
}

fn disasm_of<'a>(alloc: Global, words: &'a [String]) -> Result<Line<'a>, Misfit>
    ensures { Parses the.Disasm (texts words.now) result }
{
    let [blob] = words else {
        return Err(Misfit::OtherWords);
    };
    let blob = name(blob)?;
    Ok(Line {
        command: Command::Disasm(blob),
        inputs: vec![in alloc; input(1, blob, Kind::Program)]?,
        stored: None,
    })
}

fn accumulate_of<'a>(alloc: Global, words: &'a [String]) -> Result<Line<'a>, Misfit>
    ensures { Parses the.Accumulate (texts words.now) result }
{
    let [state, batch, posterior, slice] = words else {
        return Err(Misfit::OtherWords);
    };
    let state = name(state)?;
    let batch = name(batch)?;
    let posterior = name(posterior)?;
    let slice = number(alloc, slice, 0, 1)?;
    apart(posterior, state)?;
    apart(posterior, batch)?;
    Ok(Line {
        command: Command::Accumulate {
            state,
            batch,
            posterior,
            slice,
        },
        inputs: vec![in alloc; input(1, state, Kind::State), input(2, batch, Kind::Batch)]?,
        stored: Some(posterior),
    })
}

// The command of a verb and the words after it.
fn parse<'a>(alloc: Global, verb: Verb, words: &'a [String]) -> Result<Line<'a>, Misfit>
    ensures { Parses verb (texts words.now) result }
{
    match verb {
        Verb::Run => run_of(alloc, words),
        Verb::Trace => trace_of(alloc, words),
        Verb::Show => show_of(alloc, words),
        Verb::Hash => hash_of(alloc, words),
        Verb::Asm => asm_of(alloc, words),
        Verb::Disasm => disasm_of(alloc, words),
        Verb::Accumulate => accumulate_of(alloc, words),
    }
}

/// The command that has these words, if there is one.
#[tactic(auto, using(crate::proofs::Verbs::unknown))]
pub fn command_of(alloc: Global, words: &[String]) -> Result<Option<Line<'_>>, AllocError>
    ensures { IfOk result (λ found. MatchOption found (AsksNothing (texts words.now)) (λ line. Asks (asked line.command) (texts words.now) × IsLine line)) }
{
    let [word, rest @ ..] = words else {
        return Ok(None);
    };
    let Some(verb) = verb_of(word.as_str()) else {
        return Ok(None);
    };
    match parse(alloc, verb, rest) {
        Ok(line) => Ok(Some(line)),
        Err(Misfit::OtherWords) => Ok(None),
        Err(Misfit::NoMemory) => Err(AllocError),
    }
}
