// The verbs, and the kinds of files.
ghost use Rattle.std.specs.Prelude.{◌≡◌, MatchOption, None};
ghost use Rattle.jam_cli.specs.Table.{row, verb_named};

/// What a file that is read holds.
#[derive(Clone, Copy)]
pub enum Kind {
    /// A program blob.
    Program,
    /// A standard program.
    Standard,
    /// Bytes as they are.
    Bytes,
    /// A state of services.
    State,
    /// A batch of work.
    Batch,
    /// A text in UTF-8.
    Text,
}

/// The first word of a command line.
#[derive(Clone, Copy)]
pub enum Verb {
    Run,
    Trace,
    Show,
    Hash,
    Asm,
    Disasm,
    Accumulate,
}

/// The verb with a name.
#[tactic(auto, unfolding(crate::specs::Table::verb_named))]
pub fn verb_of(word: &str) -> Option<Verb>
    ensures { MatchOption result (verb_named word.now ≡ None) (λ verb. word.now ≡ (row verb).name) }
{
    match word {
        "run" => Some(Verb::Run),
        "trace" => Some(Verb::Trace),
        "show" => Some(Verb::Show),
        "hash" => Some(Verb::Hash),
        "asm" => Some(Verb::Asm),
        "disasm" => Some(Verb::Disasm),
        "accumulate" => Some(Verb::Accumulate),
        _ => None,
    }
}
