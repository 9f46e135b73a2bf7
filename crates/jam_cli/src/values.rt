// The values that files spell.
ghost use Rattle.std.specs.Prelude.{◌≡◌, ◌≢◌, List, ℕ, [], ◌∷◌, IfOk, IfErr};
ghost use Rattle.jam_codec.specs.Format.{Spells};
ghost use Rattle.blake2b_core.specs.Blake2b as blake2b;
ghost use Rattle.jam_cli.specs.declared.verb.Kind.{Kind};
ghost use Rattle.jam_cli.specs.declared.verb.Kind.TheVariants.{Program, Standard, Bytes, State, Batch, Text};
ghost use Rattle.jam_cli.specs.Command.{File, ValueOf, format_of, kinds, Values, SpellAll};
ghost use Rattle.jam_cli.specs.Parts.{inputs_in, first_bytes, later_files, IsKeptFile, KeepsWhole, AreKeptFiles, OfFiles, IsNone, refused_as, NotAllSpelled};

use crate::kept::Kept;
use crate::reads::File;
use crate::refusal::Refusal;
use crate::verb::Kind;
use batch_file::{Batch, read_batch};
use blob_decode::{Program, ProgramRefusal};
use jam_accounts::State;
use jam_codec::FileRefusal;
use program_init::{StandardProgram, read_standard};
use state_file::read_state;
use std::alloc::Global;
use std::str;

/// A value that the bytes of a file of one kind spell.
pub trait Spelled: Drop {
    ghost kind: { Kind };

    ghost value: { Self → ValueOf kind };

    /// The value that the bytes spell.
    fn decode(alloc: Global, bytes: &[u8]) -> Result<Self, FileRefusal>
        ensures spelled { IfOk result (λ x. Spells (format_of kind) (value x) bytes.now) }
        ensures refused { IfErr result (λ e. IsNone kind bytes.now e) };

    /// Its files are kept as a whole.
    ghost whole: { kind ≢ Bytes };
}

impl Spelled for Program {
    ghost kind = { Program };

    ghost value = { λ p. p };

    fn decode(alloc: Global, bytes: &[u8]) -> Result<Program, FileRefusal> {
        match Program::deblob(alloc, bytes) {
            Ok(program) => Ok(program),
            Err(ProgramRefusal::NotProgram { place }) => Err(FileRefusal::Malformed { place }),
            Err(ProgramRefusal::NoMemory) => Err(FileRefusal::NoMemory),
        }
    }

    ghost whole = { λ e. Prim.cc e };
}

impl Spelled for StandardProgram {
    ghost kind = { Standard };

    ghost value = { λ s. s };

    fn decode(alloc: Global, bytes: &[u8]) -> Result<StandardProgram, FileRefusal> {
        read_standard(alloc, bytes)
    }

    ghost whole = { λ e. Prim.cc e };
}

impl Spelled for State {
    ghost kind = { State };

    ghost value = { λ s. s };

    fn decode(alloc: Global, bytes: &[u8]) -> Result<State, FileRefusal> {
        read_state(alloc, bytes)
    }

    ghost whole = { λ e. Prim.cc e };
}

impl Spelled for Batch {
    ghost kind = { Batch };

    ghost value = { λ b. b };

    fn decode(alloc: Global, bytes: &[u8]) -> Result<Batch, FileRefusal> {
        read_batch(alloc, bytes)
    }

    ghost whole = { λ e. Prim.cc e };
}

#[tactic(auto, using(crate::proofs::Texts::no_text))]
impl Spelled for String {
    ghost use Rattle.std.specs.Prelude.{string_bytes};

    ghost kind = { Text };

    ghost value = { λ s. string_bytes s };

    fn decode(alloc: Global, bytes: &[u8]) -> Result<String, FileRefusal> {
        match str::from_utf8(bytes) {
            Ok(text) => Ok(String::from_str(alloc, text)?),
            Err(_) => Err(FileRefusal::Malformed { place: 0 }),
        }
    }

    ghost whole = { λ e. Prim.cc e };
}

/// What is made of a file that was read.
pub trait Content: Drop {
    ghost kind: { Kind };

    /// The value that it stands for, where the file is these bytes.
    ghost value: { Self → List ℕ → ValueOf kind };

    /// What it says of the bytes.
    ghost Tells: { Self → List ℕ → Type 0 };

    /// What stands for the value of a file that is kept so.
    fn decode(alloc: Global, kept: &Kept) -> Result<Self, FileRefusal>
        requires { (bytes : List ℕ) × IsKeptFile kind kept.now bytes }
        ensures spelled { IfOk result (λ x. (bytes : List ℕ) → IsKeptFile kind kept.now bytes → Tells x bytes × Spells (format_of kind) (value x bytes) bytes) }
        ensures refused { IfErr result (λ e. (bytes : List ℕ) → IsKeptFile kind kept.now bytes → IsNone kind bytes e) };
}

/// A value of a file that is kept as a whole.
#[derive(Drop)]
pub struct Whole<T: Drop>(pub T);

fn whole_bytes(kept: &Kept) -> &[u8]
    requires { (bytes : List ℕ) × KeepsWhole kept.now bytes }
    ensures { KeepsWhole kept.now result.now }
{
    match kept {
        Kept::Whole(bytes) => bytes,
        Kept::Digest(_) => unreachable!(),
    }
}

impl<T: Spelled> Content for Whole<T> {
    ghost kind = { T.kind };

    ghost value = { λ x _. T.value x.0 };

    ghost Tells = { λ _ _. Unit {0} };

    fn decode(alloc: Global, kept: &Kept) -> Result<Whole<T>, FileRefusal> {
        Ok(Whole(T::decode(alloc, whole_bytes(kept))?))
    }
}

/// The digest of a file whose bytes are taken as they are.
#[derive(Drop)]
pub struct Digest(pub [u8; 32]);

impl Content for Digest {
    ghost kind = { Bytes };

    ghost value = { λ _ bytes. bytes };

    ghost Tells = { λ d bytes. d.0 ≡ blake2b.digest bytes };

    fn decode(_alloc: Global, kept: &Kept) -> Result<Digest, FileRefusal> {
        match kept {
            Kept::Digest(digest) => Ok(Digest(*digest)),
            Kept::Whole(_) => unreachable!(),
        }
    }
}

fn refused_as(word: u8, refusal: FileRefusal) -> Refusal
    ensures { result ≡ refused_as word refusal }
{
    match refusal {
        FileRefusal::Malformed { place } => Refusal::NotSpelled { word, place },
        FileRefusal::NoMemory => Refusal::NoMemory,
    }
}

/// What is made of files, one after another, each of its kind.
pub trait Contents: Drop {
    ghost all_kinds: { List Kind };

    /// The values that they stand for, where the files are these.
    ghost values: { Self → List File → Values all_kinds };

    /// What they say of the files.
    ghost Tell: { Self → List File → Type 0 };

    /// What stands for the values that the files spell; or the word of the first that spells none,
    /// and the place.
    fn decode_all(alloc: Global, files: &[File<'_>]) -> Result<Self, Refusal>
        requires kinds { kinds (inputs_in files.now) ≡ all_kinds }
        requires kept { AreKeptFiles files.now }
        ensures spelled { IfOk result (λ all. OfFiles files.now (λ fs. Tell all fs × SpellAll all_kinds (values all fs) fs)) }
        ensures refused { IfErr result (λ refusal. OfFiles files.now (λ fs. NotAllSpelled refusal fs)) };
}

impl Contents for () {
    ghost all_kinds = { [] };

    ghost values = { λ _ _. tt };

    ghost Tell = { λ _ _. Unit {0} };

    fn decode_all(_alloc: Global, _files: &[File<'_>]) -> Result<(), Refusal> {
        Ok(())
    }
}

impl<T: Content, R: Contents> Contents for (T, R) {
    ghost all_kinds = { T.kind ∷ R.all_kinds };

    ghost values = { λ all fs. (T.value all.0 (first_bytes fs), R.values all.1 (later_files fs)) };

    ghost Tell = { λ all fs. T.Tells all.0 (first_bytes fs) × R.Tell all.1 (later_files fs) };

    fn decode_all(alloc: Global, files: &[File<'_>]) -> Result<(T, R), Refusal> {
        let [first, rest @ ..] = files else {
            unreachable!()
        };
        let value = match T::decode(alloc, &first.kept) {
            Ok(value) => value,
            Err(refusal) => return Err(refused_as(first.input.word, refusal)),
        };
        let others = R::decode_all(alloc, rest)?;
        Ok((value, others))
    }
}
