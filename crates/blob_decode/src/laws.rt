// What holds of program blobs, of the places of instructions, and of block starts.
ghost use Rattle.std.specs.Prelude.{◌≡◌, ℕ, IsTrue, ◌↔◌};
ghost use Rattle.jam_codec.specs.Laws.{IsFormat, HasOneSpelling, HasNoPrefix};
ghost use Rattle.blob_decode.specs.Program.{Program, program_blob, skip, IsSkip, is_start, IsStart};

/// Program blobs are a format:
/// - a program has one spelling, and bytes spell one program;
/// - no blob begins another;
/// - what is spelled is read again and what is read is spelled so, and where bytes are no blob,
///   the place of the refusal is the end of the longest run of whole fields.
pub fn blob_laws()
    ensures one_value { HasOneSpelling program_blob }
    ensures no_prefix { HasNoPrefix program_blob }
    ensures place { IsFormat program_blob }
{}

/// How many bytes of arguments an instruction has is the least distance from the place after it to one at which an
/// instruction begins, or 24 where that is more; no other number is it.
pub fn skip_law()
    ensures skip { (p : Program) (i : ℕ) → IsSkip p i (skip p i) }
    ensures no_other { (p : Program) (i n : ℕ) → IsSkip p i n → n ≡ skip p i }
{}

/// A block begins exactly where an instruction with a defined opcode stands at place 0, or right
/// after an instruction that ends a block.
pub fn start_law()
    ensures { (p : Program) (i : ℕ) → IsTrue (is_start p i) ↔ IsStart p i }
{}
