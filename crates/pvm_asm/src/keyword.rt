// The names of statements other than instructions.
ghost use Rattle.std.specs.Prelude.{◌≡◌};
ghost use Rattle.std.specs.Str.{bytes_eq};
ghost use Rattle.pvm_asm.specs.Statements.{sort_text, sort_named};

/// What a text is assembled to.
#[derive(Clone, Copy, Debug, PartialEq, Eq)]
pub enum Header {
    /// A program blob.
    Raw,
    /// A standard program.
    Standard,
    /// A code preimage.
    Code,
}

/// What stands between the header and the units.
#[derive(Clone, Copy, Debug, PartialEq, Eq)]
pub enum Directive {
    /// The metadata of a code preimage.
    Meta,
    /// The bytes that may only be read.
    Ro,
    /// The bytes that may be written.
    Rw,
    /// The pages of the heap.
    Heap,
    /// The bytes of the stack.
    Stack,
    /// The bytes of an entry of the jump table.
    Width,
    /// An entry of the jump table.
    Jump,
    /// So many entries of no bytes.
    Jumps,
    /// The bytes of code before the first unit.
    Lead,
}

/// What a statement is, whatever its operands.
#[derive(Clone, Copy, Debug, PartialEq, Eq)]
pub enum Sort {
    Header(Header),
    Directive(Directive),
    /// Bytes of code: `.unit` or an instruction.
    Unit,
}

const ALL: [Sort; 13] = [
    Sort::Header(Header::Raw),
    Sort::Header(Header::Standard),
    Sort::Header(Header::Code),
    Sort::Directive(Directive::Meta),
    Sort::Directive(Directive::Ro),
    Sort::Directive(Directive::Rw),
    Sort::Directive(Directive::Heap),
    Sort::Directive(Directive::Stack),
    Sort::Directive(Directive::Width),
    Sort::Directive(Directive::Jump),
    Sort::Directive(Directive::Jumps),
    Sort::Directive(Directive::Lead),
    Sort::Unit,
];

/// The name of a statement that is no instruction.
pub fn sort_text(sort: Sort) -> &'static str
    ensures { result.now ≡ sort_text sort }
{
    match sort {
        Sort::Header(Header::Raw) => ".raw",
        Sort::Header(Header::Standard) => ".standard",
        Sort::Header(Header::Code) => ".code",
        Sort::Directive(Directive::Meta) => ".meta",
        Sort::Directive(Directive::Ro) => ".ro",
        Sort::Directive(Directive::Rw) => ".rw",
        Sort::Directive(Directive::Heap) => ".heap",
        Sort::Directive(Directive::Stack) => ".stack",
        Sort::Directive(Directive::Width) => ".width",
        Sort::Directive(Directive::Jump) => ".jump",
        Sort::Directive(Directive::Jumps) => ".jumps",
        Sort::Directive(Directive::Lead) => ".lead",
        Sort::Unit => ".unit",
    }
}

fn is_named(sort: Sort, name: &[u8]) -> bool
    ensures { result ≡ bytes_eq (sort_text sort) name.now }
{
    sort_text(sort).as_bytes() == name
}

/// The statement of a name, where it is no instruction.
#[tactic(auto, unfolding(crate::specs::Statements::sort_named))]
pub fn sort_named(name: &[u8]) -> Option<Sort>
    ensures { result ≡ sort_named name.now }
{
    ALL.iter().copied().find(|sort| is_named(*sort, name))
}
