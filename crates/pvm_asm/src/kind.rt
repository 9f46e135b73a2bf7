// Why a line is refused.
ghost use Rattle.std.specs.Prelude.{◌≡◌};
ghost use Rattle.pvm_asm.specs.Kind.{kind_text};

/// Why a line of a text is refused.
#[derive(Clone, Copy, Debug, PartialEq, Eq)]
pub enum AsmKind {
    /// The first statement is no header.
    MissingHeader,
    /// A name that nothing has.
    UnknownName,
    /// A directive that may not stand there.
    Misplaced,
    /// Other operands than the statement takes.
    BadOperands,
    /// A number, an offset, an entry or a length that does not fit.
    OutOfRange,
    /// A label that an earlier line has.
    DoubleLabel,
    /// A label that no line has.
    UnknownLabel,
}

/// The words for a kind.
pub fn kind_text(kind: AsmKind) -> &'static str
    ensures { result.now ≡ kind_text kind }
{
    match kind {
        AsmKind::MissingHeader => "missing header",
        AsmKind::UnknownName => "unknown name",
        AsmKind::Misplaced => "misplaced directive",
        AsmKind::BadOperands => "bad operands",
        AsmKind::OutOfRange => "out of range",
        AsmKind::DoubleLabel => "label defined twice",
        AsmKind::UnknownLabel => "unknown label",
    }
}
