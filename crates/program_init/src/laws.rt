// What holds of the bytes of standard programs.
ghost use Rattle.jam_codec.specs.Laws.{IsFormat, HasOneSpelling, HasNoPrefix};
ghost use Rattle.program_init.specs.Standard.{standard_program};

/// Standard programs are a format:
/// - a standard program has one spelling, and bytes spell one;
/// - no such bytes begin others;
/// - what is spelled is read again and what is read is spelled so, and where bytes are none, the place of the refusal is the
///   end of the longest run of whole fields, of which the code is one.
pub fn standard_laws()
    ensures one_value { HasOneSpelling standard_program }
    ensures no_prefix { HasNoPrefix standard_program }
    ensures place { IsFormat standard_program }
{}
