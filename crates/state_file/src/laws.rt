// What holds of the file of a state.
ghost use Rattle.jam_codec.specs.Laws.{IsFormat, HasOneSpelling, HasNoPrefix};
ghost use Rattle.state_file.specs.StateFile.{state_format};

/// A state has one spelling and bytes spell one state, no spelling begins another, and where bytes
/// spell no state the place of the refusal is the end of the longest run of whole fields.
pub fn state_laws()
    ensures format { IsFormat state_format }
    ensures one { HasOneSpelling state_format }
    ensures apart { HasNoPrefix state_format }
{}
