// What holds of the files of batches.
ghost use Rattle.std.specs.Prelude.{◌<◌, ◌≡◌, ◌++◌, ℕ, List, length, None, IsSome};
ghost use Rattle.jam_codec.specs.Format.{Spells};
ghost use Rattle.jam_codec.specs.Laws.{IsFileFormat, HasOneSpelling, HasOnePrefix};
ghost use Rattle.batch_file.specs.declared.batch.Batch.{Batch};
ghost use Rattle.batch_file.specs.BatchFile.{batch_format};

/// The files of batches are a format of whole files:
/// - a batch has one spelling, and bytes spell one batch;
/// - no file begins another, but that a batch without a schedule begins the same batch with one;
/// - what is spelled is read again and what is read is spelled so, and where bytes spell no batch,
///   the place of the refusal is the end of the longest run of whole fields.
pub fn batch_laws()
    ensures one_value { HasOneSpelling batch_format }
    ensures no_prefix { HasOnePrefix batch_format (λ batch. record batch { schedule = None }) }
    ensures one_prefix { (batch : Batch) (bytes : List ℕ) → Spells batch_format batch bytes → IsSome batch.schedule
        → (front more : List ℕ) × Spells batch_format (record batch { schedule = None }) front × (bytes ≡ front ++ more) × (0 < length more) }
    ensures format { IsFileFormat batch_format }
{}
