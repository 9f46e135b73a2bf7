// Values that files are made of.
ghost use Rattle.std.specs.Prelude.{◌≡◌, ◌++◌, OnOk, OnErr};
ghost use Rattle.std.specs.Io.{StartsWith};
ghost use Rattle.jam_codec.specs.Format.{Format};
ghost use Rattle.jam_codec.specs.Laws.{IsFormat};
ghost use Rattle.jam_codec.specs.Reading.{Reads};
ghost use Rattle.jam_codec.specs.Refusal.{place_of};

use jam_codec::{Cursor, FileRefusal};
use std::alloc::{AllocError, Global};

/// A value that has a format of its own, whatever stands before it.
pub trait Field: Drop {
    ghost format: { Format Self };

    /// The value at the cursor, which stands after it then.
    ///
    /// # Errors
    /// `Malformed` at the first field that does not spell; `NoMemory`. The cursor stays where it
    /// was then.
    fn read(alloc: Global, cursor: &mut Cursor<'_>) -> Result<Self, FileRefusal>
        ensures exact { Reads place_of (λ x. x) result cursor.new (format.read cursor.old) }
        ensures err { OnErr result (cursor.new ≡ cursor.old) };

    ghost is_format: { IsFormat format };
}

/// A field that is written too.
pub trait Spell: Field {
    /// Adds the spelling of the value.
    ///
    /// # Errors
    /// Want of memory; then a part may stand behind the bytes that were there.
    fn write(&self, out: &mut Vec<u8>) -> Result<(), AllocError>
        ensures ok { OnOk result (out.new.items ≡ out.old.items ++ Self.format.spell self.now) }
        ensures fits { OnOk result (Self.format.Fits self.now) }
        ensures kept { OnErr result (StartsWith out.new.items out.old.items) };
}
