// What holds of listings.
ghost use Rattle.std.specs.Prelude.{◌≡◌, ℕ, List, Ok};
ghost use Rattle.byte_numbers.specs.Numbers.{AreBytes};
ghost use Rattle.jam_codec.specs.Format.{Spells};
ghost use Rattle.blob_decode.specs.Program.{Program, program_blob};
ghost use Rattle.pvm_asm.specs.Assembly.{assembly};
ghost use Rattle.pvm_disasm.specs.Listing.{listing};

use pvm_asm::size_law;

/// The listing of a program is assembled to the bytes that spell it, however long they are.
pub fn listing_law()
    ensures { (p : Program) (bytes : List ℕ) → AreBytes bytes → Spells program_blob p bytes → assembly (listing p) ≡ Ok bytes }
{
    size_law();
}
