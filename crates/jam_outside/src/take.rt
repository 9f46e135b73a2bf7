// What takes the bytes of a file as they come.
ghost use Rattle.std.specs.Prelude.{◌≡◌, ◌+◌, ◌≤◌, ◌^◌, List, ℕ, ◌++◌, length, OnOk};

use std::alloc::AllocError;

/// Takes bytes in pieces: all of them into memory, or into what is computed of them.
pub trait Take {
    /// The bytes that it took are these.
    ghost Took: { Self → List ℕ → Type 0 };

    /// Takes further bytes.
    ///
    /// # Errors
    ///
    /// Want of memory. What it took is not known then.
    fn take(&mut self, piece: &[u8]) -> Result<(), AllocError>
        requires { (bytes : List ℕ) × Took self.old bytes × (length bytes + length piece.now ≤ 2 ^ 63) }
        ensures { OnOk result ((bytes : List ℕ) → Took self.old bytes → Took self.new (bytes ++ piece.now)) };
}

impl Take for Vec<u8> {
    ghost Took = { λ v bytes. v.items ≡ bytes };

    fn take(&mut self, piece: &[u8]) -> Result<(), AllocError> {
        self.extend_from_slice(piece)
    }
}
