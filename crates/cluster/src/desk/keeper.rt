// Where a desk keeps its state.

ghost use Rattle.std.specs.Prelude.{◌≡◌, [], ◌∷◌, OnErr, OnOk, is_ok};
ghost use Rattle.cluster.specs.desk.Keeping.{AreAmong};

use crate::desk::error::NotKept;

/// Keeps the state of a master over its restarts, as a file does that is replaced as a whole and
/// flushed to the disk.
pub trait Keeper: Drop {
    ghost use Rattle.std.specs.Prelude.{List, ℕ, Bool};

    // A call of `keep`: the keeper before it, the bytes, whether they were kept, the keeper after
    // it.
    ghost keeps: { Self → List ℕ → Bool → Self → Type 0 };

    // The lists of bytes of which a restart reads one.
    ghost stands: { Self → List (List ℕ) };

    /// Keeps these bytes in place of all others. After an error either these or what stood before
    /// may be read.
    fn keep(&mut self, bytes: &[u8]) -> Result<(), NotKept>
        ensures asked { keeps self.old bytes.now (is_ok result) self.new }
        ensures ok { OnOk result (stands self.new ≡ bytes.now ∷ []) }
        ensures err { OnErr result (AreAmong (stands self.new) (bytes.now ∷ stands self.old)) };
}
