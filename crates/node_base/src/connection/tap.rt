// The right to take the bytes of one connection.

/// The right to take the bytes of one connection. It cannot be copied, and its state tells one call
/// from the next. No clause says that its holder is the only one who takes these bytes.
pub trait Tap: Drop {
    ghost use Rattle.std.specs.Prelude.{List, ℕ};
    ghost use Rattle.world_base.specs.declared.node_connections.handed.Handed.{Handed};

    // Nothing was handed over by it yet.
    ghost opens: { Self → Type 0 };

    // The state before a call, the bytes handed over with the answer, and the state after it.
    ghost hands: { Self → List ℕ → Handed → Self → Type 0 };
}
