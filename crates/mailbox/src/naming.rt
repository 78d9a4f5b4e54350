// Which inbox a number names.

use std::marker::Brand;

/// Which inbox each number names. This is chosen before the first inbox of a run is named. In a
/// function that is generic in a `Naming`, equal numbers prove that a lane and a receiver belong to
/// one inbox, even if they were under a lock. The caller of the function passes [`Brand`], and
/// chooses the inboxes that it made.
pub trait Naming {
    ghost use Rattle.std.specs.Prelude.{ℕ};
    ghost use Rattle.atomic_table.specs.Seated.{TableId};

    ghost inbox_of: { ℕ → TableId };
}

impl Naming for Brand {
    ghost use Rattle.mailbox.specs.Naming.{no_inbox};

    ghost inbox_of = { λ _. no_inbox };
}
