// A worked example of a limit.

ghost use Rattle.std.specs.Prelude.{◌≡◌};
ghost use Rattle.post.specs.outbox.WaitingItems.{max_waiting};

/// Shows how many messages of other nodes may wait for a node: 524,288.
pub fn numbers_of_an_outbox()
    ensures { max_waiting ≡ 524288 }
{}
