// A worked example of a limit.

ghost use Rattle.std.specs.Prelude.{◌≡◌};
ghost use Rattle.world_base.specs.node_connections.ConnectionChanges.{max_pending};

/// Shows how many bytes may wait for one connection: 128 MiB.
pub fn numbers_of_a_connection()
    ensures { max_pending ≡ 134217728 }
{}
