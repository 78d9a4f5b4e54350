// When a connection without a first packet is ended.

ghost use Rattle.std.specs.Prelude.{◌≡◌};
ghost use Rattle.node.specs.Overdue.{is_overdue};

use world_base::node_connections::Standing;

/// How long the first packet of a connection may take, in milliseconds.
const FIRST_PACKET_MILLIS: u64 = 10_000;

/// Returns true if the connection's first packet is still not whole more than `FIRST_PACKET_MILLIS`
/// after `opened`.
pub fn is_overdue(standing: Standing, opened: u64, now: u64) -> bool
    ensures { result ≡ is_overdue standing opened now }
{
    standing == Standing::Awaits && now.saturating_sub(opened) > FIRST_PACKET_MILLIS
}
