// The ports of connections, from which their lanes can be told.

ghost use Rattle.std.specs.Prelude.{◌≡◌, ◌<◌, ◌^◌};
ghost use Rattle.streams.specs.Ports.{port_of};

use world_base::node_connections::Port;

/// The ports of a lane's connections are this far apart. Each lane's number is below it, so no two
/// lanes have a port in common. It is a multiple of 64, so [`IdleLanes`] tells lanes below 64 apart
/// by their ports.
///
/// [`IdleLanes`]: crate::IdleLanes
const PORTS_APART: u64 = 256;

/// Returns the port of a lane's connection number `count`, from 0.
pub fn port_of(lane: u8, count: u64) -> Port
    requires { count < 2 ^ 56 }
    ensures { result ≡ port_of lane count }
{
    Port(PORTS_APART * count + u64::from(lane))
}
