// The lanes whose connections have nothing to hand over.

ghost use Rattle.std.specs.Prelude.{◌≡◌, ◌%◌, ◌^◌, ◌||◌};
ghost use Rattle.std.specs.List.{list_any};
ghost use Rattle.world_base.specs.declared.node_connections.port.Port.{Port};

use world_base::node_connections::Port;

/// Lanes whose connections are idle, a bit each. A lane has one connection at a time, and its
/// number is below 64.
#[derive(Clone, Copy)]
pub struct IdleLanes(pub u64);

impl IdleLanes {
    ghost use Rattle.streams.specs.ListedConnections.{is_lane_idle};
    ghost use Rattle.streams.specs.Ports.{is_of_lane};

    /// Returns the lanes of these ports, and no others.
    pub fn of(ports: &[Port]) -> IdleLanes
        ensures { (port : Port) → is_lane_idle result port ≡ list_any (is_of_lane port) ports.now }
    {
        let mut lanes = IdleLanes(0);
        for port in ports {
            lanes = lanes.add(*port);
        }
        lanes
    }

    fn add(self, port: Port) -> IdleLanes
        ensures { (other : Port) →
            is_lane_idle result other ≡ (is_lane_idle self other || is_of_lane other port) }
    {
        IdleLanes(self.0 | bit(port))
    }

    /// Returns true if the lane of a port is among them.
    pub fn has(self, port: Port) -> bool
        ensures { result ≡ is_lane_idle self port }
    {
        self.0 & bit(port) != 0
    }
}

fn bit(port: Port) -> u64
    ensures { result ≡ 2 ^ (port.0 % 64) }
{
    1u64 << (port.0 % 64)
}
