// Writing what is queued for a connection.
//
// Bytes are taken from the outlet only once all that was taken before is written. So a slow device
// holds back at most one batch, and the rest waits at the node, where its size is bounded.

ghost use Rattle.std.specs.Prelude.{◌≡◌};
ghost use Rattle.node_base.specs.connection.Written.{Flows, faults_flowed};

use crate::connection::left_write::LeftWrite;
use crate::connection::outlet::Outlet;
use crate::connection::tap::Tap;
use crate::connection::unwritten::Unwritten;
use crate::devices::Counted;
use std::io::Write;
use std::sync::Wait;
use world_base::node_connections::Handed;

/// How [`write_out`] ended.
#[derive(Clone, Copy, Debug, PartialEq, Eq)]
pub enum Flow {
    /// All was written; more may be queued later.
    Open,
    /// All was written, and nothing more will be queued.
    Closed,
    /// The device was full, and bytes are left.
    Blocked,
    /// The device takes no more although no call failed; or memory ran out.
    Stopped,
    /// A call of the device failed.
    Fault,
}

/// Writes what was left before, then what the outlet hands over for the tap, as far as the device
/// takes it. Nothing is taken from the outlet while bytes are left. Bytes that are not written are
/// kept, in order.
pub fn write_out<R: Wait, T: Tap, O: Outlet<T>, W: Write>(
    rt: &R,
    left: &mut Unwritten,
    tap: &mut T,
    outlet: &mut O,
    device: &mut Counted<W>,
) -> Flow
    ensures flows { Flows T.hands result tap.old tap.new
        (W.contents device.old.device) (W.contents device.new.device) left.old left.new }

    // Ends as `Fault` exactly if one more call of the device failed.
    ensures faults { device.new.faults ≡ faults_flowed result device.old.faults }
{
    match left.write(device) {
        LeftWrite::Whole => {}
        LeftWrite::Full => return Flow::Blocked,
        LeftWrite::Stopped => return Flow::Stopped,
        LeftWrite::Fault => return Flow::Fault,
    }
    let Ok(handed) = left.take_from(rt, tap, outlet) else {
        return Flow::Stopped;
    };
    match left.write(device) {
        LeftWrite::Whole => match handed {
            Handed::Open => Flow::Open,
            Handed::Closed => Flow::Closed,
        },
        LeftWrite::Full => Flow::Blocked,
        LeftWrite::Stopped => Flow::Stopped,
        LeftWrite::Fault => Flow::Fault,
    }
}
