// The bytes written on a connection, from the first on.
//
// Tap, unwritten bytes and device are one value and nothing else holds any of them. So its
// invariant covers the whole stream: all that was handed over by the tap is what was written,
// followed by what is left. The value may be kept anywhere between two writes, also under a lock.

ghost use Rattle.std.specs.Prelude.{◌≡◌, []};
ghost use Rattle.std.specs.Io.KnownBytes.{IsAtEnd};
ghost use Rattle.node_base.specs.connection.Whole.{IsWhole};
ghost use Rattle.node_base.specs.connection.Written.{Flows, faults_flowed};

use crate::connection::flow::{Flow, write_out};
use crate::connection::outlet::Outlet;
use crate::connection::tap::Tap;
use crate::connection::unwritten::Unwritten;
use crate::devices::Counted;
use std::alloc::Global;
use std::io::Write;
use std::marker::Model;
use std::sync::Wait;

/// The writing side of a connection: its tap, the device, and the bytes that the device has not yet
/// taken.
#[derive(Drop)]
pub struct Outflow<T: Tap, W: Write> {
    tap: T,
    // Bytes that were handed over by the tap and are not yet written.
    left: Unwritten,
    // The device, with the count of its failed calls.
    device: Counted<W>,
}

impl<T: Tap, W: Write> Model for Outflow<T, W> {
    ghost use Rattle.node_base.specs.connection.Whole.{OutflowView, IsWhole};

    ghost Value = { OutflowView T W };

    ghost view = { λ flow. record { tap = flow.tap; left = flow.left; device = flow.device } };

    ghost invariant = { λ flow.
        IsWhole T.opens T.hands flow.tap (W.contents flow.device.device) flow.left };
}

impl<T: Tap, W: Write> Outflow<T, W> {
    /// Returns a stream on which nothing was written, with a tap by which nothing was handed over.
    pub fn new(alloc: Global, tap: T, device: W) -> Outflow<T, W>
        requires opens { T.opens tap }
        requires empty { IsAtEnd (W.contents device) }
        ensures { result ≡ record {
          tap = tap;
          left = [];
          device = record { device = device; faults = 0 };
        } }
    {
        let left = Unwritten::new(alloc);
        let device = Counted::new(device);
        Outflow { tap, left, device }
    }

    /// Returns the tap.
    pub fn tap(&self) -> &T
        ensures { result.now ≡ self.now.tap }
    {
        &self.tap
    }

    /// Writes what was left before, then what the outlet hands over now, as [`write_out`].
    pub fn write<R: Wait, O: Outlet<T>>(&mut self, rt: &R, outlet: &mut O) -> Flow
        ensures flows { Flows T.hands result self.old.tap self.new.tap
            (W.contents self.old.device.device) (W.contents self.new.device.device)
            self.old.left self.new.left }

        // All that was handed over since the stream began is what was written, followed by what is
        // left.
        ensures whole { IsWhole T.opens T.hands
            self.new.tap (W.contents self.new.device.device) self.new.left }

        // Ends as `Fault` exactly if one more call of the device failed.
        ensures faults { self.new.device.faults ≡ faults_flowed result self.old.device.faults }
    {
        write_out(rt, &mut self.left, &mut self.tap, outlet, &mut self.device)
    }
}
