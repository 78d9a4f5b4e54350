// The right to write on a connection's stream.

ghost use Rattle.std.specs.Prelude.{◌≡◌, None};
ghost use Rattle.node_base.specs.connection.Written.{Flows};
ghost use Rattle.streams.specs.Taps.{HandsOut};

use crate::port_tap::PortTap;
use crate::socket::Socket;
use node_base::connection::{Flow, Outflow, Outlet};
use run_history::RunNaming;
use std::marker::Model;
use std::sync::Wait;

/// What a token writes with: the tap of the connection's port, its socket, and what a full socket
/// has not yet taken.
pub(crate) type Stream<H> = Outflow<PortTap<H>, Socket>;

/// The right to write on a connection's stream. A connection has one, made with it: so one thread
/// at a time writes, and the stream is whole wherever the token is kept. It cannot be dropped: its
/// holder puts it back, makes a `BlockedLink` of it, or ends the stream.
pub struct WriteToken<H: RunNaming> {
    stream: Stream<H>,
}

impl<H: RunNaming> Model for WriteToken<H> {
    ghost use Rattle.node_base.specs.connection.Whole.{OutflowView};
    ghost use Rattle.streams.specs.Taps.{TapView};
    ghost use Rattle.streams.specs.declared.socket.Socket.{Socket};

    ghost Value = { OutflowView TapView Socket };

    ghost view = { λ token. token.stream };
}

impl<H: RunNaming> WriteToken<H> {
    ghost use Rattle.streams.specs.WriteTokens.{HasWholeStream};

    pub(crate) fn new(stream: Stream<H>) -> WriteToken<H>
        ensures { result ≡ stream }
    {
        WriteToken { stream }
    }

    /// Returns its stream, to be kept or ended.
    pub(crate) fn into_stream(self) -> Stream<H>
        ensures { result ≡ self }
    {
        let WriteToken { stream } = self;
        stream
    }

    /// Writes what was left before, then what the outlet hands over now, as [`Outflow::write`].
    pub fn write<R: Wait, O: Outlet<PortTap<H>>>(&mut self, rt: &R, outlet: &mut O) -> Flow
        ensures flows { Flows (HandsOut H.linked H.nodes H.config) result
            self.old.tap self.new.tap None None self.old.left self.new.left }
        ensures whole { HasWholeStream H.linked H.nodes H.config self.new }
    {
        self.stream.write(rt, outlet)
    }
}
