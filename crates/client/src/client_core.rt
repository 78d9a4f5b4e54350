// The keeper: a client that keeps its side of the handshakes.
//
// A `ClientCore` has no socket, clock or thread: calls and the server's bytes come in, bytes to the
// server and accepted publications go out, and the caller moves them. The fields up to `accepted`
// are the `ClientState` of client_base, and each call is one of its steps; `cutter` and `out` hold
// the bytes in either direction. A publication at QoS 1 or 2 enters `queued` or, if the client is
// online, `sent`, moves to `released` at PUBREC, and is then done. After a CONNACK 0 all three
// lists are sent: `released` in the order of the PUBRECs, then `sent` and `queued` in the order of
// the calls. Publications and requests take their identifiers from one pool, so none is used twice.
// An identifier enters `received` together with its publication in `accepted`, with memory
// allocated for both first: this makes the delivery exactly once. Memory runs out only in a call
// that is not refused and writes, queues or accepts something. It has then changed nothing; only
// `on_bytes` loses the connection. Bytes that are no packet are dropped as soon as they are found,
// so the cutter never holds a stream with a fault.

ghost use Rattle.std.specs.Prelude.{◌≡◌};
ghost use Rattle.client.specs.Core.{new_core, gone};

use client_base::{Accepted, Request, Stage, UnacknowledgedPublication};
use cutter::Cutter;
use packet_base::{ClientId, PacketId};
use std::alloc::Global;
use std::marker::Model;

/// A client that keeps its side of the handshakes across connections (MQTT 4.3, 4.4). Its sessions
/// are never clean. `outgoing` returns the bytes to the server, `on_bytes` takes those from the
/// server.
pub struct ClientCore {
    /// The client's identifier. The fields up to `accepted` are those of `ClientState`
    /// (client_base, `specs/State.antt`).
    pub(crate) client: ClientId,
    /// Keep Alive, in seconds; 0 means none (MQTT 3.1.2.10).
    pub(crate) keep_alive: u16,
    /// The identifiers of released publications (their PUBREC came), in the order of release.
    pub(crate) released: Vec<PacketId>,
    /// The publications that were sent and are unacknowledged, in the order of their calls.
    pub(crate) sent: Vec<UnacknowledgedPublication>,
    /// The publications that were not sent yet, in the order of their calls.
    pub(crate) queued: Vec<UnacknowledgedPublication>,
    /// The identifiers of accepted QoS 2 publications whose PUBREL has not come.
    pub(crate) received: Vec<PacketId>,
    /// The requests without an acknowledgement. They end with the connection.
    pub(crate) requests: Vec<Request>,
    pub(crate) stage: Stage,
    /// The number of the session, up to 2^64 - 1; 0 before the first CONNACK 0.
    pub(crate) session: u64,
    /// Session Present of the last CONNACK 0 (MQTT 3.2.2.2).
    pub(crate) session_present: bool,
    /// The publications that were accepted and not yet taken by the caller.
    pub(crate) accepted: Vec<Accepted>,
    /// The bytes from the server that were not read yet.
    pub(crate) cutter: Cutter,
    /// The bytes to the server that were not yet taken by the caller.
    pub(crate) out: Vec<u8>,
    pub(crate) alloc: Global,
}

impl Drop for ClientCore {
    fn drop(self) {
        let ClientCore {
            client: _client,
            keep_alive: _,
            released: _released,
            sent: _sent,
            queued: _queued,
            received: _received,
            requests: _requests,
            stage: _stage,
            session: _,
            session_present: _,
            accepted: _accepted,
            cutter: _cutter,
            out: _out,
            alloc: _,
        } = self;
    }
}

impl Model for ClientCore {
    ghost use Rattle.std.specs.Prelude.{◌≡◌, false};
    ghost use Rattle.client.specs.Core.{Core};

    ghost Value = { Core };

    ghost view = { λ core. record {
      state = record {
        client = core.client;
        keep_alive = core.keep_alive;
        released = core.released.items;
        sent = core.sent.items;
        queued = core.queued.items;
        received = core.received.items;
        requests = core.requests.items;
        stage = core.stage;
        session = core.session;
        session_present = core.session_present;
        accepted = core.accepted.items;
      };
      unread = core.cutter;
      out = core.out.items;
    } };

    ghost invariant = { λ core. core.cutter.failed ≡ false };
}

impl ClientCore {
    /// Returns a client that was never connected. The server closes a connection after one and a
    /// half times the keep alive, in seconds, without a packet; 0 means never. No call sends
    /// PINGREQ: a caller that may send nothing for longer than the keep alive passes 0
    /// (MQTT-3.1.2-23).
    pub fn new(alloc: Global, client: ClientId, keep_alive: u16) -> ClientCore
        ensures { result ≡ new_core client keep_alive }
    {
        ClientCore {
            client,
            keep_alive,
            released: Vec::new(alloc),
            sent: Vec::new(alloc),
            queued: Vec::new(alloc),
            received: Vec::new(alloc),
            requests: Vec::new(alloc),
            stage: Stage::Closed,
            session: 0,
            session_present: false,
            accepted: Vec::new(alloc),
            cutter: Cutter::new(alloc),
            out: Vec::new(alloc),
            alloc,
        }
    }

    /// Handles the loss of the connection: drops unacknowledged requests and unread bytes.
    /// Publications stay, and what was written stays until `open`. Takes no memory.
    pub fn lost(&mut self)
        ensures { self.new ≡ gone self.old }
    {
        self.requests.clear();
        self.stage = Stage::Closed;
        self.cutter = Cutter::new(self.alloc);
    }
}
