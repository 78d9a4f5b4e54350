// One connection of a node.

ghost use Rattle.std.specs.Prelude.{◌≡◌, ◌++◌, [], false, true, IsOk, OnOk, OnErr};
ghost use Rattle.world_base.specs.node_connections.Connections.{fresh, has_failed, is_at, awaits_first_packet, is_listed, is_open_at, is_open_named, is_closed, is_proposed, is_silent};
ghost use Rattle.world_base.specs.node_connections.ConnectionChanges.{noted_proposed, closed_connection, failing, with_queued, nothing_pending, with_unread, putting};
ghost use Rattle.world_base.specs.node_connections.PendingOutput.{handed_after, is_idle};
ghost use Rattle.world_base.specs.node_connections.Fronts.{TakesFront};
ghost use Rattle.world_base.specs.node_connections.Stands.{standing_of};
ghost use Rattle.packet.specs.Spelling.{spelling};
ghost use Rattle.world_base.specs.node_connections.Refusals.{connect_refused};

use crate::node_connections::front::Front;
use crate::node_connections::handed::Handed;
use crate::node_connections::piece::Piece;
use crate::node_connections::port::Port;
use crate::node_connections::standing::Standing;
use crate::node_connections::unread::Unread;
use broker_spec::ConnectionName;
use machine::Memory;
use packet::{Connack, Packet};
use packet_base::RefusalCode;
use std::alloc::Global;

/// The most pending output of one connection, in bytes: twice what a client can be sent again, 64
/// entries of a window with packets of 1 MiB.
const MAX_PENDING: usize = 134_217_728;

/// The stage of a connection.
#[derive(Clone, Copy, Debug, PartialEq, Eq)]
pub enum ConnectionStage {
    /// The first packet is awaited.
    Awaits,
    /// The CONNECT was proposed, or is about to be.
    Proposed,
    /// The connection is closed.
    Closed,
    /// It is closed as lost, and the loss is not yet reported to the broker.
    Failed,
}

impl ConnectionStage {
    /// Returns true if the first packet is awaited.
    pub fn awaits_first_packet(self) -> bool
        ensures { result ≡ awaits_first_packet self }
    {
        self == ConnectionStage::Awaits
    }

    /// Returns true if the connection is open and its CONNECT was proposed or is about to be.
    pub fn is_proposed(self) -> bool
        ensures { result ≡ is_proposed self }
    {
        self == ConnectionStage::Proposed
    }
}

/// A connection of a node. It stays listed until all of its pending output was handed over.
#[derive(Drop)]
pub struct Connection {
    /// Its number at the node.
    pub port: Port,
    /// The name by which the broker knows it.
    pub name: ConnectionName,
    /// The stage that it has reached.
    pub stage: ConnectionStage,
    /// The keep alive of its CONNECT, in seconds; 0 for no limit (MQTT 3.1.2.10).
    pub keep_alive: u16,
    /// The time of its last whole packet, in milliseconds; 0 before the first.
    pub last_packet: u64,
    /// The bytes that arrived and are not yet read.
    pub unread: Unread,
    /// The output that is not yet handed over.
    pub pending: Piece,
}

impl Connection {
    /// Returns a connection that was just opened.
    pub fn new(alloc: Global, port: Port, name: ConnectionName) -> Connection
        ensures { result ≡ fresh port name }
    {
        Connection {
            port,
            name,
            stage: ConnectionStage::Awaits,
            keep_alive: 0,
            last_packet: 0,
            unread: Unread::new(alloc),
            pending: Piece::new(alloc),
        }
    }

    /// Returns true if it is of this port.
    pub fn is_at(&self, port: Port) -> bool
        ensures { result ≡ is_at port self.now }
    {
        self.port.0 == port.0
    }

    /// Returns true if this is the open connection of the port.
    pub fn is_open_at(&self, port: Port) -> bool
        ensures { result ≡ is_open_at port self.now }
    {
        !self.is_closed() && self.port.0 == port.0
    }

    /// Returns true if this is the open connection of the name.
    pub fn is_open_named(&self, name: ConnectionName) -> bool
        ensures { result ≡ is_open_named name self.now }
    {
        !self.is_closed() && self.name == name
    }

    /// Returns true if it is closed.
    pub fn is_closed(&self) -> bool
        ensures { result ≡ is_closed self.now.stage }
    {
        matches!(
            self.stage,
            ConnectionStage::Closed | ConnectionStage::Failed
        )
    }

    /// Returns true if it is closed as lost and the loss is not yet reported to the broker.
    pub fn has_failed(&self) -> bool
        ensures { result ≡ has_failed self.now }
    {
        self.stage == ConnectionStage::Failed
    }

    /// Returns true if its first packet is awaited.
    pub fn awaits_first_packet(&self) -> bool
        ensures { result ≡ awaits_first_packet self.now.stage }
    {
        self.stage.awaits_first_packet()
    }

    /// Returns true if it is open, and its CONNECT was proposed or is about to be.
    pub fn is_proposed(&self) -> bool
        ensures { result ≡ is_proposed self.now.stage }
    {
        self.stage.is_proposed()
    }

    /// Returns true if it is open and no whole packet arrived for more than one and a half times
    /// its keep alive (MQTT 3.1.2.10).
    pub fn is_silent(&self, now: u64) -> bool
        ensures { result ≡ is_silent now self.now }
    {
        let allowed = 1_500 * u64::from(self.keep_alive);
        !self.is_closed() && self.keep_alive > 0 && now.saturating_sub(self.last_packet) > allowed
    }

    /// Returns true if it is open or has pending output.
    pub fn is_listed(&self) -> bool
        ensures { result ≡ is_listed self.now }
    {
        !self.is_closed() || !self.pending.is_empty()
    }

    /// Returns true if it is open and has no pending output.
    pub fn is_idle(&self) -> bool
        ensures { result ≡ is_idle self.now }
    {
        !self.is_closed() && self.pending.is_empty()
    }

    /// Returns [`Handed::Open`] while more output may be queued.
    pub fn handed(&self) -> Handed
        ensures { result ≡ handed_after (Some self.now) }
    {
        if self.is_closed() {
            Handed::Closed
        } else {
            Handed::Open
        }
    }

    /// Returns its state for the code that serves its stream.
    pub fn standing(&self) -> Standing
        ensures { result ≡ standing_of (Some self.now) }
    {
        match self.stage {
            ConnectionStage::Awaits => Standing::Awaits,
            ConnectionStage::Proposed => Standing::Proposed,
            ConnectionStage::Closed | ConnectionStage::Failed => Standing::Closed,
        }
    }

    /// Appends bytes that arrived. If memory runs out, nothing changes.
    pub fn hold(&mut self, piece: &Piece) -> Result<(), Memory>
        ensures ok { OnOk result (self.new ≡ with_unread piece.now self.old) }
        ensures err { OnErr result (self.new ≡ self.old) }
    {
        self.unread.hold(piece)
    }

    /// Reads the next packet; `now` is the time. Bytes that are no packet close the connection; a
    /// first CONNECT that is refused with a code is answered first. Memory runs out only for that
    /// answer, and for a packet with a text or a list.
    pub fn next(&mut self, now: u64) -> Front
        ensures { TakesFront now self.old result self.new }
    {
        let front = self.unread.next();
        match front {
            Front::More => {}
            Front::Packet(_) => self.last_packet = now,
            Front::Refused(code) => {
                if !self.awaits_first_packet() {
                    self.close();
                } else if !self.refuse(code) {
                    return Front::OutOfMemory;
                }
            }
            Front::Fault | Front::OutOfMemory => self.close(),
        }
        front
    }

    /// Records that its CONNECT, with this keep alive, is proposed.
    pub fn note_proposed(&mut self, keep_alive: u16)
        ensures { self.new ≡ noted_proposed keep_alive self.old }
    {
        self.stage = ConnectionStage::Proposed;
        self.keep_alive = keep_alive;
    }

    /// Queues a packet and returns true. Returns false, with nothing changed, if the packet has no
    /// encoding or memory runs out.
    pub fn put(&mut self, packet: &Packet) -> bool
        ensures whole { result ≡ true → self.new ≡ putting (spelling packet.now) self.old }
        ensures same { result ≡ false → self.new ≡ self.old }
    {
        self.pending.put(packet)
    }

    /// Refuses its CONNECT with a code and closes it. Returns false if memory ran out for the
    /// answer; it is closed all the same.
    pub fn refuse(&mut self, code: RefusalCode) -> bool
        ensures whole { result ≡ true → self.new ≡ connect_refused code self.old }
        ensures lost { result ≡ false → self.new ≡ closed_connection self.old }
    {
        let put = self.put(&Packet::Connack(Connack::Refused(code)));
        self.close();
        put
    }

    /// Queues a packet, or closes the connection as lost if `MAX_PENDING` would be exceeded or the
    /// packet cannot be encoded: memory ran out, or it has an empty list or exceeds the size limit.
    /// Returns true if it could be encoded.
    pub fn put_or_fail(&mut self, packet: &Packet) -> bool
        ensures whole { result ≡ true → self.new ≡ with_queued (spelling packet.now) self.old }
        ensures lost { result ≡ false → self.new ≡ failing self.old }
    {
        match self.pending.put_within(packet, MAX_PENDING) {
            Ok(true) => true,
            Ok(false) => {
                self.fail();
                true
            }
            Err(_) => {
                self.fail();
                false
            }
        }
    }

    /// Closes it as lost. The loss is to be reported to the broker if its CONNECT was proposed.
    pub fn fail(&mut self)
        ensures { self.new ≡ failing self.old }
    {
        let proposed = self.is_proposed();
        self.close();
        if proposed {
            self.stage = ConnectionStage::Failed;
        }
    }

    /// Moves the pending output to the end of `out`. If `out` is empty no byte is copied, which no
    /// clause says. If memory runs out, nothing changes; without pending output it never does.
    pub fn outgoing(&mut self, out: &mut Vec<u8>) -> Result<(), Memory>
        ensures bytes { OnOk result (out.new.items ≡ out.old.items ++ self.old.pending) }
        ensures ok { OnOk result (self.new ≡ nothing_pending self.old) }
        ensures nothing { self.old.pending ≡ [] → IsOk result }
        ensures err { OnErr result (out.new.items ≡ out.old.items) }
        ensures same { OnErr result (self.new ≡ self.old) }
    {
        self.pending.move_to(out)
    }

    /// Closes it. Pending output is still handed over.
    pub fn close(&mut self)
        ensures { self.new ≡ closed_connection self.old }
    {
        self.stage = ConnectionStage::Closed;
        self.keep_alive = 0;
        self.last_packet = 0;
        self.unread.clear();
    }
}
