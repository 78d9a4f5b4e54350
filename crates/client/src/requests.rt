// The requests of a client (MQTT 3.8, 3.10).

ghost use Rattle.std.specs.Prelude.{◌≡◌, [], ◌∷◌, IfOk, OnOk, OnErr, IsErrOf};
ghost use Rattle.packet.specs.Spelling.{AppendsSpelling};
ghost use Rattle.packet.specs.declared.packet.Packet.TheVariants as packets;
ghost use Rattle.client_base.specs.Steps.{Call, keeper_step};
ghost use Rattle.client.specs.Core.{AnswersCall};
ghost use Rattle.client.specs.Inside.Ids.{RequestId};

use crate::client_core::ClientCore;
use crate::output::write;
use client_base::{ClientError, Request, Stage};
use packet::{Packet, Subscribe, Subscription, Unsubscribe};
use packet_base::{PacketId, PacketList, QoS};
use std::alloc::Global;
use topics::Filter;

impl ClientCore {
    /// Subscribes to a filter with this maximum QoS. `NotActive` exactly if the client is offline,
    /// otherwise `WindowFull` if no identifier is free, otherwise `Memory` if memory runs out.
    /// After an error nothing has changed.
    pub fn subscribe(&mut self, filter: Filter, qos: QoS) -> Result<(), ClientError>
        ensures { AnswersCall (keeper_step (Call.Subscribes filter qos) self.old.state)
            self.old result self.new }
    {
        let id = self.request_id()?;
        self.requests.reserve(1)?;
        write_subscribe(self.alloc, id, filter, qos, &mut self.out)?;
        self.requests.push_reserved(Request::Subscribes(id));
        Ok(())
    }

    /// Unsubscribes from a filter, with the errors of `subscribe`.
    pub fn unsubscribe(&mut self, filter: Filter) -> Result<(), ClientError>
        ensures { AnswersCall (keeper_step (Call.Unsubscribes filter) self.old.state)
            self.old result self.new }
    {
        let id = self.request_id()?;
        self.requests.reserve(1)?;
        write_unsubscribe(self.alloc, id, filter, &mut self.out)?;
        self.requests.push_reserved(Request::Unsubscribes(id));
        Ok(())
    }

    /// Returns the identifier of the next request. [`ClientError::NotActive`] unless the client is
    /// online, [`ClientError::WindowFull`] if no identifier is free.
    pub(crate) fn request_id(&self) -> Result<PacketId, ClientError>
        ensures { RequestId self.now.state result }
    {
        if self.stage != Stage::Online {
            return Err(ClientError::NotActive);
        }
        self.free_id().ok_or(ClientError::WindowFull)
    }
}

// Writes SUBSCRIBE with one filter.
fn write_subscribe(
    alloc: Global,
    id: PacketId,
    filter: Filter,
    qos: QoS,
    out: &mut Vec<u8>,
) -> Result<(), ClientError>
    ensures ok { OnOk result (AppendsSpelling out.old.items out.new.items
        (packets.Subscribe
        (record { id = id; filters = record { filter = filter; qos = qos } ∷ [] }))) }
    ensures memory { OnErr result (IsErrOf result ClientError.Memory) }
    ensures err { OnErr result (out.new.items ≡ out.old.items) }
{
    let packet = subscribe_packet(alloc, id, filter, qos)?;
    write(&packet, out)
}

// Writes UNSUBSCRIBE with one filter.
fn write_unsubscribe(
    alloc: Global,
    id: PacketId,
    filter: Filter,
    out: &mut Vec<u8>,
) -> Result<(), ClientError>
    ensures ok { OnOk result (AppendsSpelling out.old.items out.new.items
        (packets.Unsubscribe (record { id = id; filters = filter ∷ [] }))) }
    ensures memory { OnErr result (IsErrOf result ClientError.Memory) }
    ensures err { OnErr result (out.new.items ≡ out.old.items) }
{
    let packet = unsubscribe_packet(alloc, id, filter)?;
    write(&packet, out)
}

// Returns a SUBSCRIBE with one filter.
fn subscribe_packet(
    alloc: Global,
    id: PacketId,
    filter: Filter,
    qos: QoS,
) -> Result<Packet, ClientError>
    ensures ok { IfOk result (λ packet. packet
        ≡ packets.Subscribe
        (record { id = id; filters = record { filter = filter; qos = qos } ∷ [] })) }
    ensures memory { OnErr result (IsErrOf result ClientError.Memory) }
{
    let mut filters = Vec::new(alloc);
    filters.push(Subscription { filter, qos })?;
    Ok(Packet::Subscribe(Subscribe {
        id,
        filters: PacketList::new(filters),
    }))
}

// Returns an UNSUBSCRIBE with one filter.
fn unsubscribe_packet(alloc: Global, id: PacketId, filter: Filter) -> Result<Packet, ClientError>
    ensures ok { IfOk result (λ packet. packet
        ≡ packets.Unsubscribe (record { id = id; filters = filter ∷ [] })) }
    ensures memory { OnErr result (IsErrOf result ClientError.Memory) }
{
    let mut filters = Vec::new(alloc);
    filters.push(filter)?;
    Ok(Packet::Unsubscribe(Unsubscribe {
        id,
        filters: PacketList::new(filters),
    }))
}
