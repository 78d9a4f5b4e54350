// Publications of a client (MQTT 3.3, 4.3).

ghost use Rattle.std.specs.Prelude.{◌≡◌, true};
ghost use Rattle.packet.specs.declared.delivery.Delivery.TheVariants as deliveries;
ghost use Rattle.packet.specs.declared.packet.Packet.TheVariants as packets;
ghost use Rattle.packet_base.specs.declared.qos.QoS.TheVariants as qos_levels;
ghost use Rattle.session_base.specs.Publication.{is_answered};
ghost use Rattle.client_base.specs.Steps.{Call, keeper_step};
ghost use Rattle.client.specs.Core.{AnswersCall, publication_with};
ghost use Rattle.client.specs.Inside.Ids.{PublicationId};
ghost use Rattle.client.specs.Inside.PacketSteps.{kept_publication, sent_publication};

use crate::client_core::ClientCore;
use crate::output::{write, write_publish};
use crate::refusals::is_long;
use client_base::{ClientError, MAX_KEPT, Stage, UnacknowledgedPublication};
use packet::{Delivery, Packet, Publish};
use packet_base::{PacketId, Payload, QoS};
use session_base::Publication;
use topics::TopicName;

impl ClientCore {
    /// Publishes. At QoS 1 and 2 the publication is kept until its handshake has ended. It is sent
    /// at once if the client is online, otherwise after the next CONNACK 0. Errors, in this order:
    /// `WindowFull` exactly if at QoS 1 or 2 sixty-four publications are kept or no identifier is
    /// free; `NotActive` if the client is offline at QoS 0; `TooLarge` if the packet would be over
    /// the size limit; `Memory` if memory runs out for a publication that none of these refuses.
    /// After an error nothing has changed.
    pub fn publish(
        &mut self,
        topic: TopicName,
        qos: QoS,
        retain: bool,
        payload: Payload,
    ) -> Result<(), ClientError>
        ensures { let call = Call.Publishes (publication_with retain qos topic payload) in
            AnswersCall (keeper_step call self.old.state) self.old result self.new }
    {
        let publication = Publication {
            retain,
            qos,
            topic,
            payload,
        };
        match qos {
            QoS::AtMostOnce => self.publish_once(publication),
            QoS::AtLeastOnce | QoS::ExactlyOnce => self.publish_kept(publication),
        }
    }

    // Publishes at QoS 0.
    fn publish_once(&mut self, publication: Publication) -> Result<(), ClientError>
        requires { publication.qos ≡ qos_levels.AtMostOnce }
        ensures { AnswersCall (keeper_step (Call.Publishes publication) self.old.state)
            self.old result self.new }
    {
        if self.stage != Stage::Online {
            return Err(ClientError::NotActive);
        }
        let packet = packet_once(publication);
        if packet.is_too_large() {
            return Err(ClientError::TooLarge);
        }
        write(&packet, &mut self.out)?;
        Ok(())
    }

    // Publishes at QoS 1 or 2.
    fn publish_kept(&mut self, publication: Publication) -> Result<(), ClientError>
        requires { is_answered publication.qos ≡ true }
        ensures { AnswersCall (keeper_step (Call.Publishes publication) self.old.state)
            self.old result self.new }
    {
        let id = self.publication_id()?;
        self.keep(UnacknowledgedPublication { id, publication })
    }

    // Keeps a publication, and sends it if the client is online.
    fn keep(&mut self, kept: UnacknowledgedPublication) -> Result<(), ClientError>
        ensures { AnswersCall (kept_publication kept self.old.state) self.old result self.new }
    {
        if is_long(&kept.publication) {
            return Err(ClientError::TooLarge);
        }
        if self.stage == Stage::Online {
            return self.send(kept);
        }
        self.queued.push(kept)?;
        Ok(())
    }

    // Writes a publication and keeps it as sent.
    fn send(&mut self, kept: UnacknowledgedPublication) -> Result<(), ClientError>
        ensures { AnswersCall (sent_publication kept self.old.state) self.old result self.new }
    {
        self.sent.reserve(1)?;
        write_publish(&kept, false, &mut self.out)?;
        self.sent.push_reserved(kept);
        Ok(())
    }

    /// Returns the identifier of the next publication. [`ClientError::WindowFull`] if `MAX_KEPT`
    /// publications are kept or no identifier is free.
    pub(crate) fn publication_id(&self) -> Result<PacketId, ClientError>
        ensures { PublicationId self.now.state result }
    {
        if self.kept() >= MAX_KEPT {
            return Err(ClientError::WindowFull);
        }
        self.free_id().ok_or(ClientError::WindowFull)
    }
}

// Returns the PUBLISH of a publication at QoS 0.
fn packet_once(publication: Publication) -> Packet
    ensures { result ≡ packets.Publish (record {
      topic = publication.topic;
      delivery = deliveries.AtMostOnce;
      retain = publication.retain;
      payload = publication.payload;
    }) }
{
    Packet::Publish(Publish {
        topic: publication.topic,
        delivery: Delivery::AtMostOnce,
        retain: publication.retain,
        payload: publication.payload,
    })
}
