// The packets of handshakes (MQTT 4.3).

ghost use Rattle.std.specs.Prelude.{◌≡◌, false};
ghost use Rattle.lists.specs.Lists.{has_id};
ghost use Rattle.packet.specs.declared.delivery.Delivery.TheVariants as deliveries;
ghost use Rattle.client_base.specs.Answered.{on_publish, on_puback, on_pubrec, on_pubcomp};
ghost use Rattle.client_base.specs.Answered.{on_pubrel, answered, accepted_of};
ghost use Rattle.client_base.specs.Answered.{is_subscribe, is_unsubscribe};
ghost use Rattle.client.specs.Inside.PacketSteps.{Tries, quiet_outcome};

use crate::client_core::ClientCore;
use crate::identifiers::{
    end_acknowledged, end_subscribes, end_unsubscribes, forget, has_id, has_unreleased,
    take_released,
};
use crate::output::{write_puback, write_pubcomp, write_pubrec, write_pubrel};
use client_base::{Accepted, ClientError};
use packet::{Delivery, Publish};
use packet_base::PacketId;

impl ClientCore {
    /// Handles PUBLISH: accepts it each time at QoS 0 and 1, and at QoS 2 unless its identifier is
    /// kept. After [`ClientError::Memory`] nothing has changed.
    pub(crate) fn on_publish(&mut self, publish: Publish) -> Result<(), ClientError>
        ensures { Tries (on_publish publish publish.delivery self.old.state)
            self.old result self.new }
    {
        let delivery = publish.delivery;
        match delivery {
            Delivery::AtMostOnce => self.on_at_most_once(publish),
            Delivery::AtLeastOnce(_, id) => self.on_at_least_once(id, publish),
            Delivery::ExactlyOnce(_, id) => self.on_exactly_once(id, publish),
        }
    }

    // Handles PUBLISH at QoS 0, which has no acknowledgement.
    fn on_at_most_once(&mut self, publish: Publish) -> Result<(), ClientError>
        ensures { Tries (on_publish publish deliveries.AtMostOnce self.old.state)
            self.old result self.new }
    {
        self.accepted.push(accepted_of(self.session, publish))?;
        Ok(())
    }

    // Handles PUBLISH at QoS 1.
    fn on_at_least_once(&mut self, id: PacketId, publish: Publish) -> Result<(), ClientError>
        ensures { Tries (on_publish publish (deliveries.AtLeastOnce false id) self.old.state)
            self.old result self.new }
    {
        self.accepted.reserve(1)?;
        write_puback(id, &mut self.out)?;
        self.accepted
            .push_reserved(accepted_of(self.session, publish));
        Ok(())
    }

    // Handles PUBLISH at QoS 2: a repeat is acknowledged but not accepted again.
    fn on_exactly_once(&mut self, id: PacketId, publish: Publish) -> Result<(), ClientError>
        ensures { Tries (on_publish publish (deliveries.ExactlyOnce false id) self.old.state)
            self.old result self.new }
    {
        if has_id(&self.received, id) {
            write_pubrec(id, &mut self.out)?;
            return Ok(());
        }
        self.accept_once(id, publish)
    }

    // Accepts a new publication at QoS 2 and keeps its identifier. All memory is allocated first,
    // so that nothing is accepted whose identifier is not kept.
    fn accept_once(&mut self, id: PacketId, publish: Publish) -> Result<(), ClientError>
        requires { has_id id self.old.state.received ≡ false }
        ensures { Tries (on_publish publish (deliveries.ExactlyOnce false id) self.old.state)
            self.old result self.new }
    {
        self.accepted.reserve(1)?;
        self.received.reserve(1)?;
        write_pubrec(id, &mut self.out)?;
        self.accepted
            .push_reserved(accepted_of(self.session, publish));
        self.received.push_reserved(id);
        Ok(())
    }

    /// Handles PUBREL: drops the identifier and writes PUBCOMP. After [`ClientError::Memory`]
    /// nothing has changed.
    pub(crate) fn on_pubrel(&mut self, id: PacketId) -> Result<(), ClientError>
        ensures { Tries (on_pubrel id self.old.state) self.old result self.new }
    {
        write_pubcomp(id, &mut self.out)?;
        forget(&mut self.received, id);
        Ok(())
    }

    /// Handles PUBACK, which ends a publication at QoS 1.
    pub(crate) fn on_puback(&mut self, id: PacketId)
        ensures { self.new ≡ quiet_outcome (on_puback id self.old.state) self.old }
    {
        end_acknowledged(&mut self.sent, id);
    }

    /// Handles PUBREC: releases a publication at QoS 2 and writes PUBREL, once more if it is
    /// released already. After [`ClientError::Memory`] nothing has changed.
    pub(crate) fn on_pubrec(&mut self, id: PacketId) -> Result<(), ClientError>
        ensures { Tries (on_pubrec id self.old.state) self.old result self.new }
    {
        if has_unreleased(&self.sent, id) {
            self.released.reserve(1)?;
            write_pubrel(id, &mut self.out)?;
            self.released.push_reserved(id);
            take_released(&mut self.sent, id);
        } else if has_id(&self.released, id) {
            write_pubrel(id, &mut self.out)?;
        }
        Ok(())
    }

    /// Handles PUBCOMP, which ends a released publication.
    pub(crate) fn on_pubcomp(&mut self, id: PacketId)
        ensures { self.new ≡ quiet_outcome (on_pubcomp id self.old.state) self.old }
    {
        forget(&mut self.released, id);
    }

    /// Handles SUBACK, which answers a SUBSCRIBE.
    pub(crate) fn on_suback(&mut self, id: PacketId)
        ensures { self.new ≡ quiet_outcome (answered (is_subscribe id) self.old.state) self.old }
    {
        end_subscribes(&mut self.requests, id);
    }

    /// Handles UNSUBACK, which answers an UNSUBSCRIBE.
    pub(crate) fn on_unsuback(&mut self, id: PacketId)
        ensures { self.new ≡ quiet_outcome (answered (is_unsubscribe id) self.old.state) self.old }
    {
        end_unsubscribes(&mut self.requests, id);
    }
}

// Returns the accepted publication of a PUBLISH in this session.
fn accepted_of(session: u64, publish: Publish) -> Accepted
    ensures { result ≡ accepted_of session publish }
{
    Accepted {
        session,
        qos: publish.delivery.qos(),
        retain: publish.retain,
        topic: publish.topic,
        payload: publish.payload,
    }
}
