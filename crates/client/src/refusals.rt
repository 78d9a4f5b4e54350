// Whether a call would be refused.

ghost use Rattle.std.specs.Prelude.{ℕ, ◌≡◌, false};
ghost use Rattle.std.specs.Option.{is_some};
ghost use Rattle.packet.specs.declared.packet.Packet.TheVariants as packets;
ghost use Rattle.session_base.specs.Publication.{publish_for};
ghost use Rattle.client_base.specs.Publications.{is_over_limit, publish_refusal};
ghost use Rattle.client_base.specs.Steps.{request_refusal};

use crate::client_core::ClientCore;
use packet::MAX_BODY;
use packet_base::QoS;
use session_base::{Publication, body_length};

impl ClientCore {
    /// Returns true if [`ClientCore::publish`] would refuse the publication for another cause than
    /// `Memory`. Takes no memory.
    pub fn refuses(&self, publication: &Publication) -> bool
        ensures { result ≡ is_some (publish_refusal publication.now self.now.state) }
    {
        if publication.qos == QoS::AtMostOnce {
            return !self.connected() || is_long(publication);
        }
        self.publication_id().is_err() || is_long(publication)
    }

    /// Returns true if [`ClientCore::subscribe`] and [`ClientCore::unsubscribe`] would refuse every
    /// filter for another cause than `Memory`. Takes no memory.
    pub fn refuses_requests(&self) -> bool
        ensures { result ≡ is_some (request_refusal self.now.state) }
    {
        self.request_id().is_err()
    }
}

/// Returns true if the PUBLISH that carries a publication is over the size limit. Takes no memory.
pub(crate) fn is_long(publication: &Publication) -> bool
    ensures { (id : ℕ) → result
        ≡ is_over_limit (packets.Publish (publish_for false id publication.now)) }
{
    body_length(publication) > MAX_BODY
}
