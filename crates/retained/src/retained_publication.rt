// The part of a publication that is retained.

ghost use Rattle.std.specs.Prelude.{◌≡◌};

use packet_base::{Payload, QoS};
use std::alloc::AllocError;

/// The last publication of a topic, without the topic.
#[derive(Debug, Drop)]
pub struct RetainedPublication {
    /// The QoS at which it was published, 0 to 2.
    pub qos: QoS,
    /// The payload, which is never empty in a store.
    pub payload: Payload,
}

impl Clone for RetainedPublication {
    ghost is_clone = { λ kept copy. copy ≡ kept };

    fn clone(&self) -> Result<RetainedPublication, AllocError> {
        Ok(RetainedPublication {
            qos: self.qos,
            payload: self.payload.clone()?,
        })
    }
}
