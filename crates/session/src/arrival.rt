// Whether a PUBLISH at QoS 2 is new.

/// What a PUBLISH at QoS 2 is to the session (MQTT 4.3.3).
#[derive(Clone, Copy, Debug, PartialEq, Eq)]
pub enum Arrival {
    /// Its identifier is new, so the publication is new.
    First,
    /// A PUBLISH with its identifier was received, and no PUBREL since: it is a retransmission.
    Again,
}
