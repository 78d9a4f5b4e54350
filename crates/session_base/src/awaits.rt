// What an entry in flight waits for.

use crate::publication::Publication;

/// The acknowledgement that a sent entry waits for (MQTT 4.3.2, 4.3.3). In terms of the states of a
/// publication: an entry in the queue's `waiting` list is Queued, `Puback` and `Pubrec` are Sent,
/// `Pubcomp` is Released, and a Done entry is no longer in the queue.
#[derive(Clone, Debug, PartialEq, Eq, Drop)]
pub enum Awaits {
    /// PUBACK, for a publication at QoS 1.
    Puback(Publication),
    /// PUBREC, for a publication at QoS 2.
    Pubrec(Publication),
    /// PUBCOMP, for a publication at QoS 2 that is released: only its identifier is kept.
    Pubcomp,
}
