// What clients are granted, as it is compared and shown.

use super::shown::{SHOWN, front_of};
use packet_base::{ClientId, QoS};

/// What is granted to a client, as it is shown: the first bytes of its identifier (zeros after the
/// last), and the QoS.
pub(crate) type Shown = ([u8; SHOWN], QoS);

/// Returns what is granted to a client as it is shown.
pub(crate) fn shown(client: &ClientId, qos: QoS) -> Shown {
    (front_of(client.as_str()), qos)
}
