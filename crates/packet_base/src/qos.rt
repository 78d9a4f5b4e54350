// The three qualities of service.

ghost use Rattle.std.specs.Prelude.{◌≡◌};
ghost use Rattle.packet_base.specs.QoS.{greater_qos, lower_qos, qos_number, qos_of};

use crate::stop::Stop;
use topics::MalformedKind;

/// Quality of Service: how reliably a publication is delivered (MQTT 4.3). The three are ordered by
/// their numbers.
#[derive(Clone, Copy, Debug, PartialEq, Eq, PartialOrd, Ord, Hash)]
pub enum QoS {
    /// At most once: not acknowledged.
    AtMostOnce,
    /// At least once: acknowledged by PUBACK.
    AtLeastOnce,
    /// Exactly once: PUBREC, then PUBREL and PUBCOMP.
    ExactlyOnce,
}

impl QoS {
    /// Returns the QoS with this number; above 2 it is `Qos` (MQTT 3.3.1.2, 3.8.3).
    pub fn of(number: u8) -> Result<QoS, Stop>
        ensures { result ≡ qos_of number }
    {
        match number {
            0 => Ok(QoS::AtMostOnce),
            1 => Ok(QoS::AtLeastOnce),
            2 => Ok(QoS::ExactlyOnce),
            _ => Err(Stop::Malformed(MalformedKind::Qos)),
        }
    }

    /// Returns the number, 0 to 2.
    pub fn number(self) -> u8
        ensures { result ≡ qos_number self }
    {
        match self {
            QoS::AtMostOnce => 0,
            QoS::AtLeastOnce => 1,
            QoS::ExactlyOnce => 2,
        }
    }

    /// Returns the lower of the two.
    pub fn lower(self, other: QoS) -> QoS
        ensures { result ≡ lower_qos self other }
    {
        if other.number() < self.number() {
            other
        } else {
            self
        }
    }

    /// Returns the greater of the two; `None` is below every QoS.
    pub fn greater(self, other: Option<QoS>) -> QoS
        ensures { result ≡ greater_qos self other }
    {
        match other {
            Some(other) if self.number() < other.number() => other,
            _ => self,
        }
    }
}
