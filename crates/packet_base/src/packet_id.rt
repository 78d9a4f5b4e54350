// Packet Identifiers, which match a packet with its acknowledgements.

ghost use Rattle.std.specs.Prelude.{◌≡◌, ◌<◌, ◌^◌};

use std::fmt;
use std::marker::Model;

/// A Packet Identifier: 1 to 65,535 (MQTT 2.3.1). Its value in contracts is its number.
#[derive(Clone, Copy, Debug, PartialEq, Eq, PartialOrd, Ord, Hash)]
pub struct PacketId {
    // Never 0, which is no identifier.
    number: u16,
}

impl Model for PacketId {
    ghost use Rattle.std.specs.Prelude.{ℕ, ◌<◌};

    ghost Value = { ℕ };

    ghost view = { λ id. id.number };

    ghost invariant = { λ id. 0 < id.number };

    ghost inverse = { λ number. record { number = number } };
}

impl PacketId {
    /// Returns the identifier of this number.
    pub fn new(number: u16) -> PacketId
        requires { 0 < number }
        ensures { result ≡ number }
    {
        PacketId { number }
    }

    /// Returns the number of this identifier.
    pub fn number(self) -> u16
        ensures value { result ≡ self }
        ensures positive { 0 < self }
        ensures small { self < 2 ^ 16 }
    {
        self.number
    }
}

impl fmt::Display for PacketId {
    fn fmt<W: fmt::Write>(&self, f: &mut fmt::Formatter<W>) -> fmt::Result {
        let number = self.number;
        write!(f, "{number}")
    }
}
