// Why a server denies a client what it asks for.

ghost use Rattle.std.specs.Prelude.{◌≡◌};
ghost use Rattle.user_client.specs.Answers.{is_final};

use packet_base::RefusalCode;
use std::fmt;

/// Why a server denies a client what it asks for.
#[derive(Clone, Copy, Debug, PartialEq, Eq)]
pub enum Denial {
    /// It refuses the connection, with this code (MQTT 3.2.2.3).
    Connack(RefusalCode),
    /// It refuses the subscription (MQTT 3.9.3).
    Suback,
}

impl Denial {
    /// Returns true if it would deny another connection the same. A service that is unavailable
    /// (code 3) may come back.
    pub fn is_final(self) -> bool
        ensures { result ≡ is_final self }
    {
        match self {
            Denial::Connack(RefusalCode::ServerUnavailable) => false,
            Denial::Connack(_) | Denial::Suback => true,
        }
    }
}

impl fmt::Display for Denial {
    fn fmt<W: fmt::Write>(&self, f: &mut fmt::Formatter<W>) -> fmt::Result {
        match self {
            Denial::Connack(code) => {
                let number = code.number();
                write!(f, "CONNACK {number}: {code}")
            }
            Denial::Suback => write!(f, "SUBACK 0x80: subscription refused"),
        }
    }
}
