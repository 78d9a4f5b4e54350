// Why a client lost its last connection.

use command_line::address_cause;
use packet_base::RefusalCode;
use std::fmt;
use std::io::ErrorKind;

/// Why a client lost its last connection, or was not served. Its text is one line, for the user.
#[derive(Debug, Drop)]
pub enum LossCause {
    /// No connection to this address could be opened.
    Address(String, ErrorKind),
    /// The server refused the connection (MQTT 3.2.2.3).
    Connack(RefusalCode),
    /// The server ended the connection, or it failed.
    Closed,
    /// The server lost or ended the session.
    SessionLost,
}

impl fmt::Display for LossCause {
    fn fmt<W: fmt::Write>(&self, f: &mut fmt::Formatter<W>) -> fmt::Result {
        match self {
            LossCause::Address(address, kind) => match address_cause(address.as_str()) {
                Some(cause) => write!(f, "{address}: {cause}"),
                None => write!(f, "{address}: {kind}"),
            },
            LossCause::Connack(code) => {
                let number = code.number();
                write!(f, "CONNACK {number}: {code}")
            }
            LossCause::Closed => write!(f, "the server closed the connection"),
            LossCause::SessionLost => write!(f, "the server lost or ended the session"),
        }
    }
}
