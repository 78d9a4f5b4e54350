// The Connect Return Codes that refuse a connection.

ghost use Rattle.std.specs.Prelude.{◌≡◌};
ghost use Rattle.packet_base.specs.RefusalCode.{code_number};

use std::fmt;

/// Why a server refuses a connection: the Connect Return Codes 1 to 5 (MQTT 3.2.2.3).
#[derive(Clone, Copy, Debug, PartialEq, Eq, Hash)]
pub enum RefusalCode {
    /// The server does not speak the protocol level that the client asks for.
    ProtocolVersion,
    /// The Client Identifier is not allowed by the server.
    IdentifierRejected,
    /// The Network Connection is there, but the MQTT service is unavailable.
    ServerUnavailable,
    /// The user name or the password is malformed.
    BadUserNameOrPassword,
    /// The client may not connect.
    NotAuthorized,
}

impl RefusalCode {
    /// Returns the Connect Return Code, 1 to 5.
    pub fn number(self) -> u8
        ensures { result ≡ code_number self }
    {
        match self {
            RefusalCode::ProtocolVersion => 1,
            RefusalCode::IdentifierRejected => 2,
            RefusalCode::ServerUnavailable => 3,
            RefusalCode::BadUserNameOrPassword => 4,
            RefusalCode::NotAuthorized => 5,
        }
    }
}

impl fmt::Display for RefusalCode {
    fn fmt<W: fmt::Write>(&self, f: &mut fmt::Formatter<W>) -> fmt::Result {
        let text = match self {
            RefusalCode::ProtocolVersion => "unacceptable protocol version",
            RefusalCode::IdentifierRejected => "identifier rejected",
            RefusalCode::ServerUnavailable => "server unavailable",
            RefusalCode::BadUserNameOrPassword => "bad user name or password",
            RefusalCode::NotAuthorized => "not authorized",
        };
        write!(f, "{text}")
    }
}
