// CONNACK: the server's answer to a CONNECT (MQTT 3.2).

ghost use Rattle.std.specs.Prelude.{◌≡◌, ◌+◌, ◌≤◌, ◌++◌, length, min, vec_len, vec_capacity};
ghost use Rattle.packet_base.specs.Outcome.{Gives, TakesNoMemory};
ghost use Rattle.packet.specs.Connack.{connack_body, connack_of, answer_of};

use packet_base::{Reader, RefusalCode, Stop, put_byte};
use topics::MalformedKind;

/// The answer to a CONNECT (MQTT 3.2).
#[derive(Clone, Copy, Debug, PartialEq, Eq)]
pub enum Connack {
    /// The connection is accepted; the flag is Session Present (MQTT 3.2.2.2).
    Accepted(bool),
    /// The connection is refused, and no session is present (MQTT 3.2.2.2).
    Refused(RefusalCode),
}

impl Connack {
    /// Reads the body of a CONNACK (MQTT 3.2), up to its first fault.
    #[tactic(auto, unfolding(crate::specs::Connack::connack_of))]
    pub(crate) fn read(body: &mut Reader) -> Result<Connack, Stop>
        ensures exact { Gives (λ value. value) result (connack_of body.old) }
        ensures memory { TakesNoMemory result }
    {
        let present = body.byte()?;
        let code = body.byte()?;
        let connack = answer(present, code)?;
        body.end()?;
        Ok(connack)
    }

    /// Returns the length of the body in bytes.
    pub(crate) fn body_len(self) -> usize
        ensures { result ≡ min (length (connack_body self)) usize.MAX }
    {
        2
    }

    /// Appends the body. The caller has reserved the capacity.
    pub(crate) fn put(self, out: &mut Vec<u8>)
        requires { vec_len out.old + length (connack_body self) ≤ vec_capacity out.old }
        ensures { out.new.items ≡ out.old.items ++ connack_body self }
    {
        match self {
            Connack::Accepted(present) => {
                put_byte(out, u8::from(present));
                put_byte(out, 0);
            }
            Connack::Refused(code) => {
                put_byte(out, 0);
                put_byte(out, code.number());
            }
        }
    }
}

// Decodes the two bytes of the body.
fn answer(present: u8, code: u8) -> Result<Connack, Stop>
    ensures exact { result ≡ answer_of present code }
    ensures memory { TakesNoMemory result }
{
    match (present, code) {
        (0, 0) => Ok(Connack::Accepted(false)),
        (1, 0) => Ok(Connack::Accepted(true)),
        (0, 1) => Ok(Connack::Refused(RefusalCode::ProtocolVersion)),
        (0, 2) => Ok(Connack::Refused(RefusalCode::IdentifierRejected)),
        (0, 3) => Ok(Connack::Refused(RefusalCode::ServerUnavailable)),
        (0, 4) => Ok(Connack::Refused(RefusalCode::BadUserNameOrPassword)),
        (0, 5) => Ok(Connack::Refused(RefusalCode::NotAuthorized)),
        _ => Err(Stop::Malformed(MalformedKind::Shape)),
    }
}
