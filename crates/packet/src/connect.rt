// CONNECT: a client asks for a connection (MQTT 3.1).

ghost use Rattle.std.specs.Prelude.{◌≡◌, ◌+◌, ◌≤◌, ◌++◌, length, min, vec_len, vec_capacity};
ghost use Rattle.std.specs.Prelude.{IfOk, IsOk};
ghost use Rattle.packet_base.specs.Outcome.{Gives, IsOutOfMemory, TakesNoMemory};
ghost use Rattle.packet.specs.Connect.{clean_of, connect_body, connect_of, FitsConnect};

use packet_base::{
    ClientId, Reader, RefusalCode, Stop, has_client_length, put_byte, put_bytes, put_number,
    put_text,
};
use std::alloc::Global;
use topics::MalformedKind;

/// The first field of each CONNECT: the text `MQTT` (MQTT 3.1.2.1).
const PROTOCOL: [u8; 6] = [0x00, 0x04, 0x4D, 0x51, 0x54, 0x54];

/// The protocol level of MQTT 3.1.1 (MQTT 3.1.2.2).
const LEVEL: u8 = 4;

/// The connect flag CleanSession (MQTT 3.1.2.4).
const CLEAN_SESSION: u8 = 2;

/// A client asks for a connection (MQTT 3.1). It has no Will, user name or password: a CONNECT
/// with one of these is refused as not authorized.
#[derive(Clone, Debug, PartialEq, Eq, Drop)]
pub struct Connect {
    /// The client that asks.
    pub client: ClientId,
    /// CleanSession: whether the session begins afresh, and ends with the connection.
    pub clean: bool,
    /// The most seconds between two packets of the client; 0 means no limit (MQTT 3.1.2.10).
    pub keep_alive: u16,
}

impl Connect {
    /// Reads the body of a CONNECT (MQTT 3.1), up to its first fault.
    #[tactic(auto, unfolding(crate::specs::Connect::connect_of), using(packet_base::proofs::Clients::client_checked))]
    pub(crate) fn read(alloc: Global, body: &mut Reader) -> Result<Connect, Stop>
        ensures exact { Gives (λ value. value) result (connect_of body.old) }
        ensures memory { IsOutOfMemory result → IsOk (connect_of body.old) }
    {
        if !body.skip(&PROTOCOL) {
            return Err(Stop::Malformed(MalformedKind::Protocol));
        }
        let level = body.byte()?;
        let flags = body.byte()?;
        if level != LEVEL {
            return Err(Stop::Refused(RefusalCode::ProtocolVersion));
        }
        let clean = clean_of(flags)?;
        let keep_alive = body.number()?;
        let client = body.text()?;
        body.end()?;
        if !has_client_length(client) {
            return Err(Stop::Refused(RefusalCode::IdentifierRejected));
        }
        let client = ClientId::of_checked(alloc, client)?;
        Ok(Connect {
            client,
            clean,
            keep_alive,
        })
    }

    /// Returns the length of the body in bytes.
    pub(crate) fn body_len(&self) -> usize
        ensures { result ≡ min (length (connect_body self.now)) usize.MAX }
    {
        12 + self.client.as_str().len()
    }

    /// Appends the body. The caller has reserved the capacity.
    pub(crate) fn put(&self, out: &mut Vec<u8>)
        requires { vec_len out.old + length (connect_body self.now) ≤ vec_capacity out.old }
        ensures { out.new.items ≡ out.old.items ++ connect_body self.now }
    {
        put_bytes(out, &PROTOCOL);
        put_byte(out, LEVEL);
        put_byte(out, CLEAN_SESSION * u8::from(self.clean));
        put_number(out, self.keep_alive);
        put_text(out, self.client.as_str());
    }

    /// Ensures, for a proof, that the fields are in their ranges; it does nothing else.
    pub(crate) fn ensure_ranges(&self)
        ensures { FitsConnect self.now }
    {
        let _keep_alive = self.keep_alive;
        let _client = self.client.as_str();
    }
}

// Returns CleanSession; any other connect flag that is set is a fault (MQTT 3.1.2.3).
fn clean_of(flags: u8) -> Result<bool, Stop>
    ensures exact { Gives (λ value. value) result (clean_of flags) }
    ensures memory { TakesNoMemory result }
{
    if flags % 2 != 0 {
        return Err(Stop::Malformed(MalformedKind::Protocol));
    }
    if flags > CLEAN_SESSION {
        return Err(Stop::Refused(RefusalCode::NotAuthorized));
    }
    Ok(flags == CLEAN_SESSION)
}
