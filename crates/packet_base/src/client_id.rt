// The Client Identifier, the key of a client's session.

ghost use Rattle.std.specs.Prelude.{◌≡◌, None, Some, IfOk, OnOk, IfErr, IsTrue, true};
ghost use Rattle.packet_base.specs.ClientId.{client_fault, has_client_length, is_client};
ghost use Rattle.topics.specs.Text.{RefusesBy};

use std::alloc::{AllocError, Global};
use std::fmt;
use std::marker::Model;
use topics::{MalformedKind, Text};

/// The most bytes of a Client Identifier, this broker's own limit.
const MAX_CLIENT_BYTES: usize = 64;

/// A Client Identifier of 1 to 64 bytes (MQTT 3.1.3.1; 64 is this broker's own limit). It is
/// compared and ordered by its bytes, which are its value in contracts.
#[derive(Debug, PartialEq, Eq, PartialOrd, Ord, Drop)]
pub struct ClientId {
    // The text itself: it has no fault that `ClientId::new` looks for.
    text: Text,
}

impl Model for ClientId {
    ghost use Rattle.std.specs.Prelude.{List, ℕ, IsTrue};
    ghost use Rattle.packet_base.specs.ClientId.{is_client};

    ghost Value = { List ℕ };

    ghost view = { λ client. client.text };

    ghost invariant = { λ client. IsTrue (is_client client.text) };

    ghost inverse = { λ bytes. record { text = bytes } };
}

impl ClientId {
    /// Returns the Client Identifier of this text. In this order: `Identifier` if it does not have
    /// 1 to 64 bytes, `Text` if it contains U+0000, `Memory`.
    #[tactic(auto, using(crate::proofs::Clients::is_client_none))]
    pub fn new(alloc: Global, text: &str) -> Result<ClientId, MalformedKind>
        ensures value { IfOk result (λ client. client ≡ text.now) }
        ensures ok { OnOk result (client_fault text.now ≡ None) }

        // Memory may run out only for a text without a fault.
        ensures err { IfErr result (RefusesBy (client_fault text.now)) }
    {
        if !has_client_length(text) {
            return Err(MalformedKind::Identifier);
        }
        if text.as_bytes().contains(&0) {
            return Err(MalformedKind::Text);
        }
        Ok(ClientId::of_checked(alloc, text)?)
    }

    /// Returns the Client Identifier of a text that has no fault. The only error is that memory ran
    /// out.
    pub fn of_checked(alloc: Global, text: &str) -> Result<ClientId, AllocError>
        requires { is_client text.now ≡ true }
        ensures { IfOk result (λ client. client ≡ text.now) }
    {
        let text = Text::new(alloc, text)?;
        Ok(ClientId { text })
    }

    /// Returns the text of this identifier.
    pub fn as_str(&self) -> &str
        ensures value { result.now ≡ self.now }
        ensures checked { IsTrue (is_client self.now) }
    {
        self.text.as_str()
    }
}

/// Returns true if a text has 1 to 64 bytes.
pub fn has_client_length(text: &str) -> bool
    ensures { result ≡ has_client_length text.now }
{
    !text.is_empty() && text.len() <= MAX_CLIENT_BYTES
}

impl Clone for ClientId {
    ghost is_clone = { λ client copy. copy ≡ client };

    fn clone(&self) -> Result<ClientId, AllocError> {
        Ok(ClientId {
            text: self.text.clone()?,
        })
    }
}

impl fmt::Display for ClientId {
    ghost output = { λ client. Some client };

    fn fmt<W: fmt::Write>(&self, f: &mut fmt::Formatter<W>) -> fmt::Result {
        self.text.fmt(f)
    }
}
