// Where a connection's write token is kept while no thread writes.

ghost use Rattle.std.specs.Prelude.{◌≡◌, IfSome, None, Some, false, is_none, true};

use crate::write_token::{Stream, WriteToken};
use run_history::RunNaming;
use std::mem;
use world_base::node_connections::Port;

/// Keeps a connection's token while no thread writes: as a stream, which may be dropped.
#[derive(Drop)]
pub(crate) struct WriteSlot<H: RunNaming> {
    // None while a thread writes, and for good once the stream takes no more.
    token: Option<Stream<H>>,
    // True if the thread that writes has to look again, since more may have been queued.
    has_to_look: bool,
}

impl<H: RunNaming> WriteSlot<H> {
    ghost use Rattle.streams.specs.WriteTokens.{IsTokenOf, token_of};

    /// Returns a slot with the token of this stream.
    pub(crate) fn new(token: Stream<H>) -> WriteSlot<H>
        ensures { result ≡ record { token = Some token; has_to_look = false } }
    {
        WriteSlot {
            token: Some(token),
            has_to_look: false,
        }
    }

    /// Takes the token, if it is this port's; one of another port is dropped, and its stream with
    /// it. Returns none if another thread writes, which then looks again, or if the stream has
    /// ended.
    pub(crate) fn take(&mut self, port: Port) -> Option<WriteToken<H>>
        ensures its { IfSome result (λ token. IsTokenOf port token) }
        ensures takes { result ≡ token_of port self.old.token }
        ensures leaves { self.new ≡ record { token = None; has_to_look = is_none self.old.token } }
    {
        let token = mem::replace(&mut self.token, None);
        self.has_to_look = token.is_none();
        let token = token?;
        if token.tap().port() != port {
            return None;
        }
        Some(WriteToken::new(token))
    }

    /// Puts the token back. Returns it to the caller, who looks again, if `take` was called
    /// meanwhile.
    pub(crate) fn put_back(&mut self, token: WriteToken<H>) -> Option<WriteToken<H>>
        ensures same { IfSome result (λ kept. kept ≡ token) }
        ensures puts { self.old.has_to_look ≡ false →
            self.new ≡ record self.old { token = Some token } }
        ensures gives { self.old.has_to_look ≡ false → result ≡ None }
        ensures looks { self.old.has_to_look ≡ true →
            self.new ≡ record self.old { has_to_look = false } }
        ensures keeps { self.old.has_to_look ≡ true → result ≡ Some token }
    {
        if self.has_to_look {
            self.has_to_look = false;
            return Some(token);
        }
        self.token = Some(token.into_stream());
        None
    }
}
