// Reading a client's state and its output.

ghost use Rattle.std.specs.Prelude.{◌≡◌, ◌<◌, ◌+◌, ◌++◌, [], OnOk, OnErr, IsErrOf, length, min};
ghost use Rattle.std.specs.Prelude.{vec_len, vec_capacity};
ghost use Rattle.client_base.specs.State.{is_online, kept_count};
ghost use Rattle.client.specs.Core.{without_accepted};

use crate::client_core::ClientCore;
use client_base::{Accepted, ClientError, Stage};
use packet_base::ClientId;
use std::mem;

impl ClientCore {
    /// Returns the identifier that the client writes in its CONNECT (MQTT 3.1.3.1).
    pub fn client(&self) -> &ClientId
        ensures { result.now ≡ self.now.state.client }
    {
        &self.client
    }

    /// Appends the bytes that were written and not yet taken. If `out` is empty no byte is copied,
    /// which no clause says. `Memory` only if there are such bytes, and `out` is not empty and has
    /// too little capacity for them. After `Memory` nothing has changed.
    pub fn outgoing(&mut self, out: &mut Vec<u8>) -> Result<(), ClientError>
        ensures bytes { OnOk result (out.new.items ≡ out.old.items ++ self.old.out) }
        ensures ok { OnOk result (self.new ≡ record self.old { out = [] }) }

        // The only error is that memory ran out, as `out` had to grow.
        ensures memory { OnErr result (IsErrOf result ClientError.Memory) }
        ensures some { OnErr result (0 < length self.old.out) }
        ensures filled { OnErr result (0 < vec_len out.old) }
        ensures grows { OnErr result
            (vec_capacity out.old < vec_len out.old + length self.old.out) }

        // What stays.
        ensures same { OnErr result (self.new ≡ self.old) }
        ensures untouched { OnErr result (out.new.items ≡ out.old.items) }
    {
        if out.is_empty() {
            mem::swap(out, &mut self.out);
        } else {
            out.extend_from_slice(&self.out)?;
        }
        self.out.clear();
        Ok(())
    }

    /// Returns the publications that were accepted and not yet taken, in order (MQTT 4.3).
    pub fn accepted(&self) -> &[Accepted]
        ensures { result.now ≡ self.now.state.accepted }
    {
        self.accepted.as_slice()
    }

    /// Takes the publications that were accepted, in order.
    pub fn take_accepted(&mut self) -> Vec<Accepted>
        ensures taken { result.items ≡ self.old.state.accepted }
        ensures left { self.new ≡ without_accepted self.old }
    {
        mem::replace(&mut self.accepted, Vec::new(self.alloc))
    }

    /// Returns the number of publications whose handshakes have not ended, at most 64.
    pub fn kept(&self) -> usize
        ensures { result ≡ min (kept_count self.now.state) usize.MAX }
    {
        let sent = self.released.len().saturating_add(self.sent.len());
        sent.saturating_add(self.queued.len())
    }

    /// Returns true if the server accepted the connection and it is still open.
    pub fn connected(&self) -> bool
        ensures { result ≡ is_online self.now.state.stage }
    {
        self.stage == Stage::Online
    }

    /// Returns Session Present of the last accepted connection: true if the server had a session of
    /// this client; false before the first.
    pub fn present(&self) -> bool
        ensures { result ≡ self.now.state.session_present }
    {
        self.session_present
    }
}
