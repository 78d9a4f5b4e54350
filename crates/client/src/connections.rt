// The beginning and the end of a client's connections (MQTT 3.1, 3.2, 3.14).

ghost use Rattle.std.specs.Prelude.{◌≡◌, ◌<◌, [], false, true, if◌then◌else◌, IfOk, OnOk};
ghost use Rattle.std.specs.Prelude.{OnErr, IsErrOf};
ghost use Rattle.client_base.specs.State.{resent, is_online, kept_count};
ghost use Rattle.client_base.specs.Calls.{opened, on_connack, discarded, numbered};
ghost use Rattle.client_base.specs.Steps.{Call, keeper_step};
ghost use Rattle.client.specs.Core.{OpensConnection, LeavesServer, AppendsAll};
ghost use Rattle.client.specs.Inside.PacketSteps.{Tries, with_state, all_sent};

use crate::client_core::ClientCore;
use crate::output::{write, write_connect, write_publishes, write_pubrels};
use client_base::{ClientError, Stage};
use cutter::Cutter;
use packet::Packet;

impl ClientCore {
    /// Opens a connection: writes CONNECT, and nothing else until the server has accepted it. A
    /// connection that is still open is lost first. `Memory` is the only error, and changes
    /// nothing.
    pub fn open(&mut self) -> Result<(), ClientError>
        ensures { OpensConnection (keeper_step Call.Opens self.old.state) self.old result self.new }
    {
        let mut out = Vec::new(self.alloc);
        write_connect(&self.client, self.keep_alive, &mut out)?;
        self.lost();
        self.stage = Stage::Opened;
        self.out = out;
        Ok(())
    }

    /// Ends the connection: writes DISCONNECT if the server had accepted it, then handles its loss.
    /// `NotActive` exactly if there is no connection. After `Memory`, which comes only where
    /// DISCONNECT is written, nothing has changed.
    pub fn disconnect(&mut self) -> Result<(), ClientError>
        ensures { LeavesServer
            (keeper_step Call.Disconnects self.old.state) self.old result self.new }
    {
        match self.stage {
            Stage::Closed => return Err(ClientError::NotActive),
            Stage::Opened => {}
            Stage::Online => write(&Packet::Disconnect, &mut self.out)?,
        }
        self.lost();
        Ok(())
    }

    /// Handles CONNACK 0: retransmits what is kept. If the server lost the session, what is kept is
    /// dropped and [`ClientError::SessionLost`] returned. After [`ClientError::Memory`] nothing has
    /// changed.
    #[tactic(auto, using(crate::proofs::Growing::some_resent))]
    pub(crate) fn on_connack(&mut self, session_present: bool) -> Result<(), ClientError>
        ensures { Tries (on_connack session_present self.old.state) self.old result self.new }
    {
        if !session_present && self.session > 0 {
            self.discard();
            self.stage = Stage::Online;
            self.session_present = session_present;
            return Err(ClientError::SessionLost);
        }
        self.resend()?;
        if self.session == 0 {
            self.session = 1;
        }
        self.stage = Stage::Online;
        self.session_present = session_present;
        Ok(())
    }

    // Writes what is kept, in order; queued publications become sent. After `Memory`, which comes
    // only if something is kept, nothing has changed.
    #[tactic(auto, using(crate::proofs::Growing::some_kept))]
    fn resend(&mut self) -> Result<(), ClientError>
        ensures ok { OnOk result (self.new ≡ all_sent self.new.out self.old) }
        ensures bytes { OnOk result (AppendsAll self.old.out self.new.out (resent self.old.state)) }
        ensures memory { OnErr result (IsErrOf result ClientError.Memory) }
        ensures some { OnErr result (0 < kept_count self.old.state) }
        ensures same { OnErr result (self.new ≡ self.old) }
    {
        let bytes = self.resent()?;
        self.out.reserve(bytes.len())?;
        self.sent.append(&mut self.queued)?;
        self.out.extend_from_slice(&bytes)?;
        Ok(())
    }

    // Drops what is kept and begins the next session.
    fn discard(&mut self)
        ensures { self.new ≡ with_state (discarded self.old.state) self.old }
    {
        self.released.clear();
        self.sent.clear();
        self.queued.clear();
        self.received.clear();
        self.session = self.session.saturating_add(1);
    }

    // Returns the bytes of what is kept, in order: PUBRELs, PUBLISHes with DUP 1, then those with
    // DUP 0.
    fn resent(&self) -> Result<Vec<u8>, ClientError>
        ensures ok { IfOk result (λ bytes. AppendsAll [] bytes.items (resent self.now.state)) }
        ensures memory { OnErr result (IsErrOf result ClientError.Memory) }
        ensures some { OnErr result (0 < kept_count self.now.state) }
    {
        let mut bytes = Vec::new(self.alloc);
        write_pubrels(&self.released, &mut bytes)?;
        write_publishes(&self.sent, true, &mut bytes)?;
        write_publishes(&self.queued, false, &mut bytes)?;
        Ok(bytes)
    }
}
