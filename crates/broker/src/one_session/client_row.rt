// The row of one client.

ghost use Rattle.std.specs.Prelude.{◌≡◌, ◌++◌, false, Some, OnOk};
ghost use Rattle.broker_base.specs.SessionStep.{session_anew, session_resumed};
ghost use Rattle.broker.specs.one_session.OneSession.{sent_to_resumed};

use broker_spec::{ConnectionName, Window};
use machine::Halted;
use packet::Packet;
use session::Session;
use std::alloc::Global;
use std::marker::Model;

/// A client's session with the CleanSession flag of its CONNECT and its current connection, if it
/// has one.
pub struct ClientRow {
    /// CleanSession of the client's last accepted CONNECT (MQTT 3.1.2.4).
    pub clean: bool,
    /// The client's current connection.
    pub connection: Option<ConnectionName>,
    /// The contents of the session.
    pub state: Session,
}

impl Drop for ClientRow {
    fn drop(self) {
        let ClientRow {
            clean: _,
            connection: _connection,
            state: _state,
        } = self;
    }
}

impl Model for ClientRow {
    ghost use Rattle.broker_base.specs.ClientSession.{ClientSession};

    ghost Value = { ClientSession };

    ghost view = { λ row.
        record { clean = row.clean; connection = row.connection; state = row.state } };
}

impl ClientRow {
    /// Returns an empty session that begins on this connection.
    pub fn new(alloc: Global, connection: ConnectionName, clean: bool) -> ClientRow
        ensures { result ≡ session_anew (connection, clean) }
    {
        ClientRow {
            clean,
            connection: Some(connection),
            state: Session::new(alloc),
        }
    }

    /// Resumes a session that is not clean on this connection: appends the retransmissions, then
    /// starts what may start (MQTT 4.4).
    pub fn resume(
        &mut self,
        connection: ConnectionName,
        window: Window,
        sent: &mut Vec<Packet>,
    ) -> Result<(), Halted>
        ensures state { OnOk result
            (self.new ≡ session_resumed window (connection, false) self.old) }
        ensures sends { OnOk result
            (sent.new.items ≡ sent.old.items ++ sent_to_resumed window (Some self.old)) }
    {
        self.clean = false;
        self.connection = Some(connection);
        self.state.resend(sent)?;
        self.state.fill_within(window.size(), sent)?;
        Ok(())
    }
}
