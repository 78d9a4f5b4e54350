// Connect: a client opens a connection (MQTT 3.1).

ghost use Rattle.std.specs.Prelude.{◌≡◌, ◌++◌, [], ◌∷◌, true, false, Some, None, OnOk, IsSome, map};
ghost use Rattle.broker_spec.specs.Answers.{turned_away, close_outputs, welcome};
ghost use Rattle.broker_spec.specs.Connection.{ConnectionName as SpecName};
ghost use Rattle.broker_spec.specs.Commands.{usual_limits};
ghost use Rattle.broker_spec.specs.declared.command.Command.TheVariants as commands;
ghost use Rattle.broker_spec.specs.declared.command.Output.TheVariants as outputs;
ghost use Rattle.broker_base.specs.SessionStep.{session_resumed};
ghost use Rattle.broker_base.specs.State.{session_in};
ghost use Rattle.broker_base.specs.StepAnswers.{connection_of};
ghost use Rattle.broker_base.specs.rows.Owners.{owners_in, with_owner, without_owner};
ghost use Rattle.broker_base.specs.rows.ConnectTheorems.{may_have_session, begins_in};
ghost use Rattle.broker.specs.tables.Tables.{DoesCommand, IsConsistent, IsTied, owners_at, state_in};
ghost use Rattle.broker_base.specs.rows.Published.{session_changed};
ghost use Rattle.broker.specs.tables.Inside.{HasOthersOf, HasOthersThanOwners};
ghost use Rattle.broker.specs.tables.Connect.{connect_outcome, TakesOver};
ghost use Rattle.broker.specs.one_session.OneSession.{sent_to_resumed};

use crate::one_session::{ClientRow, send_all};
use crate::tables::disconnect::{push_close, remove_owner};
use crate::tables::tables::Tables;
use broker_spec::{ConnectionName, MAX_SESSIONS, Output};
use machine::Halted;
use packet::{Connack, Packet};
use packet_base::{ClientId, RefusalCode};
use std::collections::BTreeMap;
use subs_base::SubIndex;

/// The outcome of a Connect on a connection that is no client's current one.
#[derive(Clone, Copy, Debug, PartialEq, Eq)]
pub(crate) enum ConnectOutcome {
    /// A new session begins.
    Begins,
    /// The client's session is resumed.
    Resumes,
    /// The limit of sessions is reached.
    Full,
}

impl Tables {
    /// Handles a Connect. On a connection that is some client's current one it is a violation,
    /// which closes that connection (MQTT-3.1.0-2).
    pub(crate) fn connect(
        &mut self,
        connection: ConnectionName,
        client: &ClientId,
        clean: bool,
        out: &mut Vec<Output>,
    ) -> Result<(), Halted>
        requires { IsConsistent self.old }
        ensures step { OnOk result
            (DoesCommand self.old self.new out.old.items out.new.items
            (commands.Connect connection client.now clean)) }
        ensures tied { OnOk result (IsTied self.new) }
    {
        if self.owners.contains_key(&connection) {
            self.close(connection, out)?;
            return Ok(());
        }
        match self.outcome_of(client, clean) {
            ConnectOutcome::Begins => self.begin(connection, client, clean, out)?,
            ConnectOutcome::Resumes => self.resume(connection, client, clean, out)?,
            ConnectOutcome::Full => turn_away(connection, out)?,
        }
        Ok(())
    }

    // Decides the outcome of a Connect that is no violation. A session is resumed if it exists and
    // neither it nor the Connect is clean. Otherwise a new one begins if the client has one or the
    // limit of sessions allows one more (MQTT 3.1.2.4), and if not, the Connect is refused.
    fn outcome_of(&self, client: &ClientId, clean: bool) -> ConnectOutcome
        ensures { result ≡ connect_outcome (state_in self.now) client.now clean }
    {
        match self.sessions.get(client) {
            Some(row) => {
                if clean || row.clean {
                    ConnectOutcome::Begins
                } else {
                    ConnectOutcome::Resumes
                }
            }
            None => {
                if self.sessions.len() < MAX_SESSIONS {
                    ConnectOutcome::Begins
                } else {
                    ConnectOutcome::Full
                }
            }
        }
    }

    // Begins an empty session in place of any old one of the client (MQTT 3.1.2.4).
    fn begin(
        &mut self,
        connection: ConnectionName,
        client: &ClientId,
        clean: bool,
        out: &mut Vec<Output>,
    ) -> Result<(), Halted>
        requires consistent { IsConsistent self.old }
        requires nobodys { owners_in self.old.sessions.entries connection ≡ None }
        requires room { may_have_session usual_limits (state_in self.old) client.now ≡ true }
        requires begins { begins_in (state_in self.old) client.now clean ≡ true }
        ensures step { OnOk result
            (DoesCommand self.old self.new out.old.items out.new.items
            (commands.Connect connection client.now clean)) }
        ensures tied { OnOk result (IsTied self.new) }
    {
        self.take_client_over(connection, client, false, out)?;
        let row = ClientRow::new(self.alloc, connection, clean);
        self.sessions.insert(client.clone()?, row)?;
        self.index.drop_client(client);
        Ok(())
    }

    // Makes this the client's current connection: closes the old one (MQTT 3.1.4) and appends
    // CONNACK with Session Present (MQTT 3.2.2.2).
    fn take_client_over(
        &mut self,
        connection: ConnectionName,
        client: &ClientId,
        session_present: bool,
        out: &mut Vec<Output>,
    ) -> Result<(), Halted>
        ensures owners { OnOk result (TakesOver self.old connection client.now self.new) }
        ensures outputs { OnOk result
            (out.new.items ≡ out.old.items
            ++ (close_outputs (connection_of (session_in client.now self.old.sessions.entries))
            ++ welcome connection session_present ∷ [])) }
        ensures others { HasOthersThanOwners self.old self.new }
    {
        answer_connect(self.connection_of(client), connection, session_present, out)?;
        let left = self.connection_of(client);
        move_client(&mut self.owners, left, connection, client)
    }

    /// Returns the client's current connection, if it has one.
    pub(crate) fn connection_of(&self, client: &ClientId) -> Option<ConnectionName>
        ensures { result ≡ connection_of (session_in client.now self.now.sessions.entries) }
    {
        match self.sessions.get(client) {
            Some(row) => row.connection,
            None => None,
        }
    }

    // Resumes a session on a new connection: sends the retransmissions, then starts what may start
    // (MQTT 4.4).
    fn resume(
        &mut self,
        connection: ConnectionName,
        client: &ClientId,
        clean: bool,
        out: &mut Vec<Output>,
    ) -> Result<(), Halted>
        requires consistent { IsConsistent self.old }
        requires nobodys { owners_in self.old.sessions.entries connection ≡ None }
        requires resumes { begins_in (state_in self.old) client.now clean ≡ false }
        ensures step { OnOk result
            (DoesCommand self.old self.new out.old.items out.new.items
            (commands.Connect connection client.now clean)) }
        ensures tied { OnOk result (IsTied self.new) }
    {
        self.take_client_over(connection, client, true, out)?;
        self.resume_row(connection, client, out)?;
        Ok(())
    }
}

impl Tables {
    // Resumes the client's row on this connection and appends its packets as outputs.
    fn resume_row(
        &mut self,
        connection: ConnectionName,
        client: &ClientId,
        out: &mut Vec<Output>,
    ) -> Result<(), Halted>
        requires { IsSome (session_in client.now self.old.sessions.entries) }
        ensures sessions { OnOk result
            (self.new.sessions.entries ≡ session_changed client.now
            (session_resumed self.old.window (connection, false)) self.old.sessions.entries) }
        ensures sends { OnOk result
            (out.new.items ≡ out.old.items ++ map (outputs.Send connection)
            (sent_to_resumed self.old.window (session_in client.now self.old.sessions.entries))) }
        ensures others { HasOthersOf self.old self.new }
    {
        let mut sent = Vec::new(self.alloc);
        let row = self.sessions.get_mut(client).unwrap();
        row.resume(connection, self.window, &mut sent)?;
        send_all(connection, sent, out)?;
        Ok(())
    }
}

// Enters the connection in the map as the client's, and removes the client's old one.
fn move_client(
    owners: &mut BTreeMap<ConnectionName, ClientId>,
    left: Option<ConnectionName>,
    connection: ConnectionName,
    client: &ClientId,
) -> Result<(), Halted>
    ensures { OnOk result
        ((name : SpecName) →
        owners_at owners.new.entries name
        ≡ with_owner connection client.now
        (without_owner left (owners_at owners.old.entries)) name) }
{
    remove_owner(owners, left);
    owners.insert(connection, client.clone()?)?;
    Ok(())
}

// Appends the answers to an accepted Connect: the Close of the client's old connection (MQTT
// 3.1.4), then CONNACK with Session Present (MQTT 3.2.2.2).
fn answer_connect(
    left: Option<ConnectionName>,
    connection: ConnectionName,
    session_present: bool,
    out: &mut Vec<Output>,
) -> Result<(), Halted>
    ensures { OnOk result
        (out.new.items ≡ out.old.items
        ++ (close_outputs left ++ welcome connection session_present ∷ [])) }
{
    push_close(left, out)?;
    out.push(Output::Send(
        connection,
        Packet::Connack(Connack::Accepted(session_present)),
    ))?;
    Ok(())
}

// Appends the answers to a Connect over the limit of sessions: CONNACK 3 and Close (MQTT 3.2.2.3).
fn turn_away(connection: ConnectionName, out: &mut Vec<Output>) -> Result<(), Halted>
    ensures { OnOk result
        (out.new.items ≡ out.old.items ++ turned_away connection ∷ outputs.Close connection ∷ []) }
{
    let refused = Packet::Connack(Connack::Refused(RefusalCode::ServerUnavailable));
    out.push(Output::Send(connection, refused))?;
    out.push(Output::Close(connection))?;
    Ok(())
}
