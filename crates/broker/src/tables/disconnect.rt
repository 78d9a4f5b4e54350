// The end of a connection: its loss, DISCONNECT, and protocol violations (MQTT 3.1.2.4, 3.14.4,
// 4.8).

ghost use Rattle.std.specs.Prelude.{◌≡◌, ◌++◌, [], ◌∷◌, OnOk, OnErr, is_some, true};
ghost use Rattle.broker_spec.specs.Answers.{close_outputs};
ghost use Rattle.broker_spec.specs.Connection.{ConnectionName as SpecName};
ghost use Rattle.broker_spec.specs.declared.command.Command.TheVariants as commands;
ghost use Rattle.broker_spec.specs.declared.command.Output.TheVariants as outputs;
ghost use Rattle.broker_base.specs.rows.Owners.{without_owner};
ghost use Rattle.broker.specs.tables.Tables.{IsConsistent, IsTied, owners_at, state_in, stepped};

use crate::tables::tables::Tables;
use broker_spec::{ConnectionName, Output};
use machine::Halted;
use packet_base::ClientId;
use std::collections::BTreeMap;
use subs_base::SubIndex;

impl Tables {
    /// Ends a connection in the tables and appends nothing: its client has no connection any more,
    /// and a clean session is removed with its subscriptions. If it is no client's current
    /// connection nothing changes.
    pub(crate) fn end_connection(&mut self, connection: ConnectionName)
        requires { IsConsistent self.old }
        ensures state { state_in self.new ≡ (stepped self.old (commands.Lost connection)).0 }
        ensures tied { IsTied self.new }
    {
        let Some(client) = self.owners.remove(&connection) else {
            return;
        };
        if self.sessions[&client].clean {
            self.sessions.remove(&client);
            self.index.drop_client(&client);
            return;
        }
        let row = self.sessions.get_mut(&client).unwrap();
        row.connection = None;
    }

    /// Closes a connection: appends its Close and ends it in the tables.
    pub(crate) fn close(
        &mut self,
        connection: ConnectionName,
        out: &mut Vec<Output>,
    ) -> Result<(), Halted>
        requires { IsConsistent self.old }
        ensures state { OnOk result
            (state_in self.new ≡ (stepped self.old (commands.Lost connection)).0) }
        ensures outputs { OnOk result
            (out.new.items ≡ out.old.items ++ outputs.Close connection ∷ []) }
        ensures tied { OnOk result (IsTied self.new) }
    {
        out.push(Output::Close(connection))?;
        self.end_connection(connection);
        Ok(())
    }
}

/// Appends the Close of a connection, if there is one.
pub(crate) fn push_close(left: Option<ConnectionName>, out: &mut Vec<Output>) -> Result<(), Halted>
    ensures closes { OnOk result (out.new.items ≡ out.old.items ++ close_outputs left) }
    ensures unsent { OnErr result (out.new.items ≡ out.old.items) }
    ensures memory { OnErr result (is_some left ≡ true) }
{
    if let Some(left) = left {
        out.push(Output::Close(left))?;
    }
    Ok(())
}

/// Removes a connection, if there is one, from the map of connections. The session of its client
/// stays as it is.
pub(crate) fn remove_owner(
    owners: &mut BTreeMap<ConnectionName, ClientId>,
    left: Option<ConnectionName>,
)
    ensures { (name : SpecName) →
        owners_at owners.new.entries name ≡ without_owner left (owners_at owners.old.entries) name }
{
    if let Some(left) = left {
        owners.remove(&left);
    }
}
