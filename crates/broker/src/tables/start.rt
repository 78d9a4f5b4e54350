// Start: a new ballot begins, and the connections of earlier ballots have ended.

ghost use Rattle.std.specs.Prelude.{◌≡◌, Some, None, if◌then◌else◌};
ghost use Rattle.subs_base.specs.ListIndex.{content_of};
ghost use Rattle.broker_spec.specs.declared.command.Command.TheVariants as commands;
ghost use Rattle.broker_base.specs.rows.Indexed.{all_dropped, clean_clients};
ghost use Rattle.broker_base.specs.rows.ConnectTheorems.{all_left_off};
ghost use Rattle.broker_base.specs.rows.Served.{left_off};
ghost use Rattle.broker.specs.tables.Tables.{IsConsistent, IsTied, state_in, stepped};

use crate::one_session::ClientRow;
use crate::tables::tables::Tables;
use broker_spec::Window;
use packet_base::ClientId;
use std::collections::BTreeMap;
use subs::TreeIndex;
use subs_base::SubIndex;

impl Tables {
    /// Handles a Start: no client has a connection any more, clean sessions are removed, and the
    /// window is the wide one from now on.
    pub(crate) fn start(&mut self, ballot: u64)
        requires { IsConsistent self.old }
        ensures state { state_in self.new ≡ (stepped self.old (commands.Start ballot)).0 }
        ensures tied { IsTied self.new }
    {
        drop_clean_clients(&mut self.index, &self.sessions);
        leave_off_all(&mut self.sessions);
        self.owners.clear();
        self.window = Window::wide();
    }
}

// Drops the clients of clean sessions from the index.
fn drop_clean_clients(index: &mut TreeIndex, sessions: &BTreeMap<ClientId, ClientRow>)
    ensures { content_of index.new
        ≡ all_dropped (clean_clients sessions.now.entries) (content_of index.old) }
{
    for (client, row) in sessions {
        if row.clean {
            index.drop_client(client);
        }
    }
}

// Removes the connection of each session, and each clean session.
fn leave_off_all(sessions: &mut BTreeMap<ClientId, ClientRow>)
    ensures { sessions.new.entries ≡ all_left_off sessions.old.entries }
{
    sessions.retain(|_, row| leave_off(row));
}

// Removes the connection of a session; false if the session is clean and ends.
fn leave_off(row: &mut ClientRow) -> bool
    ensures { left_off row.old ≡ if result then Some row.new else None }
{
    row.connection = None;
    !row.clean
}
