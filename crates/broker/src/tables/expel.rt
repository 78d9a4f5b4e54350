// An Expel: an administrator ends a client's session.

ghost use Rattle.std.specs.Prelude.{◌≡◌, OnOk, OnErr, true, false};
ghost use Rattle.broker_base.specs.form.Needs.{needs_to_apply};
ghost use Rattle.broker_spec.specs.declared.command.Command.TheVariants as commands;
ghost use Rattle.broker.specs.tables.Tables.{DoesCommand, IsConsistent, IsTied, state_in};

use crate::tables::disconnect::{push_close, remove_owner};
use crate::tables::tables::Tables;
use broker_spec::Output;
use machine::Halted;
use packet_base::ClientId;
use subs_base::SubIndex;

impl Tables {
    /// Removes a client's session, with its subscriptions, received identifiers and entries, and
    /// closes its connection. Without a session nothing changes. Only the Close takes memory: if
    /// there is none for it, nothing has changed.
    pub(crate) fn expel(&mut self, client: &ClientId, out: &mut Vec<Output>) -> Result<(), Halted>
        requires { IsConsistent self.old }
        ensures step { OnOk result
            (DoesCommand self.old self.new out.old.items out.new.items
            (commands.Expel client.now)) }
        ensures tied { OnOk result (IsTied self.new) }
        ensures stays { OnErr result (self.new ≡ self.old) }
        ensures unsent { OnErr result (out.new.items ≡ out.old.items) }
        ensures memory { OnErr result
            (needs_to_apply (state_in self.old) (commands.Expel client.now) ≡ true) }
        ensures silent { needs_to_apply (state_in self.old) (commands.Expel client.now) ≡ false →
            out.new.items ≡ out.old.items }
    {
        let Some(_row) = self.sessions.get(client) else {
            return Ok(());
        };
        push_close(self.connection_of(client), out)?;
        let left = self.connection_of(client);
        remove_owner(&mut self.owners, left);
        self.sessions.remove(client);
        self.index.drop_client(client);
        Ok(())
    }
}
