// Applying one command of the log.

ghost use Rattle.std.specs.Prelude.{◌≡◌, OnErr, OnOk, true, false};
ghost use Rattle.broker_base.specs.form.Needs.{needs_to_apply};
ghost use Rattle.broker.specs.tables.Tables.{DoesCommand, IsConsistent, IsTied, state_in};

use crate::tables::tables::Tables;
use broker_spec::{Command, Output};
use machine::Halted;

impl Tables {
    /// Applies one command and appends its outputs. `Halted` if memory ran out: the tables may then
    /// be half changed and must not be used again.
    pub fn apply(&mut self, command: &Command, out: &mut Vec<Output>) -> Result<(), Halted>
        requires { IsConsistent self.old }
        ensures step { OnOk result
            (DoesCommand self.old self.new out.old.items out.new.items command.now) }
        ensures tied { OnOk result (IsTied self.new) }
        ensures memory { OnErr result (needs_to_apply (state_in self.old) command.now ≡ true) }
        ensures silent { needs_to_apply (state_in self.old) command.now ≡ false →
            out.new.items ≡ out.old.items }
    {
        match command {
            Command::Connect(connection, client, clean) => {
                self.connect(*connection, client, *clean, out)
            }
            Command::Packet(connection, packet) => self.handle_packet(
                *connection,
                packet.packet(),
                out,
            ),
            Command::Lost(connection) => {
                self.end_connection(*connection);
                Ok(())
            }
            Command::Start(ballot) => {
                self.start(*ballot);
                Ok(())
            }
            Command::Expel(client) => self.expel(client, out),
        }
    }
}
