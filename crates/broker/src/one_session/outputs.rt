// Packets as outputs.

ghost use Rattle.std.specs.Prelude.{◌≡◌, ◌++◌, OnOk, map};
ghost use Rattle.broker_spec.specs.declared.command.Output.TheVariants as outputs;

use broker_spec::{ConnectionName, Output};
use machine::Halted;
use packet::Packet;

/// Appends an output `Send` on this connection for each packet, in order.
pub fn send_all(
    connection: ConnectionName,
    sent: Vec<Packet>,
    out: &mut Vec<Output>,
) -> Result<(), Halted>
    ensures { OnOk result
        (out.new.items ≡ out.old.items ++ map (outputs.Send connection) sent.items) }
{
    for packet in sent {
        out.push(Output::Send(connection, packet))?;
    }
    Ok(())
}
