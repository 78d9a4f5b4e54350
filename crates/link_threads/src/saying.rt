// Writing the messages that were taken for a link.

ghost use Rattle.std.specs.Prelude.{◌≡◌, OnOk};
ghost use Rattle.link_threads.specs.Says.{AddsAll};

use broker_spec::Command;
use links::LinkWriter;
use links::link_queue::Waiting;
use links::message_form::WriteFault;

/// Adds messages, in their order, to what is to be written. Fails at the first that no link
/// carries, since it has more than 1 GiB, or for which memory runs out.
pub(crate) fn add_all(writer: &mut LinkWriter, taken: &[Waiting<Command>]) -> Result<(), WriteFault>
    ensures { OnOk result (AddsAll writer.old taken.now writer.new) }
{
    for waiting in taken {
        writer.add_message(&waiting.message)?;
    }
    Ok(())
}
