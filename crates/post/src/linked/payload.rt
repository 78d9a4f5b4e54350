// How many bytes of a message count against what may wait for a link.

ghost use Rattle.std.specs.Prelude.{◌≡◌};
ghost use Rattle.post.specs.Linked.{body_payload, command_payload};

use ballot_base::Body;
use broker_spec::Command;
use packet::Packet;

/// Returns how many bytes of a message count: those of the publication that it carries. A log has
/// none, since one of its kind and ballot waits at most.
pub(crate) fn payload_of(body: &Body<Command>) -> usize
    ensures { result ≡ body_payload body.now }
{
    match body {
        Body::Append(_, _, command) => payload_of_command(command),
        _ => 0,
    }
}

fn payload_of_command(command: &Command) -> usize
    ensures { result ≡ command_payload command.now }
{
    let Command::Packet(_, sized) = command else {
        return 0;
    };
    match sized.packet() {
        Packet::Publish(publish) => publish.payload.as_slice().len(),
        _ => 0,
    }
}
