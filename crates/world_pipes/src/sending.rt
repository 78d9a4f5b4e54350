// Sending what a client writes.

ghost use Rattle.std.specs.Prelude.{◌≡◌, ◌<◌, true, length, OnOk, OnErr, IsErrOf};
ghost use Rattle.world_pipes.specs.Inside.{MovesUp, SendsUp};

use crate::pair::PipePair;
use client::ClientCore;
use client_base::ClientError;

/// The outcome of a call that writes.
#[derive(Clone, Copy, Debug, PartialEq, Eq)]
pub enum Sending {
    /// It is in transit on the newest connection.
    Sent,
    /// There was no memory for it, and the connection is lost.
    Lost,
}

/// Moves what a client wrote into the pipe of the connection that it holds, if any. If memory runs
/// out, the connection is lost.
pub(crate) fn send_up(core: &mut ClientCore, pairs: &mut Vec<PipePair>, holds: &mut bool) -> Sending
    requires { holds.old ≡ true → 0 < length pairs.old.items }
    ensures { SendsUp holds.old core.old pairs.old.items result holds.new core.new pairs.new.items }
{
    if !*holds {
        return Sending::Sent;
    }
    if move_up(core, pairs).is_ok() {
        return Sending::Sent;
    }
    core.lost();
    *holds = false;
    Sending::Lost
}

/// Moves what a client wrote into the newest connection's pipe. If memory runs out, nothing
/// changes.
pub(crate) fn move_up(core: &mut ClientCore, pairs: &mut Vec<PipePair>) -> Result<(), ClientError>
    requires { 0 < length pairs.old.items }
    ensures ok { OnOk result (MovesUp core.old pairs.old.items core.new pairs.new.items) }
    ensures memory { OnErr result (IsErrOf result ClientError.Memory) }
    ensures same { OnErr result (core.new ≡ core.old) }
    ensures err { OnErr result (pairs.new.items ≡ pairs.old.items) }
{
    let newest = pairs.len() - 1;
    let pair = &mut pairs[newest];
    pair.up.follow(core)
}
