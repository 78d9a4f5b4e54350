// A theorem on writing. The call does nothing; its contract is the theorem.

ghost use Rattle.node_base.specs.connection.Theorems.{NothingIsLeftOut};

use crate::connection::tap::Tap;

/// States that over the whole life of a connection, what was handed over is what was written
/// followed by what is left, in order and without a gap.
pub fn nothing_is_left_out<T: Tap>()
    ensures { NothingIsLeftOut T.hands }
{}
