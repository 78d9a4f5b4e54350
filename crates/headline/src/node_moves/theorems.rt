// Theorems about what a node does: the contracts of functions with an empty body. A move without
// losses is a case of those that may have some (`exactly`), so a theorem about these holds of it
// too.

ghost use Rattle.headline.specs.node_moves.Apart.{NamesComeOnce};
ghost use Rattle.headline.specs.node_moves.Settled.{EachLossIsReported, NoneIsSilent};
ghost use Rattle.headline.specs.node_moves.Receipts.{NodeCallsHearAtFirst};
ghost use Rattle.headline.specs.node_moves.BallotNames.{NamesKeepTheirBallot};
ghost use Rattle.headline.specs.node_moves.LossyTheorems.{LossesAreTaken, LossesProposeInOrder, LossesPutInOrder, LossesPutNothingOnClosed, LossesReadInOrder};
ghost use Rattle.headline.specs.node_moves.LossyNames.{LossyNamesAreOfTheBallot, LossyNamesKeepTheirBallot};
ghost use Rattle.headline.specs.node_moves.ItemRuns.{LossesAreMoves};
ghost use Rattle.headline.specs.node_moves.Moves.{NodeCallsAreMoves};

/// States that everything that a node does, its steps and the handing over of bytes, is a run of a
/// few moves. What it reads from a client it proposes, and nothing else. The effects of its replica
/// are handled at once.
pub fn node_calls_are_moves()
    ensures { NodeCallsAreMoves }
{}

/// States that each step of a node, and each handing over of bytes, is such a run in which the
/// replica receives something, or stops, only in the first move.
pub fn node_calls_hear_at_first()
    ensures { NodeCallsHearAtFirst }
{}

/// States that after a tick no connection is silent for longer than its keep alive allows (MQTT
/// 3.1.2.10).
pub fn none_is_silent()
    ensures { NoneIsSilent }
{}

/// States that after each step the loss of every connection that was closed in it because there was
/// no room for its output is reported to the broker.
pub fn each_loss_is_reported()
    ensures { EachLossIsReported }
{}

/// States that each open connection of a node has a name of the ballot that the node leads, except
/// between the moment at which its replica receives something and the settling move after it. So it
/// proposes under a name only in the ballot of that name.
pub fn names_keep_their_ballot()
    ensures { NamesKeepTheirBallot }
{}

/// States that no two connections of a node have one name, and no connection gets a name again that
/// was given and that no connection has. This holds from the opening on, in each step, also in one
/// in which memory ran out, and when bytes are handed over.
pub fn names_come_once()
    ensures { NamesComeOnce }
{}

/// States that each step of a node in which memory ran out is also a run of moves, in which
/// something may be lost. The replica receives what comes with the item, and the bytes of the item
/// arrive on each connection.
pub fn losses_are_moves()
    ensures { LossesAreMoves }
{}

/// States that in each such move, on each connection, a node reads the next packets that the client
/// writes, or none, and proposes exactly these: none is skipped while the connection is open.
pub fn losses_read_in_order()
    ensures { LossesReadInOrder }
{}

/// States that from its opening on, even if memory runs out, a node proposes under the name of a
/// connection the commands of a prefix of what the client writes on it, each once and in order.
pub fn losses_propose_in_order()
    ensures { LossesProposeInOrder }
{}

/// States that each packet that is read in such a move is in the node's log at once: a connection
/// is closed if one of its packets is not taken.
pub fn losses_are_taken()
    ensures { LossesAreTaken }
{}

/// States that on a connection that stays open such a move queues all that its replica's outputs
/// send to it, in order, and nothing else.
pub fn losses_put_in_order()
    ensures { LossesPutInOrder }
{}

/// States that on a connection that is closed after such a move, at most a prefix of its output was
/// queued in the move, and nothing if it was closed before.
pub fn losses_put_nothing_on_closed()
    ensures { LossesPutNothingOnClosed }
{}

/// States that a connection that is new after such a move has the next name of the ballot that the
/// node leads.
pub fn lossy_names_are_of_the_ballot()
    ensures { LossyNamesAreOfTheBallot }
{}

/// States that after such a move each open connection of a node that serves has a name of the
/// ballot that it leads.
pub fn lossy_names_keep_their_ballot()
    ensures { LossyNamesKeepTheirBallot }
{}
