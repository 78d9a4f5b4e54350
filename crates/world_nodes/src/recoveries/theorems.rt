// Theorems about nodes in a recovery: the contracts of functions with an empty body.

ghost use Rattle.world_nodes.specs.recoveries.Answered.{
  OthersLetTheClientBeAnswered,
  SoleMemberAnswersTheClient,
};
ghost use Rattle.world_nodes.specs.recoveries.Deliveries.{DeliveriesAreFollowed};
ghost use Rattle.world_nodes.specs.recoveries.Led.{NodesAreLedOut};
ghost use Rattle.world_nodes.specs.recoveries.Opened.{ConnectionsOpenFirst, WelcomedAreKept};

/// States that nodes change as the deliveries of a recovery change their replicas, if its messages
/// reach them, by their numbers and without losses. Connections do not matter, nor what is handed
/// over meanwhile, and no node accepts a connection.
pub fn deliveries_are_followed()
    ensures { DeliveriesAreFollowed }
{}

/// States that an Assign of a configuration whose nodes run, and the messages of a recovery, by
/// their numbers, lead nodes to the next ballot, whatever happened before and whichever logs they
/// cut. The ballot is active, and all its members hold the log of the member that was asked,
/// followed by the ballot's start. That is the agreed list, and what was agreed before is a prefix
/// of it.
pub fn nodes_are_led_out()
    ensures { NodesAreLedOut }
{}

/// States that a sole member that leads its ballot first sends CONNACK 0 with session present when
/// it reads the CONNECT of a client whose session exists and is not clean (MQTT 3.1.2.4, 3.2.2.2).
pub fn sole_member_answers_the_client()
    ensures { SoleMemberAnswersTheClient }
{}

/// States that the same holds for a primary with other members. They are sent the command and
/// answer, by messages of known numbers, and the last answer makes the primary queue the CONNACK
/// first, whatever is handed over in between.
pub fn others_let_the_client_be_answered()
    ensures { OthersLetTheClientBeAnswered }
{}

/// States that a connection which opens at the new primary, at a port that is new to it, awaits its
/// CONNECT there under the first name of the ballot, whatever bytes are handed over meanwhile. The
/// primary still leads the ballot with the same log.
pub fn connections_open_first()
    ensures { ConnectionsOpenFirst }
{}

/// States that a client's CONNECT would be answered with session present, after some commands and a
/// ballot's start, exactly if the client has a session after these commands that is not clean (MQTT
/// 3.1.2.4, 3.2.2.2).
pub fn welcomed_are_kept()
    ensures { WelcomedAreKept }
{}
