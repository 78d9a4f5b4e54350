// Theorems about every world of clients and nodes: the contracts of functions with an empty body.

ghost use Rattle.headline.specs.packet_world.Agreed.{AgreedKeepsTheOrder};
ghost use Rattle.headline.specs.packet_world.Exact.{PacketWorldsAreExact};
ghost use Rattle.headline.specs.packet_world.Groups.{GroupsServe};
ghost use Rattle.headline.specs.packet_world.PutOut.{GivenIsPutOut, GroupsPutOut};
ghost use Rattle.headline.specs.packet_world.Served.{WorldsAreServed};

use machine::Machine;

/// States that, whatever clients, nodes and the network between them do, connections carry packets
/// in order. The publications of each client that is in step are published once. What it accepts in
/// each of its sessions is in order, and an ended session gets nothing more. For this the nodes
/// have to agree on one list of commands that only grows, in which each connection's commands are
/// in order.
pub fn packet_worlds_are_exact()
    ensures { PacketWorldsAreExact }
{}

/// States that if the list on which the nodes agree grows, and keeps for each connection the order
/// in which its packets were proposed, a world reaches the longer list. So its steps need no more
/// from the nodes than their agreement.
pub fn worlds_are_served()
    ensures { WorldsAreServed }
{}

/// States that of the commands that were taken only in one ballot, such as those of one connection,
/// the list on which nodes agree has a prefix in the order of proposing. The past says which were
/// taken.
pub fn agreed_keeps_the_order<M: Machine>()
    ensures { AgreedKeepsTheOrder M.rules }
{}

/// States that a group of nodes serves the world, if they take of each connection the packets that
/// its end has read, in order and in the ballot of its name, and none of other connections. What it
/// agrees on next is a list to which the world comes.
pub fn groups_serve()
    ensures { GroupsServe }
{}

/// States that the outputs of the broker's machine at the next places of the agreed list, none left
/// out, may be sent on an open end of a connection, as far as they are for it: a world reaches a
/// state that has them.
pub fn given_is_put_out()
    ensures { GivenIsPutOut }
{}

/// States the same of all outputs of a node of a group between two moments of a ballot that it
/// leads, on an open end that has what the node output before.
pub fn groups_put_out()
    ensures { GroupsPutOut }
{}
