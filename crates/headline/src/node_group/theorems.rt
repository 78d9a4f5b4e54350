// Theorems about groups of nodes: the contracts of functions with an empty body.

ghost use Rattle.headline.specs.node_group.Ballots.{PutsInTheBallotOfTheName};
ghost use Rattle.headline.specs.node_group.Order.{GroupsKeepTheOrder};
ghost use Rattle.headline.specs.node_group.GroupMoments.{GroupsHaveMoments};

/// States that, whatever the nodes of a group, its master and its clients do, the steps of its
/// replicas go through moments for which agreement is proved. What was proposed there is what the
/// nodes proposed to their replicas, in order, and every packet of a connection among it was taken.
pub fn groups_have_moments()
    ensures { GroupsHaveMoments }
{}

/// States that, whatever happens in a group, a node proposes the packets of a connection, including
/// its CONNECT, to its replica only in the ballot of the connection's name.
pub fn puts_in_the_ballot_of_the_name()
    ensures { PutsInTheBallotOfTheName }
{}

/// States that for each connection, the log of each node, and the agreed list, has a prefix of the
/// packets that nodes proposed for it, in the order of proposing (MQTT 4.6).
pub fn groups_keep_the_order()
    ensures { GroupsKeepTheOrder }
{}
