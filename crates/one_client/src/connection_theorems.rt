// Theorems about connections on which any bytes come: the contracts of functions with an empty
// body.

ghost use Rattle.one_client.specs.ConnectsFirst.{ConnectsCameFirst};
ghost use Rattle.one_client.specs.Names.{NamesGoWithPorts, PortsHaveNames};
ghost use Rattle.one_client.specs.Proposals.{AgreedPacketsWereProposed, NamesConnectOnce, ProposalsAreInRange};

/// States that if a node is told only once that a connection was opened at a port, then at any time
/// the name that the node gave it belongs to that connection and to no other of any node.
pub fn names_go_with_ports()
    ensures { NamesGoWithPorts }
{}

/// States that the connection at a port of which a node is told at most once has a name: the one
/// that its node gave it, or, if it never accepted one there, a spare one.
pub fn ports_have_names()
    ensures { PortsHaveNames }
{}

/// States that, whatever bytes come to the nodes of a group, each packet that they propose is in
/// its ranges, so it can be spelled, and its connection has a name that one may have.
pub fn proposals_are_in_range()
    ensures { ProposalsAreInRange }
{}

/// States that, whatever bytes come to the nodes of a group, they propose at most one Connect under
/// each name (MQTT 3.1).
pub fn names_connect_once()
    ensures { NamesConnectOnce }
{}

/// States that, whatever bytes come to the nodes of a group, they propose a Connect only for a
/// connection on which a CONNECT of this client came first (MQTT 3.1).
pub fn connects_came_first()
    ensures { ConnectsCameFirst }
{}

/// States that each packet in a list on which nodes agree was proposed by a node. So nobody else
/// uses a client's identifier there, if no node proposes a Connect with it on another connection.
pub fn agreed_packets_were_proposed()
    ensures { AgreedPacketsWereProposed }
{}
