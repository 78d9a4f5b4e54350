// The theorems about one client among others: the contracts of functions with an empty body.

ghost use Rattle.one_client.specs.Ports.{ClientsWithOwnPortsArePromised};
ghost use Rattle.one_client.specs.Promised.{OneClientIsPromised};
ghost use Rattle.one_client.specs.Runs.{ClientsOfRunsArePromised};

/// States that in all steps of any group a client that keeps its side gets what is promised, by
/// each list on which the nodes agree and in which nobody else uses its identifier. What other
/// connections bring may be any bytes (MQTT 4.3.3, 4.4, 4.6).
pub fn one_client_is_promised()
    ensures { OneClientIsPromised }
{}

/// States that it gets the same by ports alone: if each of its connections has a port that is used
/// for no other, and nobody else uses its identifier, the names of its connections follow.
pub fn clients_with_own_ports_are_promised()
    ensures { ClientsWithOwnPortsArePromised }
{}

/// States that it gets the same in each run that nodes have on record, as the one that a server
/// returns: there it is what the server promises, if sockets do what the steps say.
pub fn clients_of_runs_are_promised()
    ensures { ClientsOfRunsArePromised }
{}
