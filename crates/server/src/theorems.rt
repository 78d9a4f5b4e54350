// Theorems on runs that were served. The calls do nothing; their contracts are the theorems.

ghost use Rattle.server.specs.Ports.{PortsComeOnce};
ghost use Rattle.server.specs.Promised.{ServedClientsArePromised};

use one_client::clients_of_runs_are_promised;

/// States that in a run that was served no node took twice that a connection was opened at a port.
pub fn ports_come_once()
    ensures { PortsComeOnce }
{}

/// States that in a run that was served a client that keeps its side gets what is promised, if no
/// two of its connections have one port, and nobody else uses its identifier (MQTT 4.3.3, 4.4,
/// 4.6).
pub fn served_clients_are_promised()
    ensures { ServedClientsArePromised }
{
    clients_of_runs_are_promised();
    ports_come_once();
}
