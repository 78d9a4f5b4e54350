// A theorem about clients in worlds: the contract of a function with an empty body.

ghost use Rattle.world_pipes.specs.Steps.{ClientsStepInWorlds};

/// States that what a client does without its nodes is a step of every world in which it is a
/// client.
pub fn clients_step_in_worlds()
    ensures { ClientsStepInWorlds }
{}
