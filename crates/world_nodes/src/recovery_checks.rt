// The master's ballot and bound, and conditions of a recovery.

ghost use Rattle.std.specs.Prelude.{◌≡◌, ◌<◌, ◌++◌, ◌↔◌, [], ◌∷◌, None, Some, true, false, IfOk, OnOk};
ghost use Rattle.agreement.specs.MasterState.{refusal};
ghost use Rattle.ballot_base.specs.LawfulConfig.{max_node};
ghost use Rattle.machine.specs.Machine.{replay_from};
ghost use Rattle.world_base.specs.node_core.Core.{CountedCore, rules};
ghost use Rattle.broker_spec.specs.Connection.{first_connection};
ghost use Rattle.world_nodes.specs.RecoveryChecks.{is_present, is_welcome, whole_log_of, welcomes_back};
ghost use Rattle.world_nodes.specs.RunningNodes.{numbered_node};

use crate::nodes::Nodes;
use ballot_base::Config;
use broker::BrokerMachine;
use broker_spec::{Command, ConnectionName, Output};
use machine::{Machine, Memory};
use packet::{Connack, Packet};
use packet_base::ClientId;
use std::alloc::Global;

impl Nodes {
    /// Returns the active ballot and its members.
    pub fn active(&self) -> (u64, &[u8])
        ensures ballot { result.0 ≡ self.now.master.active }
        ensures members { result.1.now ≡ self.now.master.members }
    {
        self.master.active()
    }

    /// Returns the greatest number that a member may have, 15.
    pub fn greatest(&self) -> u8
        ensures is { result ≡ self.now.master.greatest }
        ensures bound { result ≡ max_node }
    {
        self.master.greatest()
    }

    /// Returns true if [`Nodes::assign`] would assign the next ballot to the configuration.
    pub fn can_assign(&self, config: &Config) -> bool
        ensures { (result ≡ true) ↔ (refusal self.now.master config.now ≡ None) }
    {
        self.master.can_assign(config)
    }

    /// Returns true if a client's CONNECT would be answered with session present after the whole
    /// log of a node, agreed or not, and the start of a ballot; false for an unknown node. Thaws a
    /// broker from the log's snapshot, or opens one if there is none, and applies the rest. Fails
    /// only with [`Memory`].
    pub fn welcomes_back(&self, node: u8, client: &ClientId) -> Result<bool, Memory>
        ensures known { (core : CountedCore) → numbered_node self.now.nodes node ≡ Some core →
            IfOk result (λ welcomes. welcomes
            ≡ welcomes_back client.now (whole_log_of self.now node)) }
        ensures unknown { numbered_node self.now.nodes node ≡ None →
            IfOk result (λ welcomes. welcomes ≡ false) }
    {
        let Some(core) = self.node(node) else {
            return Ok(false);
        };
        let (base, snapshot) = core.snapshot();
        let mut machine = machine_of(self.alloc, base, snapshot)?;
        apply_all(self.alloc, &mut machine, core.rest())?;
        welcomes(self.alloc, &mut machine, client)
    }
}

// Returns the machine at the base of a log.
fn machine_of(alloc: Global, base: u64, snapshot: &[u8]) -> Result<BrokerMachine, Memory>
    ensures fresh { base ≡ 0 → IfOk result (λ machine. machine ≡ rules.opening) }
    ensures thawed { 0 < base → IfOk result (λ machine. rules.thawed snapshot.now ≡ Some machine) }
{
    if base == 0 {
        return BrokerMachine::fresh(alloc);
    }
    match BrokerMachine::thaw(alloc, snapshot) {
        Ok(machine) => Ok(machine),
        // The bytes always thaw: a broker froze them.
        Err(_) => Err(Memory),
    }
}

// Applies commands to a machine, and drops their outputs.
fn apply_all(alloc: Global, machine: &mut BrokerMachine, commands: &[Command]) -> Result<(), Memory>
    ensures { OnOk result (machine.new ≡ replay_from rules machine.old commands.now) }
{
    for command in commands {
        let mut given = Vec::new(alloc);
        apply(machine, command, &mut given)?;
    }
    Ok(())
}

fn apply(
    machine: &mut BrokerMachine,
    command: &Command,
    given: &mut Vec<Output>,
) -> Result<(), Memory>
    ensures state { OnOk result (machine.new ≡ rules.after machine.old command.now) }
    ensures outputs { OnOk result
        (given.new.items ≡ given.old.items ++ rules.gives machine.old command.now) }
{
    match machine.apply(command, given) {
        Ok(()) => Ok(()),
        Err(_) => Err(Memory),
    }
}

// Returns true if a machine, after a ballot's start, would answer a client's CONNECT with session
// present.
fn welcomes(alloc: Global, machine: &mut BrokerMachine, client: &ClientId) -> Result<bool, Memory>
    ensures { IfOk result (λ welcomes. welcomes ≡ is_welcome
        (rules.gives (rules.after machine.old (Command.Start 1))
        (Command.Connect first_connection client.now false))) }
{
    let Some(name) = ConnectionName::new(1, 1) else {
        unreachable!()
    };
    let mut given = Vec::new(alloc);
    apply(machine, &Command::Start(1), &mut given)?;
    let mut answers = Vec::new(alloc);
    let connect = Command::Connect(name, client.clone()?, false);
    apply(machine, &connect, &mut answers)?;
    Ok(is_welcome(&answers))
}

// Returns true if the first output is a CONNACK 0 with session present.
fn is_welcome(outputs: &[Output]) -> bool
    ensures { result ≡ is_welcome outputs.now }
{
    match outputs.first() {
        Some(output) => is_present(output),
        None => false,
    }
}

// Returns true if an output is a CONNACK 0 with session present.
fn is_present(output: &Output) -> bool
    ensures { result ≡ is_present output.now }
{
    match output {
        Output::Send(_, packet) => match packet {
            Packet::Connack(connack) => match connack {
                Connack::Accepted(present) => *present,
                Connack::Refused(_) => false,
            },
            _ => false,
        },
        Output::Close(_) => false,
    }
}
