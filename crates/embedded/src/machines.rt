// Machines that replicas run: one that adds numbers, and the broker.

use crate::bytes::{
    ACCEPTED, DISCONNECT, PUBLISH, PUBREC, SUBACK, SUBSCRIBE, is_spelled, packet_of,
};
use crate::names::Names;
use anyhow::{Result, anyhow};
use broker::{BrokerMachine, Command, ConnectionName, Output, SizedPacket};
use machine::{Halted, Machine, Memory, Tally, TallyCommand, ThawFault};
use packet::ClientId;
use std::alloc::Global;

/// Uses `machine` and `broker`.
pub fn run<R: Print>(rt: &R, alloc: Global) -> Result<()> {
    use_machine(alloc)?.print(rt)?;
    use_broker(alloc)?.print(rt)
}

// Adds 2 and 3 by a tally.
fn use_machine(alloc: Global) -> Result<Names> {
    let mut names = Names::of("machine");
    let mut tally = Tally::fresh(alloc)?;
    names.uses("Machine::fresh", has_total(alloc, &tally, 0));
    let start = Tally::start(2);
    names.uses("Machine::start", start == TallyCommand::Start(2));
    names.uses("Machine::copy", Tally::copy(alloc, &start) == Ok(start));
    let mut totals = Vec::new(alloc);
    let commands = [TallyCommand::Add(2), start, TallyCommand::Add(3)];
    let is_applied = apply_all(&mut tally, &commands, &mut totals).is_ok();
    let is_right = is_applied && totals.as_slice() == [2, 5].as_slice();
    names.uses("Machine::apply", is_right);
    names.uses("Machine::freeze", has_total(alloc, &tally, 5));
    let is_right = Tally::thaw(alloc, &5u64.to_be_bytes()) == Ok(tally);
    names.uses("Machine::thaw", is_right);
    let is_right = Tally::thaw(alloc, &[]) == Err(ThawFault::Shape);
    names.uses("ThawFault", is_right);
    names.uses("Halted", Halted.number() == 17);
    names.uses("Memory", Memory.number() == 12);
    Ok(names)
}

// Applies commands to any machine, and appends its outputs.
fn apply_all<M: Machine>(
    machine: &mut M,
    commands: &[M::Command],
    out: &mut Vec<M::Output>,
) -> Result<(), Halted> {
    for command in commands {
        machine.apply(command, out)?;
    }
    Ok(())
}

// Returns true if a tally is frozen to this total.
fn has_total(alloc: Global, tally: &Tally, total: u64) -> bool {
    let mut bytes = Vec::new(alloc);
    tally.freeze(&mut bytes).is_ok() && bytes.as_slice() == total.to_be_bytes().as_slice()
}

// Makes a broker in ballot 1, and lends it, so that it is dropped in one place.
fn use_broker(alloc: Global) -> Result<Names> {
    let mut names = Names::of("broker");
    let mut broker = BrokerMachine::fresh(alloc)?;
    let is_right = gives(alloc, &mut broker, BrokerMachine::start(1), &[]);
    names.uses("BrokerMachine", is_right);
    let connected = connect(alloc, &mut broker, &mut names);
    let published = publish(alloc, &mut broker, &mut names);
    drop(broker);
    connected?;
    published?;
    Ok(names)
}

// Connects client `a` on connection 1 of ballot 1, and `b` on connection 2.
fn connect(alloc: Global, broker: &mut BrokerMachine, names: &mut Names) -> Result<()> {
    let (first, second) = (connection(1)?, connection(2)?);
    names.uses("ConnectionName", first.ballot() == 1 && second.count() == 2);
    let a = Command::Connect(first, ClientId::new(alloc, "a")?, false);
    let is_right = gives(alloc, broker, a, &[(1, ACCEPTED)]);
    names.uses("Command::Connect", is_right);
    let b = Command::Connect(second, ClientId::new(alloc, "b")?, false);
    names.uses("Output::Send", gives(alloc, broker, b, &[(2, ACCEPTED)]));
    Ok(())
}

// Returns the connection of this number in ballot 1.
fn connection(count: u64) -> Result<ConnectionName> {
    ConnectionName::new(1, count).ok_or_else(|| anyhow!("no connection has the number {count}"))
}

// `b` subscribes, `a` publishes, both leave, and the next ballot begins.
fn publish(alloc: Global, broker: &mut BrokerMachine, names: &mut Names) -> Result<()> {
    let subscribe = packet_on(alloc, 2, SUBSCRIBE)?;
    let is_right = gives(alloc, broker, subscribe, &[(2, SUBACK)]);
    names.uses("SizedPacket", is_right);
    let publish = packet_on(alloc, 1, PUBLISH)?;
    let is_right = gives(alloc, broker, publish, &[(1, PUBREC), (2, PUBLISH)]);
    names.uses("Command::Packet", is_right);
    let disconnect = packet_on(alloc, 2, DISCONNECT)?;
    let is_right = gives(alloc, broker, disconnect, &[(2, CLOSED)]);
    names.uses("Output::Close", is_right);
    let lost = Command::Lost(connection(1)?);
    names.uses("Command::Lost", gives(alloc, broker, lost, &[]));
    let is_right = gives(alloc, broker, Command::Start(2), &[]);
    names.uses("Command::Start", is_right);
    Ok(())
}

// Returns the command that a packet of these bytes arrived on a connection.
fn packet_on(alloc: Global, count: u64, bytes: &[u8]) -> Result<Command> {
    let name = connection(count)?;
    let packet = SizedPacket::new(packet_of(alloc, bytes)?)?;
    Ok(Command::Packet(name, packet))
}

/// Stands for a connection that is closed.
const CLOSED: &[u8] = &[];

// Applies a command, and returns true if this is what is sent on which connections.
fn gives(
    alloc: Global,
    broker: &mut BrokerMachine,
    command: Command,
    wanted: &[(u64, &[u8])],
) -> bool {
    let mut outputs = Vec::new(alloc);
    let is_applied = broker.apply(&command, &mut outputs).is_ok();
    drop(command);
    is_applied
        && outputs.len() == wanted.len()
        && outputs
            .iter()
            .zip(wanted)
            .all(|(output, row)| is_output(alloc, output, row))
}

// Returns true if an output sends these bytes on the connection of this number, or closes it.
fn is_output(alloc: Global, output: &Output, wanted: &(u64, &[u8])) -> bool {
    let (count, bytes) = wanted;
    match output {
        Output::Send(name, packet) => name.count() == *count && is_spelled(alloc, packet, bytes),
        Output::Close(name) => name.count() == *count && bytes.is_empty(),
    }
}
