// A world of nodes and clients, joined by pipes of bytes, in which each event is chosen.

use crate::bytes::{ACCEPTED, PUBLISH, PUBREC, SUBACK, SUBSCRIBE};
use crate::names::Names;
use crate::node_steps::{self, config_of};
use anyhow::Result;
use packet::{ClientId, Payload, QoS};
use std::alloc::Global;
use topics::{Filter, TopicName};
use world::{Event, Idle, Members, Publication, World};

/// Uses `world`.
pub fn run<R: Print>(rt: &R, alloc: Global) -> Result<()> {
    let mut names = Names::of("world");
    node_steps::run(alloc, &mut names)?;
    use_world(alloc, &mut names)?;
    names.print(rt)
}

// Opens two nodes, of which 1 is the sole member of ballot 1, and the clients `a` and `b`.
fn use_world(alloc: Global, names: &mut Names) -> Result<()> {
    let mut clients = Vec::new(alloc);
    put_clients(alloc, &mut clients)?;
    let members = Members::from_slice(alloc, &[1])?;
    let mut world = World::opening(alloc, 2, members, 1, clients.as_slice())?;
    names.uses("World::opening", world.agreed_len() == 0);
    let played = play(alloc, &mut world, clients.as_slice(), names);
    drop(world);
    played
}

// Adds the clients. The list is lent, so that it is dropped in one place.
fn put_clients(alloc: Global, clients: &mut Vec<ClientId>) -> Result<()> {
    clients.push(ClientId::new(alloc, "a")?)?;
    clients.push(ClientId::new(alloc, "b")?)?;
    Ok(())
}

// Lets events happen, each kind at least once.
fn play(alloc: Global, world: &mut World, clients: &[ClientId], names: &mut Names) -> Result<()> {
    let [a, b] = clients else {
        return Ok(());
    };
    connect_client(world, a, names)?;
    subscribe_client(alloc, world, a, names)?;
    connect_and_publish(alloc, world, a, b, names)?;
    leave(alloc, world, a, b, names)?;
    take_over(alloc, world, names)?;
    escape(world, a, names)
}

// Lets an event happen, and drops it.
fn step(world: &mut World, event: Event) -> Result<(), Idle> {
    let stepped = world.step(&event);
    drop(event);
    stepped
}

// Lets an event happen, and returns true if it can.
fn happens(world: &mut World, event: Event) -> bool {
    step(world, event) == Ok(())
}

// Opens a connection of a client to node 1, and lets the node answer its CONNECT.
fn connects(world: &mut World, client: &ClientId, connection: u64) -> Result<bool> {
    let is_open = happens(world, Event::Open(client.clone()?, 1));
    Ok(
        is_open
            && happens(world, Event::CarryUp(connection, 15))
            && world.down(connection) == ACCEPTED
            && happens(world, Event::CarryDown(connection, 4)),
    )
}

// Connects client `a`, event by event.
fn connect_client(world: &mut World, a: &ClientId, names: &mut Names) -> Result<()> {
    names.uses("Event::Open", happens(world, Event::Open(a.clone()?, 1)));
    names.uses("World::up", world.up(1).len() == 15);
    names.uses("Event::CarryUp", happens(world, Event::CarryUp(1, 15)));
    names.uses("World::down", world.down(1) == ACCEPTED);
    names.uses("Event::CarryDown", happens(world, Event::CarryDown(1, 4)));
    let is_connected = world.client(a).is_some_and(|core| core.connected());
    names.uses("World::client", is_connected);
    names.uses("World::agreed_len", world.agreed_len() == 1);
    Ok(())
}

// Client `a` subscribes to `t/#` at QoS 2.
fn subscribe_client(
    alloc: Global,
    world: &mut World,
    a: &ClientId,
    names: &mut Names,
) -> Result<()> {
    let event = Event::Subscribe(a.clone()?, Filter::new(alloc, "t/#")?, QoS::ExactlyOnce);
    let is_subscribed = happens(world, event) && world.up(1) == SUBSCRIBE;
    let is_granted = happens(world, Event::CarryUp(1, 10)) && world.down(1) == SUBACK;
    names.uses("Event::Subscribe", is_subscribed && is_granted);
    names.uses("World::step", step(world, Event::CarryDown(1, 5)) == Ok(()));
    names.uses("Idle", step(world, Event::CarryDown(1, 5)) == Err(Idle));
    Ok(())
}

// Client `b` publishes, and `a` accepts it.
fn connect_and_publish(
    alloc: Global,
    world: &mut World,
    a: &ClientId,
    b: &ClientId,
    names: &mut Names,
) -> Result<()> {
    let is_connected = connects(world, b, 2)?;
    let event = Event::Publish(b.clone()?, publication(alloc)?);
    let is_published = is_connected && happens(world, event) && world.up(2) == PUBLISH;
    let is_answered = happens(world, Event::CarryUp(2, 10)) && world.down(2) == PUBREC;
    let is_right = is_published && is_answered && world.down(1) == PUBLISH;
    names.uses("Event::Publish", is_right);
    let is_carried = happens(world, Event::CarryDown(1, 10));
    let accepted = world
        .client(a)
        .is_some_and(|core| core.accepted().len() == 1);
    names.uses("ClientCore", is_carried && accepted);
    let (front, back) = world.agreed();
    names.uses("World::agreed", front.iter().chain(back).count() == 4);
    Ok(())
}

// Returns `x` on `t/1` at QoS 2.
fn publication(alloc: Global) -> Result<Publication> {
    let topic = TopicName::new(alloc, "t/1")?;
    Ok(Publication {
        retain: false,
        qos: QoS::ExactlyOnce,
        topic,
        payload: Payload::new(alloc, b"x")?,
    })
}

// Client `a` unsubscribes and disconnects, which node 1 notices; `b` loses its connection.
fn leave(
    alloc: Global,
    world: &mut World,
    a: &ClientId,
    b: &ClientId,
    names: &mut Names,
) -> Result<()> {
    let event = Event::Unsubscribe(a.clone()?, Filter::new(alloc, "t/#")?);
    names.uses("Event::Unsubscribe", happens(world, event));
    let is_right = happens(world, Event::Disconnect(a.clone()?));
    names.uses("Event::Disconnect", is_right);
    names.uses("Event::Notice", happens(world, Event::Notice(1)));
    names.uses("Event::Abandon", happens(world, Event::Abandon(b.clone()?)));
    names.uses("Event::Tick", happens(world, Event::Tick(1)));
    Ok(())
}

// Node 2 takes over: the master assigns a ballot, and each message is delivered.
fn take_over(alloc: Global, world: &mut World, names: &mut Names) -> Result<()> {
    names.uses("World::messages", world.messages() == 0);
    let is_right = happens(world, Event::Assign(config_of(alloc, 2)?));
    names.uses("Event::Assign", is_right);
    let mut is_delivered = true;
    for number in 0..5 {
        is_delivered = happens(world, Event::Deliver(number)) && is_delivered;
    }
    names.uses("Event::Deliver", is_delivered && world.messages() == 5);
    names.uses("World::active", world.active() == 2);
    Ok(())
}

// Finds the events that lead to node 1 as the primary, and client `a` online, and lets them happen.
fn escape(world: &mut World, a: &ClientId, names: &mut Names) -> Result<()> {
    let way = world.escape(&[1], a)?;
    let is_right = matches!(way.first(), Some(Event::Assign(_)));
    names.uses("World::escape", is_right);
    world.run(way.as_slice());
    drop(way);
    let is_present = world
        .client(a)
        .is_some_and(|core| core.connected() && core.present());
    names.uses("World::run", is_present && world.active() == 3);
    names.uses("Event::Crash", happens(world, Event::Crash(2)));
    names.uses("World::losses", world.losses() == 0);
    Ok(())
}
