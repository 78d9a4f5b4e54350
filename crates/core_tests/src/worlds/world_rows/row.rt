// Rows of what happens in a world, and of what is seen of it.

use ballot_base::{Config, Members};
use broker_spec::Command;
use machine::Memory;
use packet_base::{ClientId, Payload, QoS};
use session_base::Publication;
use std::alloc::Global;
use topics::{Filter, TopicName};
use world::World;
use world_pipes::events::Event;

// The packets that several tables have, as MQTT 3.1.1 spells them.

/// CONNECT (3.1) of client `a`: 13 bytes follow, the protocol's name, its level 4, no flag, so that
/// the session is kept, no keep alive, and the Client Identifier.
pub const CONNECT_A: &[u8] = b"\x10\x0D\x00\x04MQTT\x04\x00\x00\x00\x00\x01a";

/// That of client `b`.
pub const CONNECT_B: &[u8] = b"\x10\x0D\x00\x04MQTT\x04\x00\x00\x00\x00\x01b";

/// CONNACK (3.2), accepted, without a session.
pub const ABSENT: &[u8] = b"\x20\x02\x00\x00";

/// The same with Session Present.
pub const PRESENT: &[u8] = b"\x20\x02\x01\x00";

/// PUBLISH (3.3) at QoS 2, no RETAIN: 8 bytes follow, the Topic Name, Packet Identifier 1 and the
/// payload.
pub const PUBLISH: &[u8] = b"\x34\x08\x00\x03t/1\x00\x01x";

/// The same sent again, with DUP.
pub const PUBLISH_AGAIN: &[u8] = b"\x3C\x08\x00\x03t/1\x00\x01x";

/// What a subscriber is sent when it comes back: its session is present, and the publication again.
pub const PRESENT_AND_PUBLISH: &[u8] = b"\x20\x02\x01\x00\x3C\x08\x00\x03t/1\x00\x01x";

/// PUBREC (3.5) of Packet Identifier 1.
pub const PUBREC: &[u8] = b"\x50\x02\x00\x01";

/// PUBREL of it, whose lower bits are 0010 (3.6).
pub const PUBREL: &[u8] = b"\x62\x02\x00\x01";

/// No bytes wait.
pub const NOTHING: &[u8] = b"";

/// What happens.
#[derive(Clone, Copy, Debug, PartialEq, Eq)]
pub enum Action {
    Assign(&'static [u8], u8),
    Deliver(u64),
    Tick(u8),
    Cut(u8),
    Crash(u8),
    /// The session of a client is ended, by this node.
    Expel(&'static str, u8),
    Open(&'static str, u8),
    /// All bytes that wait on a connection go up, or down.
    Up(u64),
    Down(u64),
    /// This many of them do.
    UpSome(u64, u64),
    DownSome(u64, u64),
    Abandon(&'static str),
    Disconnect(&'static str),
    Notice(u64),
    /// A client publishes `x` about `t/1` at QoS 2.
    Publish(&'static str),
    /// A client subscribes to `t/#` at QoS 2.
    Subscribe(&'static str),
}

/// What a command of the agreed list is.
#[derive(Clone, Copy, Debug, PartialEq, Eq)]
pub enum Said {
    /// The CONNECT of a client.
    Connect(&'static str),
    /// Another packet of a client.
    Packet,
    /// A ballot begins.
    Start(u64),
    /// The session of a client ends.
    Expel(&'static str),
}

/// How many messages were sent in all.
#[derive(Clone, Copy, Debug, PartialEq, Eq)]
pub struct Sent(pub u64);

/// How many commands are agreed.
#[derive(Clone, Copy, Debug, PartialEq, Eq)]
pub struct Agreed(pub u64);

/// A session of a client, by its number; 0 is none.
#[derive(Clone, Copy, Debug, PartialEq, Eq)]
pub struct Session(pub u64);

/// What happens in a world, or is seen of it. The rules of `ballot_base` say how many messages are
/// sent. The primary sends each command to the other members as an Append. Each answers Held, and
/// once all hold it the primary sends each a Commit. A tick of an active primary sends each the
/// Append that it lacks, and a Commit. The master sends a NewBallot to the primary of a ballot, and
/// this a Join to each member before, who answers State. It sends an Install to each other member
/// of its own, who answers Installed, and then Activate to the master. The master answers
/// Activated, and the command that starts the ballot follows; or Superseded, if the ballot neither
/// waits nor is active.
#[derive(Clone, Copy, Debug, PartialEq, Eq)]
pub enum Row {
    /// This happens. Then these messages were sent, and these commands are agreed.
    Does(Action, Sent, Agreed),
    /// This cannot happen.
    Idle(Action),
    /// These bytes wait to go up on a connection, or down.
    HasUp(u64, &'static [u8]),
    HasDown(u64, &'static [u8]),
    /// A client accepted this many publications, the last of them in this session.
    Took(&'static str, usize, Session),
    /// This ballot is active.
    Active(u64),
    /// These commands are agreed, in this order.
    Agrees(&'static [Said]),
}

/// What a table shows; how many nodes its world has, the members of ballot 1, whose primary is node
/// 1; and what happens in it, in order.
pub type Table = (&'static str, u8, &'static [u8], &'static [Row]);

/// Returns a world of `nodes` nodes and clients `a` and `b`. These are the members of ballot 1, and
/// node 1 is its primary.
pub fn opened(alloc: Global, nodes: u8, members: &[u8]) -> Option<World> {
    let mut clients = Vec::new(alloc);
    put_clients(alloc, &mut clients)?;
    let Config { members, primary } = config_of(alloc, members, 1)?;
    World::opening(alloc, nodes, members, primary, clients.as_slice()).ok()
}

// Adds both. The list is lent, so that no exit from the loop has to drop it.
fn put_clients(alloc: Global, clients: &mut Vec<ClientId>) -> Option<()> {
    for name in &["a", "b"] {
        clients.push(named(alloc, name)?).ok()?;
    }
    Some(())
}

// Returns a configuration.
fn config_of(alloc: Global, members: &[u8], primary: u8) -> Option<Config> {
    let members: Result<Members, Memory> = Members::from_slice(alloc, members);
    Some(Config {
        members: members.ok()?,
        primary,
    })
}

/// Returns true if a row holds for a world.
pub fn is_right(alloc: Global, world: &mut World, row: &Row) -> bool {
    match row {
        Row::Does(action, sent, agreed) => {
            let_happen(alloc, world, action)
                && world.messages() == sent.0
                && world.agreed_len() == agreed.0
        }
        Row::Idle(action) => !let_happen(alloc, world, action),
        Row::HasUp(connection, bytes) => are_same(world.up(*connection), bytes),
        Row::HasDown(connection, bytes) => are_same(world.down(*connection), bytes),
        Row::Took(client, count, session) => match accepted(alloc, world, client) {
            Some((found, last)) => found == *count && (found == 0 || last == session.0),
            None => false,
        },
        Row::Active(ballot) => world.active() == *ballot,
        Row::Agrees(list) => agrees_on(world, list),
    }
}

// Returns true if the bytes that wait are these.
fn are_same(waiting: &[u8], bytes: &[u8]) -> bool {
    waiting == bytes
}

// Returns true if these commands are agreed, in this order.
fn agrees_on(world: &World, list: &[Said]) -> bool {
    let (recorded, kept) = world.agreed();
    match list.get(..recorded.len()) {
        Some(front) => are_said(recorded, front) && are_said(kept, &list[recorded.len()..]),
        None => false,
    }
}

// Returns true if these are the commands, in this order.
fn are_said(commands: &[Command], list: &[Said]) -> bool {
    for (command, said) in commands.iter().zip(list.iter()) {
        if !is_said(command, said) {
            return false;
        }
    }
    commands.len() == list.len()
}

/// Returns true if a command is this one.
pub(crate) fn is_said(command: &Command, said: &Said) -> bool {
    match (command, said) {
        (Command::Connect(_, client, false), Said::Connect(name)) => client.as_str() == *name,
        (Command::Packet(_, _), Said::Packet) => true,
        (Command::Start(ballot), Said::Start(number)) => *ballot == *number,
        (Command::Expel(client), Said::Expel(name)) => client.as_str() == *name,
        _ => false,
    }
}

/// Does the event of an action. Returns false if it cannot happen.
pub fn let_happen(alloc: Global, world: &mut World, action: &Action) -> bool {
    match event_of(alloc, world, action) {
        Some(event) => {
            let happened = world.step(&event).is_ok();
            drop(event);
            happened
        }
        None => false,
    }
}

// Returns the event for a row's entry.
fn event_of(alloc: Global, world: &World, action: &Action) -> Option<Event> {
    match action {
        Action::Assign(members, primary) => {
            Some(Event::Assign(config_of(alloc, members, *primary)?))
        }
        Action::Deliver(number) => Some(Event::Deliver(*number)),
        Action::Tick(node) => Some(Event::Tick(*node)),
        Action::Cut(node) => Some(Event::Cut(*node)),
        Action::Crash(node) => Some(Event::Crash(*node)),
        Action::Up(number) => Some(Event::CarryUp(*number, world.up(*number).len() as u64)),
        Action::Down(number) => Some(Event::CarryDown(*number, world.down(*number).len() as u64)),
        Action::UpSome(number, count) => Some(Event::CarryUp(*number, *count)),
        Action::DownSome(number, count) => Some(Event::CarryDown(*number, *count)),
        Action::Notice(number) => Some(Event::Notice(*number)),
        _ => call_of(alloc, action),
    }
}

// Returns the event of what a client does.
fn call_of(alloc: Global, action: &Action) -> Option<Event> {
    match action {
        Action::Open(client, node) => Some(Event::Open(named(alloc, client)?, *node)),
        Action::Expel(client, node) => Some(Event::Expel(named(alloc, client)?, *node)),
        Action::Abandon(client) => Some(Event::Abandon(named(alloc, client)?)),
        Action::Disconnect(client) => Some(Event::Disconnect(named(alloc, client)?)),
        Action::Publish(client) => Some(Event::Publish(named(alloc, client)?, publication(alloc)?)),
        Action::Subscribe(client) => {
            let filter = Filter::new(alloc, "t/#").ok()?;
            Some(Event::Subscribe(named(alloc, client)?, filter, QoS::ExactlyOnce))
        }
        _ => None,
    }
}

/// Returns a client's name.
pub fn named(alloc: Global, client: &str) -> Option<ClientId> {
    ClientId::new(alloc, client).ok()
}

// Returns a publication of `x` about `t/1`.
fn publication(alloc: Global) -> Option<Publication> {
    Some(Publication {
        retain: false,
        qos: QoS::ExactlyOnce,
        topic: TopicName::new(alloc, "t/1").ok()?,
        payload: Payload::new(alloc, b"x").ok()?,
    })
}

/// Returns how many publications a client accepted, and the session of the last, or 0.
pub(crate) fn accepted(alloc: Global, world: &World, client: &str) -> Option<(usize, u64)> {
    let name = named(alloc, client)?;
    let accepted = world.client(&name)?.accepted();
    let session = accepted.last().map(|last| last.session).unwrap_or(0);
    Some((accepted.len(), session))
}
