// Tables of rows: the first row that does not hold, and what the world shows then.

use crate::worlds::world_rows::row::{Row, Said, Table, accepted, is_right, is_said, opened};
use broker_spec::Command;
use std::alloc::Global;
use world::World;

/// What came in place of what a row says, besides what a `Fault` shows of each world.
#[derive(Clone, Copy, Debug, PartialEq, Eq)]
pub enum Came {
    /// Nothing more.
    Nothing,
    /// This many bytes wait, and these are the first of them.
    Bytes(usize, [u8; 16]),
    /// The client accepted this many publications, the last of them in this session.
    Accepted(usize, u64),
    /// The agreed command at this index is the first other one, and it is such a one.
    Agreed(usize, &'static str),
}

/// A row that does not hold, and what the world shows then.
#[derive(Clone, Copy, Debug, PartialEq, Eq)]
pub struct Fault {
    /// The index of the row. If all rows hold and a step ran out of memory, it is the index after
    /// the last one.
    pub at: usize,
    /// The row; none after the last one.
    pub row: Option<&'static Row>,
    /// How many messages were sent.
    pub messages: u64,
    /// How many commands are agreed.
    pub agreed: u64,
    /// Which ballot is active.
    pub ballot: u64,
    /// What came in place of what the row says.
    pub came: Came,
}

/// What is told of a table whose world does not open.
pub const UNOPENED: Fault = Fault {
    at: 0,
    row: None,
    messages: 0,
    agreed: 0,
    ballot: 0,
    came: Came::Nothing,
};

/// Returns the first of these tables that has a row which does not hold, and the first such row.
pub fn fault_in(alloc: Global, tables: &[Table]) -> Option<(&'static str, Fault)> {
    for (name, nodes, members, rows) in tables {
        if let Some(fault) = fault_of(alloc, *nodes, members, *rows) {
            return Some((*name, fault));
        }
    }
    None
}

// Returns the first row of a table that does not hold.
fn fault_of(alloc: Global, nodes: u8, members: &[u8], rows: &'static [Row]) -> Option<Fault> {
    match opened(alloc, nodes, members) {
        Some(mut world) => {
            let fault = first_fault(alloc, &mut world, rows);
            drop(world);
            fault
        }
        None => Some(UNOPENED),
    }
}

// Returns the first row that does not hold for this world.
fn first_fault(alloc: Global, world: &mut World, rows: &'static [Row]) -> Option<Fault> {
    for (at, row) in rows.iter().enumerate() {
        if !is_right(alloc, world, row) {
            return Some(fault_at(alloc, world, at, row));
        }
    }
    fault_after(world, rows.len())
}

/// Returns what this world shows at a row that does not hold.
pub fn fault_at(alloc: Global, world: &World, at: usize, row: &'static Row) -> Fault {
    Fault {
        at,
        row: Some(row),
        messages: world.messages(),
        agreed: world.agreed_len(),
        ballot: world.active(),
        came: what_came(alloc, world, row),
    }
}

/// Returns what this world shows after this many rows, if a step lost something.
pub fn fault_after(world: &World, rows: usize) -> Option<Fault> {
    if world.losses() == 0 {
        return None;
    }
    Some(Fault {
        at: rows,
        row: None,
        messages: world.messages(),
        agreed: world.agreed_len(),
        ballot: world.active(),
        came: Came::Nothing,
    })
}

// Returns what came in a world in place of what a row says.
fn what_came(alloc: Global, world: &World, row: &Row) -> Came {
    match row {
        Row::HasUp(connection, _) => waiting(world.up(*connection)),
        Row::HasDown(connection, _) => waiting(world.down(*connection)),
        Row::Took(client, _, _) => {
            let (count, session) = accepted(alloc, world, client).unwrap_or((0, 0));
            Came::Accepted(count, session)
        }
        Row::Agrees(list) => first_fault_of_agreed(world, list),
        _ => Came::Nothing,
    }
}

// Returns how many bytes wait, and the first of them.
fn waiting(bytes: &[u8]) -> Came {
    let mut first = [0; 16];
    for (to, byte) in first.iter_mut().zip(bytes) {
        *to = *byte;
    }
    Came::Bytes(bytes.len(), first)
}

// Returns the first agreed command that is not the one of the list.
fn first_fault_of_agreed(world: &World, list: &[Said]) -> Came {
    let (recorded, kept) = world.agreed();
    let mut at: usize = 0;
    for command in recorded.iter().chain(kept.iter()) {
        if !is_said_at(command, list, at) {
            return Came::Agreed(at, kind_of(command));
        }
        at = at.saturating_add(1);
    }
    Came::Agreed(at, "none")
}

// Returns true if a command is the one of the list at this index.
fn is_said_at(command: &Command, list: &[Said], at: usize) -> bool {
    match list.get(at) {
        Some(said) => is_said(command, said),
        None => false,
    }
}

// Returns what kind a command is.
fn kind_of(command: &Command) -> &'static str {
    match command {
        Command::Connect(_, _, false) => "a CONNECT that keeps the session",
        Command::Connect(_, _, true) => "a CONNECT with a clean session",
        Command::Packet(_, _) => "another packet",
        Command::Start(_) => "the start of a ballot",
        Command::Expel(_) => "the end of a session",
        Command::Lost(_) => "the end of a connection",
    }
}
