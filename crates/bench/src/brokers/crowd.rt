// Sessions that exist in addition to what is measured.

use crate::brokers::clients::Clients;
use anyhow::Result;
use packet::Subscription;
use packet_base::QoS;
use std::alloc::Global;
use topics::Filter;

/// How many filters a session has: as many as it may.
pub const FILTERS: u32 = 64;

/// Where the numbers of the crowd's connections begin.
const FIRST: u64 = 1_000;

/// Whose filters the sessions of a crowd have.
#[derive(Clone, Copy)]
pub enum Filters {
    /// All sessions have the same ones.
    Shared,
    /// The first one is shared, and all others are a session's own.
    Own,
}

impl Filters {
    /// Returns its name as the figures show it.
    pub fn name(self) -> &'static str {
        match self {
            Filters::Shared => "that they share",
            Filters::Own => "of their own",
        }
    }
}

/// Connects this many clients, subscribes them to filters, and ends their connections: their
/// sessions stay.
pub fn gather(clients: &mut Clients, alloc: Global, sessions: u32, filters: Filters) -> Result<()> {
    for session in 0..sessions {
        visit(clients, alloc, session, filters)?;
    }
    Ok(())
}

fn visit(clients: &mut Clients, alloc: Global, session: u32, filters: Filters) -> Result<()> {
    let count = FIRST.saturating_add(u64::from(session));
    enter(clients, alloc, session, count)?;
    let owner = match filters {
        Filters::Shared => None,
        Filters::Own => Some(session),
    };
    clients.subscribe(count, wanted(alloc, FILTERS, owner)?)?;
    clients.lose(count)
}

// Connects the client of a session.
fn enter(clients: &mut Clients, alloc: Global, session: u32, count: u64) -> Result<()> {
    let name = format!(in alloc; "beside-{session}")?;
    clients.connect(count, name.as_str())
}

/// Returns this many filters, which the sessions share, or of which all but the first are a
/// session's own.
pub fn wanted(alloc: Global, filters: u32, owner: Option<u32>) -> Result<Vec<Subscription>> {
    let mut wanted = Vec::new(alloc);
    put_all(alloc, filters, owner, &mut wanted)?;
    Ok(wanted)
}

// Adds these filters. The list is lent, so that no exit from the loop has to drop it.
fn put_all(
    alloc: Global,
    filters: u32,
    owner: Option<u32>,
    wanted: &mut Vec<Subscription>,
) -> Result<()> {
    for which in 0..filters {
        wanted.push(subscription(alloc, which, owner)?)?;
    }
    Ok(())
}

fn subscription(alloc: Global, which: u32, owner: Option<u32>) -> Result<Subscription> {
    let text = match owner {
        Some(owner) if 0 < which => format!(in alloc; "own/{owner}/{which}")?,
        _ => format!(in alloc; "house/{which}/+/light")?,
    };
    Ok(Subscription {
        filter: Filter::new(alloc, text.as_str())?,
        qos: QoS::AtLeastOnce,
    })
}
