// Events as lines of a script, which `vbroker play` reads.

use ballot_base::Config;
use packet_base::ClientId;
use session_base::Publication;
use std::alloc::{AllocError, Global};
use world_pipes::events::Event;

/// Returns the line of an event. Errors: out of memory.
pub fn line_of(alloc: Global, event: &Event) -> Result<String, AllocError> {
    match event {
        Event::Assign(config) => assignment(alloc, config),
        Event::Deliver(message) => format!(in alloc; "deliver {message}"),
        Event::Tick(node) => format!(in alloc; "tick {node}"),
        Event::Cut(node) => format!(in alloc; "cut {node}"),
        Event::Expel(client, node) => format!(in alloc; "expel {client} {node}"),
        Event::Crash(node) => format!(in alloc; "crash {node}"),
        Event::Open(client, node) => format!(in alloc; "open {client} {node}"),
        Event::CarryUp(connection, count) => format!(in alloc; "up {connection} {count}"),
        Event::CarryDown(connection, count) => format!(in alloc; "down {connection} {count}"),
        Event::Abandon(client) => format!(in alloc; "abandon {client}"),
        Event::Disconnect(client) => format!(in alloc; "disconnect {client}"),
        Event::Notice(connection) => format!(in alloc; "notice {connection}"),
        Event::Publish(client, sent) => publication(alloc, client, sent),
        Event::Subscribe(client, filter, qos) => {
            let level = qos.number();
            format!(in alloc; "subscribe {client} {filter} {level}")
        }
        Event::Unsubscribe(client, filter) => format!(in alloc; "unsubscribe {client} {filter}"),
    }
}

// Returns the line of a script for an Assign.
fn assignment(alloc: Global, config: &Config) -> Result<String, AllocError> {
    let mut line = String::from_str(alloc, "assign")?;
    let mut mark = " ";
    for member in config.members.as_slice() {
        line.push_str(format!(in alloc; "{mark}{member}")?.as_str())?;
        mark = ",";
    }
    let primary = config.primary;
    line.push_str(format!(in alloc; " {primary}")?.as_str())?;
    Ok(line)
}

// Returns the line of a script for a publication.
fn publication(alloc: Global, client: &ClientId, sent: &Publication) -> Result<String, AllocError> {
    let topic = &sent.topic;
    let qos = sent.qos.number();
    let retain = u8::from(sent.retain);
    let mut line = format!(in alloc; "publish {client} {topic} {qos} {retain} ")?;
    for byte in sent.payload.as_slice() {
        line.push_str(format!(in alloc; "{byte:02x}")?.as_str())?;
    }
    Ok(line)
}
