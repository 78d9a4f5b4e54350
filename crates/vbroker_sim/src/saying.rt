// What a client says to its broker.

use crate::draw::Draw;
use crate::looks::payload_of;
use packet_base::{ClientId, Payload, QoS};
use session_base::Publication;
use std::alloc::Global;
use topics::{Filter, TopicName};
use world_pipes::events::Event;

/// The topics of a run.
const TOPICS: [&str; 4] = ["t/1", "t/2", "u", "t/1/x"];

/// The filters of a run.
const FILTERS: [&str; 8] = ["t/#", "#", "t/1", "t/#", "t/+", "#", "+", "+/1/#"];

/// Draws a subscription. None if it ran out of memory.
pub fn subscribed(alloc: Global, draw: &mut Draw, name: &ClientId) -> Option<Event> {
    let filter = filter(alloc, draw)?;
    let qos = qos(draw);
    Some(Event::Subscribe(name.clone().ok()?, filter, qos))
}

/// Draws an unsubscription. None if it ran out of memory.
pub fn unsubscribed(alloc: Global, draw: &mut Draw, name: &ClientId) -> Option<Event> {
    let filter = filter(alloc, draw)?;
    Some(Event::Unsubscribe(name.clone().ok()?, filter))
}

// Draws a filter.
fn filter(alloc: Global, draw: &mut Draw) -> Option<Filter> {
    let text = FILTERS.get(draw.below(8) as usize)?;
    Filter::new(alloc, text).ok()
}

// Draws a QoS, mostly QoS 2.
fn qos(draw: &mut Draw) -> QoS {
    match draw.below(8) {
        0 => QoS::AtMostOnce,
        1 => QoS::AtLeastOnce,
        _ => QoS::ExactlyOnce,
    }
}

/// Draws a publication that carries which client made it, by its index, and its number. None if it
/// ran out of memory.
pub fn published(
    alloc: Global,
    draw: &mut Draw,
    name: &ClientId,
    index: u8,
    serial: u64,
) -> Option<Event> {
    let sent = publication(alloc, draw, &payload_of(index, serial))?;
    Some(Event::Publish(name.clone().ok()?, sent))
}

// Draws the publication of a payload.
fn publication(alloc: Global, draw: &mut Draw, payload: &[u8]) -> Option<Publication> {
    let topic = TOPICS.get(draw.below(4) as usize)?;
    Some(Publication {
        retain: draw.one_in(16),
        qos: qos(draw),
        topic: TopicName::new(alloc, topic).ok()?,
        payload: Payload::new(alloc, payload).ok()?,
    })
}
