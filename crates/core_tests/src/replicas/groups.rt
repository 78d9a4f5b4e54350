// Groups of machines that add numbers, and small questions that are asked of them.

use ballot_base::{Config, Effect, Members};
use machine::{Memory, Tally, TallyCommand};
use master::{Event, Group};
use std::alloc::Global;

/// Returns a configuration with these members and this primary.
pub fn config(alloc: Global, members: &[u8], primary: u8) -> Result<Config, Memory> {
    Ok(Config {
        members: Members::from_slice(alloc, members)?,
        primary,
    })
}

/// Does an event. Returns false if it is idle.
pub fn let_happen(group: &mut Group<Tally>, event: &Event<TallyCommand>) -> bool {
    group.step(event).is_ok()
}

/// Proposes a number to add to a node, and returns whether it is taken.
pub fn propose(group: &mut Group<Tally>, node: u8, number: u64) -> bool {
    let_happen(group, &Event::Propose(node, TallyCommand::Add(number)))
}

/// Delivers the messages from this number on, and those that follow from these, up to forty.
pub fn go_on(group: &mut Group<Tally>, first: usize) {
    let until = first.saturating_add(40);
    for number in first..until {
        let _ = let_happen(group, &Event::Deliver(number as u64));
    }
}

/// Returns true if these commands are the agreed list.
pub fn agrees(group: &Group<Tally>, commands: &[TallyCommand]) -> bool {
    let (recorded, kept) = group.agreed();
    let front = commands.get(..recorded.len());
    let after = commands.get(recorded.len()..);
    match (front, after) {
        (Some(front), Some(after)) => front == recorded && after == kept,
        _ => false,
    }
}

/// Returns true if the output at an index among those that left is this one.
pub fn gave(group: &Group<Tally>, at: usize, place: u64, total: u64) -> bool {
    match group.left().get(at) {
        Some(Effect::Out(left, output)) => *left == place && *output == total,
        _ => false,
    }
}

/// Returns true if a ballot is active and no step counted a loss.
pub fn is_active(group: &Group<Tally>, ballot: u64) -> bool {
    group.active().0 == ballot && group.losses() == 0
}

/// Returns a group of this many nodes, of which node 1 is the first primary of these members; none
/// if memory runs out.
pub fn opened(alloc: Global, nodes: u8, members: &[u8]) -> Option<Group<Tally>> {
    let members = Members::from_slice(alloc, members).ok()?;
    Group::opening(alloc, nodes, members, 1).ok()
}
