// What is looked at after each event.

use crate::looks::{Broken, Watch, made_by};
use packet_base::{ClientId, QoS};
use world::World;
use world_pipes::events::Event;

/// Takes note of an event that happened. None if it ran out of memory, as in each call here.
pub fn note(watch: &mut Watch, event: &Event, clients: &[ClientId]) -> Option<()> {
    let index = |name: &ClientId| clients.iter().position(|it| it == name);
    match event {
        Event::Publish(name, sent) if sent.qos != QoS::AtMostOnce => {
            let (_, serial) = made_by(&sent.payload)?;
            watch.note_published(index(name)?, serial)
        }
        Event::Open(name, _) => {
            watch.note_opened(index(name)?);
            Some(())
        }
        Event::Expel(name, _) => {
            watch.note_expelled(index(name)?);
            Some(())
        }
        _ => Some(()),
    }
}

/// Looks at a world, and returns what does not hold.
pub fn look(watch: &mut Watch, world: &World, clients: &[ClientId]) -> Option<Result<(), Broken>> {
    let (first, second) = world.agreed();
    let agreed = watch.look_at_agreed(world.agreed_len(), first, second, world.losses())?;
    if agreed.is_err() {
        return Some(agreed);
    }
    for (index, name) in clients.iter().enumerate() {
        if let Some(core) = world.client(name) {
            let looked = watch.look_at_client(index, name, core)?;
            if looked.is_err() {
                return Some(looked);
            }
        }
    }
    Some(Ok(()))
}

/// Looks at the agreed list once more from its beginning, and returns what does not hold.
pub fn look_again(watch: &Watch, world: &World) -> Option<Result<(), Broken>> {
    let (first, second) = world.agreed();
    watch.read_again(first, second)
}
