// The recovery from the world in which a script ends.

ghost use Rattle.std.specs.Prelude.{◌≡◌, ◌++◌, ℕ, OnOk, OnErr, IsErrOf};
ghost use Rattle.script.specs.declared.error.ScriptFault.TheVariants.{Line};
ghost use Rattle.script.specs.Scripts.{Refuses, lines_of};
ghost use Rattle.play.specs.Recoveries.{HasNoRecovery, TellsRecovery, event_lines};

use crate::error::PlayError;
use crate::event_lines::write_event;
use crate::played_world::PlayedWorld;
use crate::player::play_all;
use packet_base::ClientId;
use script::{Script, read};
use std::alloc::Global;
use world_pipes::events::Event;

/// Plays a script, and appends a recovery from the world in which it ends, as lines that may follow
/// the script. No transcript is written. Fails with [`PlayError::Idle`] if there is none, as
/// `World::escape`.
pub fn escape(
    alloc: Global,
    text: &[u8],
    members: &[u8],
    client: &ClientId,
    way: &mut Vec<u8>,
) -> Result<(), PlayError>
    ensures written { OnOk result
        (TellsRecovery text.now members.now client.now way.old.items way.new.items) }
    ensures idle { IsErrOf result PlayError.Idle → HasNoRecovery text.now members.now client.now }

    // A text that is no script is refused for its first malformed line.
    ensures refused { (number : ℕ) → IsErrOf result (PlayError.Line number)
        → Refuses (lines_of text.now) (Line number) }
{
    let Script { opening, lines } = read(alloc, text)?;
    let mut played = match PlayedWorld::new(alloc, opening) {
        Ok(played) => played,
        Err(error) => return Err(error),
    };
    let mut transcript = Vec::new(alloc);
    play_all(&mut played, lines.as_slice(), &mut transcript)?;
    if played.world.losses() > 0 {
        return Err(PlayError::Losses);
    }
    let events = played.world.escape(members, client)?;
    write_events(alloc, events.as_slice(), way)
}

fn write_events(alloc: Global, events: &[Event], way: &mut Vec<u8>) -> Result<(), PlayError>
    ensures lines { OnOk result (way.new.items ≡ way.old.items ++ event_lines events.now) }
    ensures memory { OnErr result (IsErrOf result PlayError.Memory) }
{
    for event in events {
        write_event(alloc, event, way)?;
    }
    Ok(())
}
