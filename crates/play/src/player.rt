// Playing a script.

ghost use Rattle.std.specs.Prelude.{◌≡◌, ◌<◌, ℕ, OnOk, OnErr, IsErrOf};
ghost use Rattle.script.specs.declared.error.ScriptFault.TheVariants.{Line};
ghost use Rattle.script.specs.Scripts.{Refuses, lines_of};
ghost use Rattle.play.specs.Transcripts.{Plays};
ghost use Rattle.play.specs.Inside.{AppendsLines, AreWritten, PlaysOn, names_of};

use crate::error::PlayError;
use crate::played_world::PlayedWorld;
use script::{Script, ScriptLine, read};
use std::alloc::Global;

/// Plays a script, and appends its transcript. The whole text is read before anything is played.
pub fn play(alloc: Global, text: &[u8], transcript: &mut Vec<u8>) -> Result<(), PlayError>
    ensures played { OnOk result (Plays text.now transcript.old.items transcript.new.items 0) }

    // A text that is no script is refused for its first malformed line, and nothing of it is
    // played.
    ensures refused { (number : ℕ) → IsErrOf result (PlayError.Line number)
        → Refuses (lines_of text.now) (Line number) }
    ensures untouched { (number : ℕ) → IsErrOf result (PlayError.Line number)
        → transcript.new.items ≡ transcript.old.items }

    // If memory ran out in the world, the transcript is still complete.
    ensures out_of_memory { IsErrOf result PlayError.Losses → (losses : ℕ) × ((0 < losses)
        × Plays text.now transcript.old.items transcript.new.items losses) }
{
    let Script { opening, lines } = read(alloc, text)?;
    let mut played = match PlayedWorld::new(alloc, opening) {
        Ok(played) => played,
        Err(error) => return Err(error),
    };
    play_whole(&mut played, lines.as_slice(), transcript)
}

// Plays all lines, and appends their results and the last line.
fn play_whole(
    played: &mut PlayedWorld,
    lines: &[ScriptLine],
    transcript: &mut Vec<u8>,
) -> Result<(), PlayError>
    requires written { AreWritten played.old.recipients.items played.old.world }
    ensures played { OnOk result (PlaysOn (names_of played.old.recipients.items) lines.now
        played.old.world transcript.old.items transcript.new.items 0) }
    ensures form { (number : ℕ) → IsErrOf result (PlayError.Line number) → ⊥ }
    ensures out_of_memory { IsErrOf result PlayError.Losses → (losses : ℕ) × ((0 < losses)
        × PlaysOn (names_of played.old.recipients.items) lines.now played.old.world
        transcript.old.items transcript.new.items losses) }
{
    play_all(played, lines, transcript)?;
    played.end(transcript)
}

/// Plays these lines, one after another, and appends their results.
pub(crate) fn play_all(
    played: &mut PlayedWorld,
    lines: &[ScriptLine],
    transcript: &mut Vec<u8>,
) -> Result<(), PlayError>
    requires written { AreWritten played.old.recipients.items played.old.world }
    ensures lines { OnOk result (AppendsLines (names_of played.old.recipients.items) lines.now
        played.old.world played.new.world transcript.old.items transcript.new.items) }
    ensures memory { OnErr result (IsErrOf result PlayError.Memory) }
{
    for (index, line) in lines.iter().enumerate() {
        played.play(index as u64, line, transcript)?;
    }
    Ok(())
}
