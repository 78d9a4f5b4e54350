// A world in which a script is played.
//
// A transcript says of each line what it led to, and of each client what it newly accepted. So
// beside the world each client's count of written publications is kept: after a line, `AreWritten`
// holds again, and the next line prints only what is new. A line that cannot happen is idle and
// changes nothing. Memory that runs out within the world is no error at once: the world counts the
// loss, goes on, and the transcript is complete; `Losses` comes at its end. Memory that runs out
// for the transcript itself ends it.

ghost use Rattle.std.specs.Prelude.{◌≡◌, ◌<◌, ◌++◌, ℕ, false, [], map, IfOk, OnOk, OnErr, IsErrOf};
ghost use Rattle.agreement.specs.World.{can_open};
ghost use Rattle.ballot_base.specs.LawfulConfig.{max_node};
ghost use Rattle.headline.specs.packet_world.World.{ClientsAreApart};
ghost use Rattle.world.specs.Events.{WorldOpens};
ghost use Rattle.world.specs.Trace.{AreReached};
ghost use Rattle.world.specs.StandsFor.{IsReached, asked_on};
ghost use Rattle.play.specs.Inside.{Appends, AreWritten, LineComesTo, EndsTranscript, LineWasWritten, lines_unwritten, names_of, new_recipient, written_at};
ghost use Rattle.play.specs.AcceptedLines.{accepted_by_client, accepted_lines, lines_after};

use crate::error::PlayError;
use crate::events::event_of;
use crate::transcript_lines::{write_accepted, write_done, write_end, write_idle};
use ballot_base::Config;
use client_base::Accepted;
use master::Idle;
use packet_base::ClientId;
use script::{Opening, ScriptLine};
use std::alloc::Global;
use world::World;

/// A client, and how many of the publications that it accepted are written.
#[derive(Drop)]
pub(crate) struct Recipient {
    pub(crate) client: ClientId,
    /// The first ones of its accepted publications, so many.
    pub(crate) written: usize,
}

/// A world in which a script is played.
#[derive(Drop)]
pub(crate) struct PlayedWorld {
    alloc: Global,
    /// The world after the lines so far.
    pub(crate) world: World,
    /// Its clients, in order.
    pub(crate) recipients: Vec<Recipient>,
}

impl PlayedWorld {
    /// Returns the world that a script opens.
    pub(crate) fn new(alloc: Global, opening: Opening) -> Result<PlayedWorld, PlayError>
        ensures opened { IfOk result (λ played.
            AreReached opening.nodes opening.config played.world.nodes) }
        ensures exact { ClientsAreApart opening.clients.items → IfOk result (λ played. (reached
            : IsReached opening.nodes opening.config opening.clients.items played.world)
            × (asked_on reached ≡ [])) }
        ensures opens { IfOk result (λ played.
            WorldOpens opening.nodes opening.config opening.clients.items played.world) }
        ensures named { IfOk result (λ played.
            names_of played.recipients.items ≡ opening.clients.items) }
        ensures written { IfOk result (λ played.
            AreWritten played.recipients.items played.world) }
        ensures bad { (number : ℕ) → IsErrOf result (PlayError.Line number)
            → can_open max_node opening.nodes opening.config ≡ false }
        ensures whole { IsErrOf result PlayError.Losses → ⊥ }
        ensures led { IsErrOf result PlayError.Idle → ⊥ }
    {
        let Opening {
            nodes,
            config,
            clients,
        } = opening;
        let Config { members, primary } = config;
        let recipients = recipients_of(alloc, clients.as_slice())?;
        let world = World::opening(alloc, nodes, members, primary, clients.as_slice())?;
        Ok(PlayedWorld {
            alloc,
            world,
            recipients,
        })
    }

    /// Plays one line, and appends its result.
    pub(crate) fn play(
        &mut self,
        index: u64,
        line: &ScriptLine,
        transcript: &mut Vec<u8>,
    ) -> Result<(), PlayError>
        requires written { AreWritten self.old.recipients.items self.old.world }
        ensures lines { OnOk result (Appends (names_of self.old.recipients.items) index line.now
            self.old.world self.new.world transcript.old.items transcript.new.items) }
        ensures written { OnOk result (AreWritten self.new.recipients.items self.new.world) }
        ensures named { OnOk result
            (names_of self.new.recipients.items ≡ names_of self.old.recipients.items) }
        ensures memory { OnErr result (IsErrOf result PlayError.Memory) }
    {
        let came = self.do_line(line)?;
        self.write_line(index, came, transcript)?;
        write_all_new(
            self.alloc,
            &self.world,
            self.recipients.as_mut_slice(),
            transcript,
        )
    }

    // Does the event of a line, if it can happen.
    fn do_line(&mut self, line: &ScriptLine) -> Result<Result<(), Idle>, PlayError>
        ensures comes { IfOk result (λ result.
            LineComesTo line.now self.old.world result self.new.world) }
        ensures recipients { self.new.recipients.items ≡ self.old.recipients.items }
        ensures memory { OnErr result (IsErrOf result PlayError.Memory) }
    {
        match event_of(self.alloc, &self.world, line)? {
            Some(event) => Ok(self.world.step(&event)),
            None => Ok(Err(Idle)),
        }
    }

    // Appends the result of an event.
    fn write_line(
        &self,
        index: u64,
        came: Result<(), Idle>,
        transcript: &mut Vec<u8>,
    ) -> Result<(), PlayError>
        ensures line { OnOk result (LineWasWritten index came self.now.world
            transcript.old.items transcript.new.items) }
        ensures memory { OnErr result (IsErrOf result PlayError.Memory) }
    {
        match came {
            Ok(()) => {
                let messages = self.world.messages();
                let agreed = self.world.agreed_len();
                write_done(self.alloc, index, messages, agreed, transcript)?;
            }
            Err(Idle) => write_idle(self.alloc, index, transcript)?,
        }
        Ok(())
    }

    /// Appends the last line. Fails with `Losses` after that if memory ran out in the world.
    pub(crate) fn end(&self, transcript: &mut Vec<u8>) -> Result<(), PlayError>
        ensures line { OnOk result
            (EndsTranscript self.now.world transcript.old.items transcript.new.items) }
        ensures whole { OnOk result (self.now.world.losses ≡ 0) }
        ensures out_of_memory { IsErrOf result PlayError.Losses
            → EndsTranscript self.now.world transcript.old.items transcript.new.items }
        ensures losses { IsErrOf result PlayError.Losses → 0 < self.now.world.losses }
        ensures form { (number : ℕ) → IsErrOf result (PlayError.Line number) → ⊥ }
    {
        let active = self.world.active();
        write_end(self.alloc, self.world.agreed_len(), active, transcript)?;
        if self.world.losses() == 0 {
            Ok(())
        } else {
            Err(PlayError::Losses)
        }
    }
}

// Returns the clients, with nothing written of what they accepted.
fn recipients_of(alloc: Global, clients: &[ClientId]) -> Result<Vec<Recipient>, PlayError>
    ensures made { IfOk result (λ made. made.items ≡ map new_recipient clients.now) }
    ensures memory { OnErr result (IsErrOf result PlayError.Memory) }
{
    let mut recipients = Vec::new(alloc);
    for client in clients {
        recipients.push(Recipient {
            client: client.clone()?,
            written: 0,
        })?;
    }
    Ok(recipients)
}

// Appends what clients accepted and is not yet written.
fn write_all_new(
    alloc: Global,
    world: &World,
    recipients: &mut [Recipient],
    transcript: &mut Vec<u8>,
) -> Result<(), PlayError>
    ensures recipients { OnOk result (recipients.new ≡ map (written_at world.now) recipients.old) }
    ensures lines { OnOk result (transcript.new.items
        ≡ transcript.old.items ++ lines_unwritten recipients.old world.now) }
    ensures memory { OnErr result (IsErrOf result PlayError.Memory) }
{
    for recipient in recipients.iter_mut() {
        write_new(alloc, world, recipient, transcript)?;
    }
    Ok(())
}

// Appends what one client accepted and is not yet written.
fn write_new(
    alloc: Global,
    world: &World,
    recipient: &mut Recipient,
    transcript: &mut Vec<u8>,
) -> Result<(), PlayError>
    ensures recipient { OnOk result (recipient.new ≡ written_at world.now recipient.old) }
    ensures lines { OnOk result (transcript.new.items ≡ transcript.old.items
        ++ lines_after recipient.old.written recipient.old.client world.now) }
    ensures memory { OnErr result (IsErrOf result PlayError.Memory) }
{
    let accepted = accepted_by_client(world, &recipient.client);
    let written = recipient.written.min(accepted.len());
    write_each(alloc, &recipient.client, &accepted[written..], transcript)?;
    recipient.written = accepted.len();
    Ok(())
}

// Returns the publications that a client accepted; none if there is no such client.
fn accepted_by_client<'a>(world: &'a World, client: &ClientId) -> &'a [Accepted]
    ensures { result.now ≡ accepted_by_client client.now world.now }
{
    match world.client(client) {
        Some(core) => core.accepted(),
        None => &[],
    }
}

// Appends the lines of publications that a client accepted.
fn write_each(
    alloc: Global,
    client: &ClientId,
    accepted: &[Accepted],
    transcript: &mut Vec<u8>,
) -> Result<(), PlayError>
    ensures lines { OnOk result (transcript.new.items
        ≡ transcript.old.items ++ accepted_lines client.now accepted.now) }
    ensures memory { OnErr result (IsErrOf result PlayError.Memory) }
{
    for one in accepted {
        write_accepted(alloc, client, one, transcript)?;
    }
    Ok(())
}
