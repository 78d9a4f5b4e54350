// Which messages and ticks have an effect, so that the caller need not copy the others.

ghost use Rattle.std.specs.Prelude.{◌≡◌, ◌↔◌, ◌||◌, ◌&&◌, false, nat_le, nat_lt};
ghost use Rattle.ballot_base.specs.Logs.{places};
ghost use Rattle.ballot_base.specs.Unread.{is_unread};
ghost use Rattle.ballot.specs.Relevance.{is_heeded, repeats, rises};
ghost use Rattle.ballot_base.specs.Protocol.{replica_step};
ghost use Rattle.ballot_base.specs.Protocol.Input.{Receives, Ticks};
ghost use Rattle.ballot_base.specs.StepOutcome.{nothing_done};
ghost use Rattle.ballot_base.specs.Service.{least, raised};

use super::Replica;
use ballot_base::{Body, Message, Progress, Role, least_raised};
use machine::Machine;

impl<M: Machine> Replica<M> {
    /// Returns true if the message would have an effect: change the replica, send something, or
    /// bring a snapshot that has to be read.
    pub fn heeds(&self, message: &Message<M::Command>) -> bool
        ensures { (result ≡ false) ↔
            ((replica_step M.rules self.now.state (Receives message.now)
            ≡ nothing_done M.Output self.now.state)
            × (is_unread M.rules self.now.state message.now.body ≡ false)) }
    {
        self.is_moved_by(message.from, &message.body)
    }

    fn is_moved_by(&self, from: u8, body: &Body<M::Command>) -> bool
        ensures { result ≡ is_heeded self.now.state from body.now }
    {
        match body {
            Body::NewBallot(ballot, _, _, _) => self.joined < *ballot,
            Body::Join(ballot, previous) => self.may_join(*ballot, *previous),
            Body::State(ballot, log) => self.waits_for(*ballot, log.places()),
            Body::Install(ballot, log) => {
                self.lacks(*ballot, log.places()) || self.holds(*ballot)
            }
            Body::Installed(ballot, _) => self.waits_for_answer(from, *ballot),
            Body::Activate(_) => false,
            Body::Activated(ballot) => self.may_begin(*ballot),
            Body::Superseded(ballot) => self.installs(*ballot),
            Body::Append(ballot, place, _) => {
                self.follows(*ballot) && *place <= self.log.places()
            }
            Body::Held(ballot, held) => self.leads(*ballot) && self.learns(from, *held),
            Body::Commit(ballot, held) => self.follows(*ballot) && self.may_apply(*held),
        }
    }

    // Returns true if a Held would raise the member's progress, or let something be committed.
    fn learns(&self, from: u8, held: u64) -> bool
        ensures { result ≡ (rises from held self.now.state.progress
            || nat_lt self.now.state.committed
            (least (places self.now.state.log) (raised from held self.now.state.progress))) }
    {
        would_rise(from, held, &self.progress)
            || self.committed < least_raised(self.log.places(), from, held, &self.progress)
    }

    // Returns true if the log has `held` places and not all of them are applied.
    fn may_apply(&self, held: u64) -> bool
        ensures { result ≡ (nat_le held (places self.now.state.log)
            && nat_lt self.now.state.committed held) }
    {
        held <= self.log.places() && self.committed < held
    }

    /// Returns true if a tick would send anything.
    pub fn speaks(&self) -> bool
        ensures { (result ≡ false) ↔
            (replica_step M.rules self.now.state Ticks ≡ nothing_done M.Output self.now.state) }
    {
        self.would_repeat()
    }

    fn would_repeat(&self) -> bool
        ensures { result ≡ repeats self.now.state self.now.state.role }
    {
        match self.role {
            Role::Backup => false,
            Role::Fetching => !self.previous_members.as_slice().is_empty(),
            Role::Installing => true,
            Role::Active => !self.progress.is_empty(),
        }
    }
}

// Returns true if a member is known to hold less than `held`.
fn would_rise(member: u8, held: u64, progress: &[Progress]) -> bool
    ensures { result ≡ rises member held progress.now }
{
    progress
        .iter()
        .any(|reached| reached.member == member && reached.held < held)
}
