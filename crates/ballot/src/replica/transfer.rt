// Transferring a log to a new ballot: NewBallot, Join, State, Install.

ghost use Rattle.std.specs.Prelude.{◌≡◌, ◌≤◌, ◌<◌, ◌&&◌, ◌==◌, Some, true, false, nat_lt};
ghost use Rattle.std.specs.Prelude.{nat_le, if◌then◌else◌};
ghost use Rattle.std.specs.Bool.{OnTrue, OnFalse};
ghost use Rattle.ballot.specs.Inside.{PlainStepOrLost, ReadingStepOrLost};
ghost use Rattle.ballot_base.specs.Transfer.{on_new_ballot, on_join, on_state, on_install};
ghost use Rattle.ballot_base.specs.Transfer.{waits_for, lacks};
ghost use Rattle.ballot_base.specs.Logs.{places};
ghost use Rattle.ballot_base.specs.TakenLog.{taken, with_snapshot};
ghost use Rattle.ballot_base.specs.Unread.{is_unread};

use super::Replica;
use ballot_base::{Body, Effect, Log, Members, Role, others_of, send_joins, send_state};
use machine::Machine;

impl<M: Machine> Replica<M> {
    /// Handles NewBallot: the new primary asks the members of the earlier ballot for their logs.
    pub(super) fn on_new_ballot(
        &mut self,
        ballot: u64,
        members: Members,
        previous: u64,
        previous_members: Members,
        out: &mut Vec<Effect<M::Command, M::Output>>,
    ) -> bool
        ensures step { PlainStepOrLost M.rules self.old
            (on_new_ballot M.Output self.old.state ballot members previous previous_members) result
            self.new out.old.items out.new.items }
        ensures runs { self.new.state.stopped ≡ self.old.state.stopped }
    {
        if ballot <= self.joined {
            return true;
        }
        self.joined = ballot;
        self.role = Role::Fetching;
        self.members = members;
        self.previous = previous;
        self.previous_members = previous_members;
        self.lacking.clear();
        self.progress.clear();
        let receivers = self.previous_members.as_slice();
        send_joins(self.id, ballot, previous, receivers, out)
    }

    /// Handles Join: the replica leaves all lower ballots and sends its log.
    pub(super) fn on_join(
        &mut self,
        from: u8,
        ballot: u64,
        previous: u64,
        out: &mut Vec<Effect<M::Command, M::Output>>,
    ) -> bool
        ensures step { PlainStepOrLost M.rules self.old
            (on_join M.Output self.old.state from ballot previous) result
            self.new out.old.items out.new.items }
        ensures runs { self.new.state.stopped ≡ self.old.state.stopped }
    {
        if !self.may_join(ballot, previous) {
            return true;
        }
        let sent = send_state::<M>(self.alloc, self.id, ballot, &self.log, from, out);
        self.leave_for(ballot);
        sent
    }

    // Joins a ballot, leaving all lower ones.
    fn leave_for(&mut self, ballot: u64)
        ensures { self.new ≡ record self.old {
          state = if nat_lt self.old.state.joined ballot
              then record self.old.state { joined = ballot; role = Role.Backup }
              else self.old.state;
        } }
    {
        if self.joined < ballot {
            self.joined = ballot;
            self.role = Role::Backup;
        }
    }

    /// Handles State: the new primary takes the first log that arrives, and installs it at the
    /// other members.
    pub(super) fn on_state(
        &mut self,
        ballot: u64,
        log: Log<M::Command>,
        out: &mut Vec<Effect<M::Command, M::Output>>,
    ) -> bool
        requires { self.old.state.stopped ≡ false }
        ensures step { ReadingStepOrLost M.rules self.old
            (on_state M.rules self.old.state ballot log)
            (is_unread M.rules self.old.state (Body.State ballot log)) result
            self.new out.old.items out.new.items }
        ensures unread { is_unread M.rules self.old.state (Body.State ballot log) ≡ true →
            (result ≡ false) × (self.new ≡ self.old) }
        ensures runs { self.new.state.stopped ≡ self.old.state.stopped }
    {
        if !self.waits_for(ballot, log.places()) {
            return true;
        }
        let Ok(lacking) = others_of(self.alloc, self.id, self.members.as_slice()) else {
            return false;
        };
        if !self.take(log) {
            return false;
        }
        self.held_in = ballot;
        self.role = Role::Installing;
        self.lacking = lacking;
        self.send_log(out)
    }

    /// Handles Install: a member takes the log of a new ballot once. Later it only answers, since
    /// places may have been appended meanwhile.
    pub(super) fn on_install(
        &mut self,
        from: u8,
        ballot: u64,
        log: Log<M::Command>,
        out: &mut Vec<Effect<M::Command, M::Output>>,
    ) -> bool
        requires { self.old.state.stopped ≡ false }
        ensures step { ReadingStepOrLost M.rules self.old
            (on_install M.rules self.old.state from ballot log)
            (is_unread M.rules self.old.state (Body.Install ballot log)) result
            self.new out.old.items out.new.items }
        ensures unread { is_unread M.rules self.old.state (Body.Install ballot log) ≡ true →
            (result ≡ false) × (self.new ≡ self.old) }
        ensures runs { self.new.state.stopped ≡ self.old.state.stopped }
    {
        let held = log.places();
        if self.lacks(ballot, held) {
            if !self.take(log) {
                return false;
            }
            self.joined = ballot;
            self.held_in = ballot;
            self.role = Role::Backup;
            self.send_one(from, Body::Installed(ballot, held), out)
        } else if self.holds(ballot) {
            self.send_one(from, Body::Installed(ballot, held), out)
        } else {
            true
        }
    }

    // Takes a log that has every applied place. A log whose base is above the replica's own
    // replaces the log as a whole, once its snapshot is read; of any other log the places from the
    // replica's base on are taken. Returns false, with nothing changed, if the snapshot does not
    // thaw or memory runs out.
    fn take(&mut self, log: Log<M::Command>) -> bool
        requires running { self.old.state.stopped ≡ false }
        requires within { self.old.state.committed ≤ places log }
        ensures took { OnTrue result
            ((taken M.rules self.old.state log ≡ Some self.new.state)
            × (self.new.losses ≡ self.old.losses)) }
        ensures unread { OnFalse result
            ((self.new ≡ self.old) × (self.old.state.log.base < log.base)) }
    {
        if log.base() <= self.log.base() {
            self.log.take_rest(log);
            return true;
        }
        match M::thaw(self.alloc, log.snapshot()) {
            Ok(machine) => {
                self.replace_log(log, machine);
                true
            }
            Err(_) => false,
        }
    }

    // Takes a log as a whole. If its base is above what is applied, the machine of its snapshot
    // takes over.
    fn replace_log(&mut self, log: Log<M::Command>, machine: M)
        requires running { self.old.state.stopped ≡ false }
        requires over { self.old.state.log.base < log.base }
        requires within { self.old.state.committed ≤ places log }
        ensures { self.new ≡ record self.old {
          state = with_snapshot self.old.state log machine;
        } }
    {
        let base = log.base();
        self.log = log;
        if self.committed < base {
            self.committed = base;
            self.machine = machine;
        }
    }

    /// Returns true if Join is answered with the log.
    pub(super) fn may_join(&self, ballot: u64, previous: u64) -> bool
        ensures { result ≡ (nat_le self.now.state.joined ballot
            && nat_le previous self.now.state.held_in) }
    {
        self.joined <= ballot && previous <= self.held_in
    }

    /// Returns true if a State with a log of this length is taken: it lacks no applied place.
    pub(super) fn waits_for(&self, ballot: u64, held: u64) -> bool
        ensures { result ≡ waits_for self.now.state ballot held }
    {
        self.joined == ballot && (self.role.is_fetching() && self.committed <= held)
    }

    /// Returns true if this ballot is joined and its log is installed here.
    pub(super) fn holds(&self, ballot: u64) -> bool
        ensures { result ≡ (self.now.state.joined == ballot && self.now.state.held_in == ballot) }
    {
        self.joined == ballot && self.held_in == ballot
    }

    /// Returns true if an Install with a log of this length is taken: it lacks no applied place.
    pub(super) fn lacks(&self, ballot: u64, held: u64) -> bool
        ensures { result ≡ lacks self.now.state ballot held }
    {
        (self.joined < ballot || (self.joined == ballot && self.held_in < ballot))
            && self.committed <= held
    }
}
