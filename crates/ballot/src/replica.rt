// One replica: a log, the machine that applies it, and a role in a ballot.
//
// Invariants: `log.base <= committed <= log.places()`, and at base 0 the snapshot is empty. Places
// are applied in order. Only an active primary returns outputs, and none twice: `committed` never
// falls while it runs. A primary commits a place only once every member is known to hold it, so any
// one surviving member has all that was committed.
//
// A call takes the step of `ballot_base` exactly, or counts a loss. What memory cannot be found for
// is lost at the edges alone: a message, a refused proposal. If a command cannot be applied, the
// machine may have done part of it; the replica then stops for good, and its view shows the
// machine's opening state, since the real one is no longer meaningful.
//
// That the machine is the replay of the applied places is not an invariant of this type: a replica
// alone may be sent any log. `agreement` proves it for every replica of a group.

ghost use Rattle.std.specs.Prelude.{◌≡◌, ◌≤◌, ◌<◌, ◌↔◌, false, IfOk, IsErrOf, OnOk, OnErr};
ghost use Rattle.ballot_base.specs.Sends.{Sends};
ghost use Rattle.lists.specs.Lists.{IsPrefixOf};
ghost use Rattle.ballot_base.specs.LawfulConfig.{is_lawful, max_node};
ghost use Rattle.ballot_base.specs.Logs.{places};
ghost use Rattle.ballot_base.specs.Losses.{halted};
ghost use Rattle.ballot_base.specs.Replica.{opening, opening_member, others};
ghost use Rattle.ballot_base.specs.Replica.{progress_at, status_of};
ghost use Rattle.ballot_base.specs.Service.{commit_at};

use ballot_base::errors::OpeningError;
use ballot_base::{
    Config, Effect, Log, MAX_NODE, MAX_NUMBER, Members, Progress, Role, Status, apply_places,
    progress_of_others, send_commits,
};
use machine::{Halted, Machine, Memory};
use std::alloc::Global;
use std::marker::Model;

mod activation;
mod compaction;
mod installation;
mod messages;
mod proposals;
mod relevance;
mod ticks;
mod transfer;

/// A log, the machine that applies it, and a role in a ballot. It reaches other nodes only by the
/// messages that its calls return, beside the machine's outputs and their places.
pub struct Replica<M: Machine> {
    alloc: Global,
    // The number of the node, from 1 to `MAX_NUMBER`.
    id: u8,
    // The ballot that it joined; 0 before the first.
    joined: u64,
    // The ballot in which its log was last installed; 0 before the first.
    held_in: u64,
    // Its role in the ballot that it joined.
    role: Role,
    // The members of the ballot that it leads, the earlier ballot, and the members of that one.
    members: Members,
    previous: u64,
    previous_members: Members,
    // The other members that still lack the log that is being installed.
    lacking: Vec<u8>,
    // How much each other member is known to hold.
    progress: Vec<Progress>,
    // Its commands; those below the base are in the snapshot.
    log: Log<M::Command>,
    // How many places are applied.
    committed: u64,
    // The machine after these places.
    machine: M,
    // True once it does nothing any more.
    stopped: bool,
    // How many of its calls lost something (saturates at 2^64 - 1).
    losses: u64,
}

impl<M: Machine> Drop for Replica<M> {
    fn drop(self) {
        let Replica {
            alloc: _,
            id: _,
            joined: _,
            held_in: _,
            role: _,
            members: _members,
            previous: _,
            previous_members: _previous_members,
            lacking: _lacking,
            progress: _progress,
            log: _log,
            committed: _,
            machine: _machine,
            stopped: _,
            losses: _,
        } = self;
    }
}

impl<M: Machine> Model for Replica<M> {
    ghost use Rattle.std.specs.Prelude.{◌≡◌, ◌≤◌, [], if◌then◌else◌};
    ghost use Rattle.ballot_base.specs.Logs.{places};
    ghost use Rattle.ballot_base.specs.Replica.{ReplicaState, CountedReplica};

    ghost Value = { CountedReplica M M.Command };

    ghost view = { λ replica.
        record {
          state = record {
            id = replica.id;
            joined = replica.joined;
            held_in = replica.held_in;
            log = replica.log;
            committed = replica.committed;
            machine = if replica.stopped then M.rules.opening else replica.machine;
            role = replica.role;
            members = replica.members;
            previous = replica.previous;
            previous_members = replica.previous_members;
            lacking = replica.lacking.items;
            progress = replica.progress.items;
            stopped = replica.stopped;
          };
          losses = replica.losses;
        } };

    ghost invariant = { λ replica.
        (replica.log.base ≤ replica.committed)
        × (replica.committed ≤ places replica.log)
        × (replica.log.base ≡ 0 → replica.log.snapshot ≡ []) };
}

impl<M: Machine> Replica<M> {
    /// Opens node `id` in ballot 1: members start with an empty log, and the primary is active.
    pub fn new(alloc: Global, id: u8, config: &Config) -> Result<Replica<M>, OpeningError>
        requires low { 1 ≤ id }
        requires high { id ≤ MAX_NODE }
        ensures ok { IfOk result (λ replica.
            replica ≡ record {
              state = opening M.rules id config.now;
              losses = 0;
            }) }
        ensures bad { IsErrOf result OpeningError.BadMembers
            ↔ (is_lawful max_node config.now.members config.now.primary ≡ false) }
    {
        Replica::up_to(alloc, MAX_NODE, id, config)
    }

    /// Opens node `id` in ballot 1, as [`Replica::new`], where numbers of nodes go up to `greatest`.
    pub fn up_to(
        alloc: Global,
        greatest: u8,
        id: u8,
        config: &Config,
    ) -> Result<Replica<M>, OpeningError>
        requires low { 1 ≤ id }
        requires high { id ≤ greatest }
        requires bound { greatest ≤ MAX_NUMBER }
        ensures ok { IfOk result (λ replica.
            replica ≡ record {
              state = opening M.rules id config.now;
              losses = 0;
            }) }
        ensures bad { IsErrOf result OpeningError.BadMembers
            ↔ (is_lawful greatest config.now.members config.now.primary ≡ false) }
    {
        if !config.is_lawful_up_to(greatest) {
            return Err(OpeningError::BadMembers);
        }
        let machine = M::fresh(alloc)?;
        let mut replica = Replica::new_backup(alloc, id, config, machine);
        if id == config.primary {
            replica.lead_first_ballot(config)?;
        }
        Ok(replica)
    }

    // Returns node `id` as a backup of ballot 1. A node that is no member has joined no ballot.
    fn new_backup(alloc: Global, id: u8, config: &Config, machine: M) -> Replica<M>
        requires { machine ≡ M.rules.opening }
        ensures { result ≡ record {
          state = opening_member M.rules id config.now;
          losses = 0;
        } }
    {
        let members = config.members.as_slice();
        let ballot = if members.contains(&id) { 1 } else { 0 };
        Replica {
            alloc,
            id,
            joined: ballot,
            held_in: ballot,
            role: Role::Backup,
            members: Members::new(alloc),
            previous: 0,
            previous_members: Members::new(alloc),
            lacking: Vec::new(alloc),
            progress: Vec::new(alloc),
            log: Log::new(alloc),
            committed: 0,
            machine,
            stopped: false,
            losses: 0,
        }
    }

    // Makes this node the active primary of ballot 1, in which no member holds a place yet.
    fn lead_first_ballot(&mut self, config: &Config) -> Result<(), Memory>
        ensures { OnOk result (self.new ≡ record self.old {
          state = record self.old.state {
            role = Role.Active;
            members = config.now.members;
            progress = progress_at 0 (others self.old.state.id config.now.members);
          };
        }) }
    {
        let members = config.members.as_slice();
        self.role = Role::Active;
        self.members = Members::from_slice(self.alloc, members)?;
        self.progress = progress_of_others(self.alloc, 0, self.id, members)?;
        Ok(())
    }

    /// Returns the status of the replica.
    pub fn status(&self) -> Status
        ensures { result ≡ status_of self.now.state }
    {
        Status {
            ballot: self.joined,
            role: self.role,
            held: self.log.places(),
            committed: self.committed,
            stopped: self.stopped,
        }
    }

    /// Returns the commands of the log from its base on, which [`Replica::snapshot`] returns.
    /// Everything applied is within the log.
    pub fn rest(&self) -> &[M::Command]
        ensures rest { result.now ≡ self.now.state.log.rest }
        ensures within { self.now.state.committed ≤ places self.now.state.log }
    {
        self.log.rest()
    }

    /// Returns how many calls lost something, because memory ran out or a snapshot could not be
    /// read (saturates at 2^64 - 1).
    pub fn losses(&self) -> u64
        ensures { result ≡ self.now.losses }
    {
        self.losses
    }

    /// Stops for good, as a crash of the node does. Afterwards the replica shows everything except
    /// its machine.
    pub fn stop(&mut self)
        ensures { self.new ≡ record self.old {
          state = halted M.rules self.old.state;
        } }
    {
        self.stopped = true;
    }

    // Commits the places below `held`: applies those not yet applied, returns their outputs and
    // sends Commit to the other members. Returns true if no message was lost. On an error the
    // replica has stopped, and some outputs may have been appended to `out`.
    fn commit_at(
        &mut self,
        held: u64,
        out: &mut Vec<Effect<M::Command, M::Output>>,
    ) -> Result<bool, Halted>
        requires running { self.old.state.stopped ≡ false }
        requires within { held ≤ places self.old.state.log }
        ensures state { OnOk result
            (self.new ≡ record self.old {
              state = (commit_at M.rules self.old.state held).state;
            }) }
        ensures effects { IfOk result
            (Sends out.old.items out.new.items
            (commit_at M.rules self.old.state held).effects) }
        ensures stops { OnErr result
            (self.new ≡ record self.old {
              state = halted M.rules self.old.state;
            }) }
        ensures needed { OnErr result (self.old.state.committed < held) }
        ensures err { OnErr result (IsPrefixOf out.old.items out.new.items) }
    {
        if held <= self.committed {
            return Ok(true);
        }
        let from = self.committed;
        match apply_places(self.alloc, &mut self.machine, &self.log, from, held, out) {
            Ok(()) => {
                self.committed = held;
                Ok(send_commits(self.id, self.joined, held, &self.progress, out))
            }
            Err(halted) => {
                self.stopped = true;
                Err(halted)
            }
        }
    }
}
