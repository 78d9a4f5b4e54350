// A group of replicas and their master, with every message ever sent.
//
// A message is never altered and never removed from `sent`, so any event list may deliver it late,
// again or never: that is all that is assumed of a network. What is agreed is therefore a statement
// about traces, and the invariant of this type says that one led here.
//
// Invariants: a trace of moments leads to this group; `left` has outputs alone; `losses` is no less
// than that of any node. `archive` has the places below every base, so that a whole log can be
// named after a cut; no node reads it. `told` and `next` count what was acknowledged in the active
// and in the waiting ballot, so that `agreed` need not search the messages.

ghost use Rattle.std.specs.Prelude.{ℕ, ◌-◌, ◌≡◌, ◌<◌, ◌↔◌, true, false, None, Some, [], length};
ghost use Rattle.std.specs.Prelude.{slice_get, map, List, ◌∷◌, ◌++◌, IfOk, IfSome, OnErr};
ghost use Rattle.std.specs.Prelude.{IsErr, IsErrOf};
ghost use Rattle.ballot_base.specs.LawfulConfig.{max_node};
ghost use Rattle.ballot_base.specs.Protocol.{replica_step};
ghost use Rattle.ballot_base.specs.Protocol.Input.{Receives};
ghost use Rattle.ballot_base.specs.StepOutcome.{nothing_done};
ghost use Rattle.ballot_base.specs.Losses.{SendsAndAddsNothing, one_more};
ghost use Rattle.ballot_base.specs.Replica.{ReplicaState};
ghost use Rattle.lists.specs.Lists.{In};
ghost use Rattle.agreement.specs.cut_logs.Moments.{IsAgreed, Moment, Moments, opening_moment};
ghost use Rattle.agreement.specs.cut_logs.World.{MayTake};
ghost use Rattle.agreement.specs.World.{can_open};
ghost use Rattle.master.specs.Agreement.{AgreesAfter};
ghost use Rattle.master.specs.Copies.{has_numbers_alone};
ghost use Rattle.master.specs.Exact.{event_outcome, group_step, group_run};
ghost use Rattle.master.specs.Outcomes.{running};
ghost use Rattle.master.specs.Inside.{HoldsAt, IsShort, RunsAt, held_by};
ghost use Rattle.master.specs.Inside.Losses.{GroupNodeStepOrLost, input_of};
ghost use Rattle.master.specs.Steps.{GroupTraceOrLost, GroupEventOrLost, GroupTakesNoMemory, GroupLosesNothing, done_exactly};

use crate::acknowledged::Acknowledged;
use crate::event::{Event, Idle};
use crate::inputs::{Input, counted, part, step_replica};
use crate::master::Master;
use crate::opening::can_open;
use ballot::Replica;
use ballot_base::errors::OpeningError;
use ballot_base::{Config, Effect, Members, Message};
use machine::Machine;
use std::alloc::Global;
use std::marker::Model;

mod event_steps;

/// A master and replicas of a machine that communicate only by messages. A message once sent may
/// arrive at any time, again and in any order, or never.
pub struct Group<M: Machine> {
    alloc: Global,
    // Assigns ballots to configurations.
    master: Master,
    // Node n + 1 is at index n.
    nodes: Vec<Replica<M>>,
    // All messages ever sent, in order, each with the number of its receiver.
    sent: Vec<(u8, Message<M::Command>)>,
    // The outputs that left, in order. No message is among them.
    left: Vec<Effect<M::Command, M::Output>>,
    // The places below the bases of all logs.
    archive: Vec<M::Command>,
    // What was acknowledged in the active ballot.
    told: Acknowledged,
    // What was acknowledged in the ballot that waits, if one does.
    next: Acknowledged,
    // How many steps lost something (saturates at 2^64 - 1). No node has counted more.
    losses: u64,
}

impl<M: Machine> Drop for Group<M> {
    fn drop(self) {
        let Group {
            alloc: _,
            master: _master,
            nodes: _nodes,
            sent: _sent,
            left: _left,
            archive: _archive,
            told: _told,
            next: _next,
            losses: _,
        } = self;
    }
}

impl<M: Machine> Model for Group<M> {
    ghost use Rattle.std.specs.Prelude.{◌≡◌, []};
    ghost use Rattle.master.specs.Group.{GroupState};
    ghost use Rattle.master.specs.Inside.{CountsAtMost, IsGroup, moment_of};
    ghost use Rattle.agreement.specs.cut_logs.World.{messages};

    ghost Value = { GroupState M M.Command M.Output };

    ghost view = { λ group.
        record {
          moment = moment_of group.archive.items group.master group.nodes.items
              group.sent.items group.left.items;
          losses = group.losses;
        } };

    // A trace of moments leads to this group, and it has counted each loss of a replica.
    ghost invariant = { λ group.
        (messages group.left.items ≡ []) ×
        IsGroup M.rules (moment_of group.archive.items group.master group.nodes.items
        group.sent.items group.left.items)
        group.told group.next ×
        CountsAtMost group.losses group.nodes.items };
}

impl<M: Machine> Group<M> {
    /// Opens nodes 1 to `nodes` in ballot 1, with these members and this primary.
    /// [`OpeningError::BadMembers`] comes for more than 15 nodes, for members and a primary that no
    /// ballot may have, as in [`Master::new`], and for a member above `nodes`.
    /// [`OpeningError::Memory`] comes only if memory ran out.
    pub fn opening(
        alloc: Global,
        nodes: u8,
        members: Members,
        primary: u8,
    ) -> Result<Group<M>, OpeningError>
        ensures ok { IfOk result (λ group.
            group ≡ record {
              moment = opening_moment M.rules max_node nodes
                  (record { members = members; primary = primary });
              losses = 0;
            }) }
        ensures opens { IfOk result (λ group.
            Moments M.rules (record { members = members; primary = primary })
            (group.moment ∷ [])) }
        ensures bad { IsErrOf result OpeningError.BadMembers
            ↔ (can_open max_node nodes (record { members = members; primary = primary }) ≡ false) }
    {
        Self::opening_with(alloc, nodes, Config { members, primary })
    }

    // Does what `opening` does, for members and a primary that are one value.
    fn opening_with(alloc: Global, nodes: u8, config: Config) -> Result<Group<M>, OpeningError>
        ensures ok { IfOk result (λ group.
            group ≡ record {
              moment = opening_moment M.rules max_node nodes config;
              losses = 0;
            }) }
        ensures opens { IfOk result (λ group. Moments M.rules config (group.moment ∷ [])) }
        ensures bad { IsErrOf result OpeningError.BadMembers ↔ (can_open max_node nodes config ≡ false) }
    {
        if !can_open(nodes, &config) {
            return Err(OpeningError::BadMembers);
        }
        let mut opened = Vec::new(alloc);
        for at in 0..nodes {
            opened.push(Replica::new(alloc, at + 1, &config)?)?;
        }
        let told = Acknowledged::new(alloc, 1)?;
        let next = Acknowledged::new(alloc, 1)?;
        let Ok(master) = Master::new(config.members, config.primary) else {
            return Err(OpeningError::BadMembers);
        };
        Ok(Group {
            alloc,
            master,
            nodes: opened,
            sent: Vec::new(alloc),
            left: Vec::new(alloc),
            archive: Vec::new(alloc),
            told,
            next,
            losses: 0,
        })
    }

    /// Performs one event. Fails with [`Idle`], and changes nothing, if the event cannot happen
    /// now. If memory runs out, messages are lost, nothing happens, or the node stops; that is
    /// counted.
    pub fn step(&mut self, event: &Event<M::Command>) -> Result<(), Idle>
        ensures step { GroupEventOrLost M.rules self.old event.now self.new }
        ensures exact { GroupLosesNothing self.old self.new →
            self.new.moment ≡ group_step M.rules event.now self.old.moment }
        ensures idle { IsErr result ↔ (event_outcome M.rules self.old.moment event.now ≡ None) }
        ensures same { OnErr result (self.new ≡ self.old) }
        // What needs no memory is done exactly, however little there is, and counts as no loss.
        ensures quiet { GroupTakesNoMemory M.rules self.old.moment event.now →
            self.new ≡ done_exactly M.rules self.old event.now }
        // Whatever led to this group, the nodes agree after the event, the outputs that left are in
        // order, and what is agreed has only grown.
        ensures agreement { (config : Config) (moments : List (Moment M M.Command M.Output)) →
            Moments M.rules config (self.old.moment ∷ moments) →
            AgreesAfter M.rules config (self.old.moment ∷ moments) self.new.moment }
    {
        match event {
            Event::Propose(node, command) => self.propose(*node, command),
            Event::Assign(config) => self.assign(config),
            Event::Deliver(number) => self.deliver(*number),
            Event::Tick(node) => self.tick(*node),
            Event::Cut(node) => self.cut(*node),
            Event::Crash(node) => self.crash(*node),
        }
    }

    /// Performs events in order, and skips idle ones.
    pub fn run(&mut self, events: &[Event<M::Command>])
        // Each event is done exactly, or with losses that are counted for it.
        ensures run { GroupTraceOrLost M.rules self.old events.now self.new }
        ensures exact { GroupLosesNothing self.old self.new →
            self.new.moment ≡ group_run M.rules events.now self.old.moment }
        // Whatever led to this group, the nodes agree after the events, the outputs that left are
        // in order, and what is agreed has only grown.
        ensures agreement { (config : Config) (moments : List (Moment M M.Command M.Output)) →
            Moments M.rules config (self.old.moment ∷ moments) →
            AgreesAfter M.rules config (self.old.moment ∷ moments) self.new.moment }
    {
        for event in events {
            let _ = self.step(event);
        }
    }

    /// Returns the agreed list, the longest that is chosen in a ballot that was active, in two
    /// parts: the second continues where the first ends.
    pub fn agreed(&self) -> (&[M::Command], &[M::Command])
        ensures { (config : Config) (moments : List (Moment M M.Command M.Output)) →
            Moments M.rules config (self.now.moment ∷ moments) →
            IsAgreed config (self.now.moment ∷ moments)
            (result.0.now ++ result.1.now) }
    {
        let held = self.agreed_len();
        let Some(at) = self.holder(held) else {
            return (&[], &[]);
        };
        let replica = &self.nodes[at];
        let (base, _) = replica.snapshot();
        if held <= base {
            return (&self.archive[..held as usize], &[]);
        }
        (
            &self.archive[..base as usize],
            &replica.rest()[..(held - base) as usize],
        )
    }

    /// Returns the length of the agreed list. Its time does not depend on how much was sent, which
    /// no clause says.
    pub fn agreed_len(&self) -> u64
        ensures { (config : Config) (moments : List (Moment M M.Command M.Output))
            (agreed : List M.Command) →
            Moments M.rules config (self.now.moment ∷ moments) →
            IsAgreed config (self.now.moment ∷ moments) agreed → result ≡ length agreed }
    {
        let (_, members) = self.master.active();
        if members.len() == 1 {
            return self.held(members[0]);
        }
        self.told.least_but_one(members)
    }

    /// Returns the greatest number that a member may have, 15.
    pub fn greatest(&self) -> u8
        ensures is { result ≡ self.now.moment.master.greatest }
        ensures bound { result ≡ max_node }
    {
        self.master.greatest()
    }

    /// Returns all messages that were sent, each with its receiver: message number n is at index n.
    /// Node 0 is the master.
    pub fn sent(&self) -> &[(u8, Message<M::Command>)]
        ensures { result.now ≡ self.now.moment.world.sent }
    {
        self.sent.as_slice()
    }

    /// Returns the outputs that left, in order. Each is an [`Effect::Out`] with its place.
    pub fn left(&self) -> &[Effect<M::Command, M::Output>]
        ensures { result.now ≡ map (λ left. Effect.Out left.0 left.1) self.now.moment.world.left }
    {
        self.left.as_slice()
    }

    /// Returns the active ballot and its members.
    pub fn active(&self) -> (u64, &[u8])
        ensures ballot { result.0 ≡ self.now.moment.master.active }
        ensures members { result.1.now ≡ self.now.moment.master.members }
    {
        self.master.active()
    }

    /// Returns how many steps lost something because memory ran out (saturates at 2^64 - 1).
    pub fn losses(&self) -> u64
        ensures { result ≡ self.now.losses }
    {
        self.losses
    }

    // Returns the index of a node that exists and runs.
    fn running(&self, node: u8) -> Option<usize>
        ensures some { IfSome result (λ at. RunsAt self.now.moment.world.nodes node at) }
        ensures none { result ≡ None → running self.now.moment.world.nodes node ≡ None }
    {
        if node == 0 || node as usize > self.nodes.len() {
            return None;
        }
        let at = node as usize - 1;
        if self.nodes[at].status().stopped {
            return None;
        }
        Some(at)
    }

    // Returns true if a message would have an effect at a node. One that would, and is more than
    // numbers, makes the node send something or add to its log.
    fn heeds(&self, at: usize, message: &Message<M::Command>) -> bool
        requires at { at < length self.now.moment.world.nodes }
        requires sent { (to : ℕ) × In (to, message.now) self.now.moment.world.sent }
        ensures nothing { (replica : ReplicaState M M.Command) →
            slice_get self.now.moment.world.nodes at ≡ Some replica →
            ((result ≡ false) ↔
            (replica_step M.rules replica (Receives message.now) ≡ nothing_done M.Output replica)) }
        ensures more { (replica : ReplicaState M M.Command) →
            slice_get self.now.moment.world.nodes at ≡ Some replica → result ≡ true →
            has_numbers_alone message.now.body ≡ false →
            SendsAndAddsNothing replica (replica_step M.rules replica (Receives message.now)) → ⊥ }
    {
        self.nodes[at].heeds(message)
    }

    // Feeds an input to a node that runs.
    fn take_input(&mut self, at: usize, input: Input<M::Command>)
        requires runs { (replica : ReplicaState M M.Command) ×
            (slice_get self.old.moment.world.nodes at ≡ Some replica) ×
            (replica.stopped ≡ false) }
        requires may { MayTake self.old.moment.world at (input_of input) }
        ensures { (replica : ReplicaState M M.Command) →
            slice_get self.old.moment.world.nodes at ≡ Some replica →
            GroupNodeStepOrLost M.rules self.old (record {
              index = at;
              before = replica;
              outcome = replica_step M.rules replica (input_of input);
            }) self.new }
    {
        let from = self.left.len();
        let before = self.sent.len();
        let replica = &mut self.nodes[at];
        let whole = step_replica(replica, input, &mut self.left);
        let kept = part(&mut self.left, &mut self.sent, from);
        self.told.count_from(&self.sent, before);
        self.next.count_from(&self.sent, before);
        self.losses = counted(self.losses, whole, kept);
    }

    // Returns the length of a node's log; 0 if the node is unknown.
    fn held(&self, node: u8) -> u64
        ensures { result ≡ held_by (slice_get self.now.moment.world.nodes (node - 1)) }
    {
        match self.nodes.get(node.saturating_sub(1) as usize) {
            Some(replica) => replica.status().held,
            None => 0,
        }
    }

    // Returns the index of a member of the active ballot whose log has at least `held` places.
    fn holder(&self, held: u64) -> Option<usize>
        ensures some { IfSome result (λ at.
            HoldsAt self.now.moment.world.nodes self.now.moment.master.members held at) }
        ensures none { result ≡ None →
            (member : ℕ) → In member self.now.moment.master.members →
            IsShort (slice_get self.now.moment.world.nodes (member - 1)) held }
    {
        let (_, members) = self.master.active();
        for member in members {
            let at = member.saturating_sub(1) as usize;
            if at < self.nodes.len() && held <= self.nodes[at].status().held {
                return Some(at);
            }
        }
        None
    }

    // Counts a loss: memory ran out, and nothing happened.
    fn count_loss(&mut self)
        ensures { self.new ≡ record self.old { losses = one_more self.old.losses } }
    {
        self.losses = counted(self.losses, false, true);
    }
}
