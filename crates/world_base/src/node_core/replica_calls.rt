// Calls of the replica. Its effects are handled at once.

ghost use Rattle.std.specs.Prelude.{◌≡◌, if◌then◌else◌, false, true, [], ◌∷◌};
ghost use Rattle.ballot_base.specs.Compaction.{can_cut};
ghost use Rattle.ballot_base.specs.Protocol.Input.{Receives, Ticks};
ghost use Rattle.ballot_base.specs.Service.{proposed};
ghost use Rattle.world_base.specs.node_core.Core.{rules, serves};
ghost use Rattle.world_base.specs.node_core.Inside.{NodeReplicaStepOrLost, Answered, HandledAll, DoesExactly, DoesOutcome, StepsReplica, ProposedBy, StepPartOrLost, WithoutFailure};
ghost use Rattle.world_base.specs.node_core.Losses.{IsHeardQuietly, IsIgnored, ReadsNone};
ghost use Rattle.world_base.specs.node_core.Lossy.{Drives, Performs, without_effects};
ghost use Rattle.world_base.specs.node_core.LossyStep.{LogCutOrLost};
ghost use Rattle.world_base.specs.node_core.Step.{cuts};
ghost use Rattle.world_base.specs.node_core.Effects.{handled_all, drives, has_room, outcome_of_input, proposes, performed_by};

use crate::node_core::stepping_node::SteppingNode;
use ballot_base::{Effect, Message};
use broker_spec::{Command, Output};

impl SteppingNode {
    /// Proposes a command and handles the effects at once. Returns true if it was taken.
    pub(crate) fn propose(
        &mut self,
        command: Command,
        effects: &mut Vec<Effect<Command, Output>>,
    ) -> bool
        ensures exact { DoesOutcome self.old self.new effects.old.items effects.new.items
            (proposes command self.old.core) }
        ensures lossy { StepPartOrLost (ProposedBy result command) self.old.core self.new.core
            effects.old.items effects.new.items }
        ensures taken { self.new.has_lost ≡ false → result ≡ has_room self.old.core }
        ensures quiet { has_room self.old.core ≡ false → self.new ≡ self.old }
    {
        if !self.serves() {
            return false;
        }
        let mut given = Vec::new(self.alloc);
        let taken = self.propose_to_replica(command, &mut given);
        self.handle_all(given, effects);
        taken
    }

    // Proposes a command, without handling effects. Returns true if it was taken.
    fn propose_to_replica(
        &mut self,
        command: Command,
        given: &mut Vec<Effect<Command, Output>>,
    ) -> bool
        requires serving { serves self.old.core ≡ true }
        requires empty { given.old.items ≡ [] }
        ensures hears { StepsReplica self.old self.new
            (proposed rules self.old.core.replica.state command) given.new.items }
        ensures answered { Answered result command self.old.core self.new.core given.new.items }
        ensures taken { self.new.has_lost ≡ false → result ≡ has_room self.old.core }
        ensures quiet { has_room self.old.core ≡ false →
            (self.new ≡ self.old) × (given.new.items ≡ []) }
    {
        let (put, whole) = self.replica.append(command, given);
        self.note(whole);
        put.is_ok()
    }

    /// Passes a message of another node to the replica, and handles the effects at once.
    pub(crate) fn receive(
        &mut self,
        message: Message<Command>,
        effects: &mut Vec<Effect<Command, Output>>,
    )
        ensures exact { DoesOutcome self.old self.new effects.old.items effects.new.items
            (drives (Receives message) self.old.core) }
        ensures lossy { StepPartOrLost (Drives (Receives message)) self.old.core self.new.core
            effects.old.items effects.new.items }
        ensures quiet { IsHeardQuietly message self.old.core → ReadsNone message self.old.core →
            WithoutFailure self.old self.new }
    {
        let mut given = Vec::new(self.alloc);
        self.give_message(message, &mut given);
        self.handle_all(given, effects);
    }

    // Passes a message to the replica, without handling effects.
    fn give_message(&mut self, message: Message<Command>, given: &mut Vec<Effect<Command, Output>>)
        requires { given.old.items ≡ [] }
        ensures hears { StepsReplica self.old self.new
            (outcome_of_input (Receives message) self.old.core.replica.state) given.new.items }
        ensures acts { NodeReplicaStepOrLost
            (outcome_of_input (Receives message) self.old.core.replica.state)
            self.old.core self.new.core given.new.items }
        ensures quiet { IsHeardQuietly message self.old.core → ReadsNone message self.old.core →
            WithoutFailure self.old self.new × (given.new.items ≡ []) }
    {
        let whole = self.replica.deliver(message, given);
        self.note(whole);
    }

    /// Ticks the replica, and handles the effects at once.
    pub(crate) fn tick(&mut self, effects: &mut Vec<Effect<Command, Output>>)
        ensures exact { DoesOutcome self.old self.new effects.old.items effects.new.items
            (drives Ticks self.old.core) }
        ensures lossy { StepPartOrLost
            (Drives Ticks) self.old.core self.new.core effects.old.items effects.new.items }
        ensures quiet { IsIgnored Ticks self.old.core → self.new ≡ self.old }
    {
        let mut given = Vec::new(self.alloc);
        self.tick_replica(&mut given);
        self.handle_all(given, effects);
    }

    // Ticks the replica, without handling effects.
    fn tick_replica(&mut self, given: &mut Vec<Effect<Command, Output>>)
        requires { given.old.items ≡ [] }
        ensures hears { StepsReplica self.old self.new
            (outcome_of_input Ticks self.old.core.replica.state) given.new.items }
        ensures acts { NodeReplicaStepOrLost (outcome_of_input Ticks self.old.core.replica.state)
            self.old.core self.new.core given.new.items }
        ensures quiet { IsIgnored Ticks self.old.core →
            (self.new ≡ self.old) × (given.new.items ≡ []) }
    {
        let whole = self.replica.retransmit(given);
        self.note(whole);
    }

    /// Cuts the replica's log if there is something to cut.
    pub(crate) fn cut_log(&mut self)
        ensures exact { DoesExactly self.old self.new (cuts self.old.core) }
        ensures lossy { LogCutOrLost self.old.core (without_effects self.new.core) }
        ensures quiet { can_cut self.old.core.replica.state ≡ false → self.new ≡ self.old }
    {
        if !self.replica.can_cut() {
            return;
        }
        let whole = self.replica.cut();
        self.note(whole);
    }

    // Notes a loss, unless a call of the replica was whole.
    fn note(&mut self, whole: bool)
        ensures { self.new ≡ record self.old {
          has_lost = if whole then self.old.has_lost else true;
        } }
    {
        if !whole {
            self.has_lost = true;
        }
    }

    // Handles the replica's effects, in order.
    fn handle_all(
        &mut self,
        given: Vec<Effect<Command, Output>>,
        effects: &mut Vec<Effect<Command, Output>>,
    )
        ensures exact { DoesOutcome self.old self.new effects.old.items effects.new.items
            (handled_all given.items self.old.core) }
        ensures lossy { HandledAll given.items self.old.core self.new.core
            effects.old.items effects.new.items }
        ensures nothing { given.items ≡ [] → self.new ≡ self.old }
    {
        for effect in given {
            self.handle(effect, effects);
        }
    }

    // Handles one effect: keeps a message to be sent, or performs an output on its connection.
    fn handle(
        &mut self,
        effect: Effect<Command, Output>,
        effects: &mut Vec<Effect<Command, Output>>,
    )
        ensures exact { DoesOutcome self.old self.new effects.old.items effects.new.items
            (handled_all (effect ∷ []) self.old.core) }
        ensures lossy { HandledAll (effect ∷ []) self.old.core self.new.core
            effects.old.items effects.new.items }
    {
        match effect {
            Effect::Out(_, output) => self.perform(&output),
            Effect::To(receiver, message) => {
                if effects.push(Effect::To(receiver, message)).is_err() {
                    self.has_lost = true;
                }
            }
        }
    }

    fn perform(&mut self, output: &Output)
        ensures exact { DoesExactly self.old self.new (performed_by output.now self.old.core) }
        ensures lossy { Performs output.now self.old.core self.new.core }
    {
        match output {
            Output::Send(name, packet) => self.put(*name, packet),
            Output::Close(name) => self.close_named(*name),
        }
    }
}
