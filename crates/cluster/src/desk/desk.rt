// The desk of a cluster's master.
//
// A desk changes its state, has it kept, and answers: in this order, so that an answer is never
// forgotten. If the state was not kept it takes the change back. Then either state may stand, and
// both are safe: nothing was promised of the new one, and it says all that the old one promised.
// So it goes on as it was, and the next change that is kept replaces both.

ghost use Rattle.std.specs.Prelude.{◌≡◌, ◌≢◌, ◌↔◌, ◌+◌, ◌==◌, [], ◌∷◌, true, is_ok, false, None, Some, Ok, IfOk, IfErr, IsErrOf, OnErr, OnOk, if◌then◌else◌};
ghost use Rattle.cluster.specs.desk.States.{activated_by, assign_refusal, assigned_to, no_number};
ghost use Rattle.cluster.specs.desk.States.{is_sound, is_sound_with, opening_desk, with_active};
ghost use Rattle.cluster.specs.desk.States.{started, waits_for};
ghost use Rattle.cluster.specs.desk.Form.{desk_of, form, IsRefusedSo};
ghost use Rattle.cluster.specs.desk.Keeping.{AreAmong, Failed, FailedWith, HasKept};
ghost use Rattle.cluster.specs.desk.Keeping.{IsNoFault, IsNotKept, WasLost};

use crate::desk::error::{DeskError, NotKept, OpenError};
use crate::desk::keeper::Keeper;
use crate::desk::state::{NO_NUMBER, State};
use ballot_base::{Config, Members};
use links::seal::CLUSTER_BYTES;
use std::alloc::Global;
use std::marker::Model;

/// Whether a ballot is active.
#[derive(Clone, Copy, Debug, PartialEq, Eq)]
pub enum Activation {
    /// It is the active one.
    Activated,
    /// It was superseded, or a later one is active.
    Superseded,
}

/// What the master of a cluster answers from, and where it keeps this.
#[derive(Drop)]
pub struct Desk<K: Keeper> {
    keeper: K,
    state: State,
}

impl<K: Keeper> Model for Desk<K> {
    ghost use Rattle.std.specs.Prelude.{◌≡◌, true};
    ghost use Rattle.cluster.specs.desk.Keeping.{DeskView};
    ghost use Rattle.cluster.specs.desk.States.{is_sound};

    ghost Value = { DeskView K };

    ghost view = { λ desk. record { keeper = desk.keeper; state = desk.state } };

    ghost invariant = { λ desk. is_sound desk.state.next desk.state.master ≡ true };
}

impl<K: Keeper> Desk<K> {
    /// Begins a new cluster of this name, once that was kept.
    pub fn new(alloc: Global, keeper: K, cluster: [u8; CLUSTER_BYTES]) -> Result<Self, OpenError>
        ensures kept { IfOk result (λ desk. HasKept K.stands desk (opening_desk cluster)) }
        ensures lost { IsErrOf result OpenError.NotKept
            → IsNotKept K.keeps keeper (opening_desk cluster) }
        ensures read { IfErr result (λ error. IsNoFault error) }
    {
        let state = State::opening(alloc, cluster)?;
        Desk::kept(keeper, state)
    }

    /// Goes on with what these bytes say, once it was kept again: what was read may stand in memory
    /// alone. The first fault of the bytes counts.
    pub fn resume(alloc: Global, keeper: K, bytes: &[u8]) -> Result<Self, OpenError>
        ensures read { IfOk result (λ desk. desk_of bytes.now ≡ Ok desk.state) }
        ensures kept { IfOk result (λ desk. HasKept K.stands desk desk.state) }
        ensures refused { IfErr result (λ error. error ≢ OpenError.NotKept
            → IsRefusedSo bytes.now error) }
        ensures lost { IsErrOf result OpenError.NotKept → WasLost K.keeps keeper bytes.now }
    {
        let state = State::read(alloc, bytes)?;
        Desk::kept(keeper, state)
    }

    // Returns a desk with this state, once it was kept.
    fn kept(keeper: K, state: State) -> Result<Self, OpenError>
        requires { is_sound state.next state.master ≡ true }
        ensures kept { IfOk result (λ desk. HasKept K.stands desk state) }
        ensures lost { IfErr result (λ error. (error ≡ OpenError.NotKept)
            × IsNotKept K.keeps keeper state) }
    {
        let mut keeper = keeper;
        match keep(&mut keeper, &state) {
            Ok(()) => Ok(Desk { keeper, state }),
            Err(NotKept) => Err(OpenError::NotKept),
        }
    }

    /// Returns what is kept.
    pub fn state(&self) -> &State
        ensures { result.now ≡ self.now.state }
    {
        &self.state
    }

    /// Returns where it is kept.
    pub fn keeper(&self) -> &K
        ensures { result.now ≡ self.now.keeper }
    {
        &self.keeper
    }

    /// Gives the next number to a start of a node. `NumbersSpent` comes exactly once 254 was given.
    pub fn start(&mut self) -> Result<u8, DeskError>
        ensures number { IfOk result (λ number. number ≡ self.old.state.next) }
        ensures ok { OnOk result (HasKept K.stands self.new (started self.old.state)) }
        ensures spent { IsErrOf result DeskError.NumbersSpent
            ↔ (self.old.state.next ≡ no_number) }
        ensures refused { IsErrOf result DeskError.NumbersSpent → self.new ≡ self.old }
        ensures lost { IfErr result (λ error. error ≢ DeskError.NumbersSpent
            → (error ≡ DeskError.NotKept)
            × Failed K.keeps K.stands self.old self.new (started self.old.state)) }
    {
        let number = self.state.next;
        if number == NO_NUMBER {
            return Err(DeskError::NumbersSpent);
        }
        self.state.set_next(number + 1);
        if keep(&mut self.keeper, &self.state).is_err() {
            self.state.set_next(number);
            return Err(DeskError::NotKept);
        }
        Ok(number)
    }

    /// Gives the next ballot to these members and this primary and lets it wait. A ballot that
    /// waited is superseded for good. `BadMembers` comes first, then `BallotsSpent`, then
    /// `NeverGiven`; after an error nothing has changed.
    pub fn assign(&mut self, members: Members, primary: u8) -> Result<u64, DeskError>
        ensures ballot { IfOk result (λ ballot. ballot ≡ self.old.state.master.given + 1) }
        ensures ok { OnOk result (HasKept K.stands self.new
            (assigned_to self.old.state (record { members = members; primary = primary }))) }
        ensures may { OnOk result (assign_refusal self.old.state
            (record { members = members; primary = primary }) ≡ None) }
        ensures refused { IfErr result (λ error. error ≢ DeskError.NotKept
            → (assign_refusal self.old.state (record { members = members; primary = primary })
            ≡ Some error) × (self.new ≡ self.old)) }
        ensures lost { IsErrOf result DeskError.NotKept
            → Failed K.keeps K.stands self.old self.new
            (assigned_to self.old.state (record { members = members; primary = primary })) }
        ensures asked { IsErrOf result DeskError.NotKept → assign_refusal self.old.state
            (record { members = members; primary = primary }) ≡ None }
    {
        let config = Config { members, primary };
        if let Some(error) = self.state.refusal(&config) {
            return Err(error);
        }
        self.give(config)
    }

    // Gives the next ballot to a configuration that is not refused.
    fn give(&mut self, config: Config) -> Result<u64, DeskError>
        requires { assign_refusal self.old.state config ≡ None }
        ensures ballot { IfOk result (λ ballot. ballot ≡ self.old.state.master.given + 1) }
        ensures ok { OnOk result
            (HasKept K.stands self.new (assigned_to self.old.state config)) }
        ensures lost { IfErr result (λ error. (error ≡ DeskError.NotKept)
            × Failed K.keeps K.stands self.old self.new (assigned_to self.old.state config)) }
    {
        let ballot = self.state.given + 1;
        let earlier = self.state.give(config);
        if keep(&mut self.keeper, &self.state).is_err() {
            self.state.take_back(earlier);
            return Err(DeskError::NotKept);
        }
        Ok(ballot)
    }

    /// Activates the ballot that waits. Returns [`Activation::Activated`] for it once that was
    /// kept, and again for the active ballot; for any other ballot it returns
    /// [`Activation::Superseded`]. After an error nothing has changed.
    pub fn activate(&mut self, ballot: u64) -> Result<Activation, NotKept>
        ensures active { waits_for self.old.state.master.waiting ballot ≡ true
            → IfOk result (λ activation. (activation ≡ Activation.Activated)
            × HasKept K.stands self.new (activated_by self.old.state ballot)) }
        ensures other { waits_for self.old.state.master.waiting ballot ≡ false
            → (result ≡ Ok (if ballot == self.old.state.master.active
            then Activation.Activated else Activation.Superseded)) × (self.new ≡ self.old) }
        ensures lost { OnErr result
            (Failed K.keeps K.stands self.old self.new (activated_by self.old.state ballot)) }
    {
        match self.state.take_waiting() {
            Some((waiting, config)) if waiting == ballot => self.activate_waiting(ballot, config),
            other => {
                self.state.set_waiting(other);
                Ok(self.activation(ballot))
            }
        }
    }

    // Activates the ballot that waited, of this configuration.
    fn activate_waiting(&mut self, ballot: u64, config: Config) -> Result<Activation, NotKept>
        requires none { self.old.state.master.waiting ≡ None }
        requires sound { is_sound_with self.old.state ballot config ≡ true }
        ensures ok { IfOk result (λ activation. (activation ≡ Activation.Activated)
            × HasKept K.stands self.new (with_active self.old.state ballot config.members)) }
        ensures lost { OnErr result (FailedWith K.keeps K.stands self.old self.new ballot config) }
    {
        let Config { members, primary } = config;
        let (active, earlier) = self.state.make_active(ballot, members);
        if keep(&mut self.keeper, &self.state).is_err() {
            let (_, members) = self.state.make_active(active, earlier);
            self.state
                .set_waiting(Some((ballot, Config { members, primary })));
            return Err(NotKept);
        }
        Ok(Activation::Activated)
    }

    // Returns whether a ballot that does not wait is the active one.
    fn activation(&self, ballot: u64) -> Activation
        ensures { result ≡ (if ballot == self.now.state.master.active
            then Activation.Activated else Activation.Superseded) }
    {
        if ballot == self.state.active {
            Activation::Activated
        } else {
            Activation::Superseded
        }
    }
}

// Keeps a state.
fn keep<K: Keeper>(keeper: &mut K, state: &State) -> Result<(), NotKept>
    requires { is_sound state.now.next state.now.master ≡ true }
    ensures asked { K.keeps keeper.old (form state.now) (is_ok result) keeper.new }
    ensures ok { OnOk result (K.stands keeper.new ≡ form state.now ∷ []) }
    ensures err { OnErr result
        (AreAmong (K.stands keeper.new) (form state.now ∷ K.stands keeper.old)) }
{
    keeper.keep(&state.bytes())
}
