// What a machine must satisfy for its replicas to agree.
//
// The trait says everything that replication knows about a machine. `rules` is one record of pure
// functions; each call is specified by one of them, so a replica's contract can speak of the
// machine of any type. Three laws are proved once for each machine: the opening state is a state, a
// command leads from states to states, and a frozen state is thawed as the same state. The last one
// makes a snapshot as good as the commands that it stands for. A call either has its whole effect
// or reports that memory ran out; only `apply` may then leave the machine half changed, so its
// replica halts and never uses it again.

ghost use Rattle.std.specs.Prelude.{ℕ, List, Option, Some, None, true, ◌≡◌, ◌++◌, IfOk, OnOk, OnErr};
ghost use Rattle.machine.specs.Machine.{Needs, Rules};

use crate::error::{Halted, Memory, ThawFault};
use std::alloc::Global;

/// A deterministic machine: its next state and its outputs depend only on its state and the
/// command. So replicas that apply the same commands in the same order stay equal.
///
/// `rules` has the opening state, the command that begins a ballot, the state after a command and
/// its outputs, and the bytes of a state. `IsState` and `IsCommand` hold for every value in a
/// program: they bound its numbers and sizes.
pub trait Machine: Drop {
    /// A command of the log.
    type Command: Drop;
    /// An output of a command.
    type Output: Drop;

    // The opening state, the step and the frozen form, as one record.
    ghost rules: { Rules Self Self.Command Self.Output };

    // When a call may run out of memory; elsewhere none does.
    ghost needs: { Needs Self Self.Command };

    ghost IsState: { Self → Type 0 };

    ghost IsCommand: { Self.Command → Type 0 };

    /// Returns a copy of this command. The only error is that memory ran out, which `needs` allows
    /// for some commands.
    fn copy(alloc: Global, command: &Self::Command) -> Result<Self::Command, Memory>
        ensures same { IfOk result (λ copied. copied ≡ command.now) }
        ensures memory { OnErr result (needs.to_copy command.now ≡ true) }
        ensures valid { IsCommand command.now };

    /// Returns a machine in the opening state. All of them are equal; the only error is that memory
    /// ran out, if `needs` allows it.
    fn fresh(alloc: Global) -> Result<Self, Memory>
        ensures opening { IfOk result (λ machine. machine ≡ rules.opening) }
        ensures memory { OnErr result (needs.to_open ≡ true) };

    /// Returns the command that is appended to the log at the start of each ballot after the first.
    fn start(ballot: u64) -> Self::Command
        ensures { result ≡ rules.start_of ballot };

    /// Applies one command and appends its outputs to `out`. [`Halted`] comes only if memory ran
    /// out, which `needs` allows for some commands: `out` is then as before, and the machine is not
    /// used again.
    fn apply(&mut self, command: &Self::Command, out: &mut Vec<Self::Output>) -> Result<(), Halted>
        ensures state { OnOk result (self.new ≡ rules.after self.old command.now) }
        ensures outputs { OnOk result
            (out.new.items ≡ out.old.items ++ rules.gives self.old command.now) }
        ensures err { OnErr result (out.new.items ≡ out.old.items) }
        ensures memory { OnErr result (needs.to_apply self.old command.now ≡ true) }
        ensures valid { IsState self.old };

    /// Appends the bytes of this state to `bytes`, which stay as they were if memory runs out.
    fn freeze(&self, bytes: &mut Vec<u8>) -> Result<(), Memory>
        ensures ok { OnOk result (bytes.new.items ≡ bytes.old.items ++ rules.frozen self.now) }
        ensures err { OnErr result (bytes.new.items ≡ bytes.old.items) }
        ensures valid { IsState self.now };

    /// Returns the machine that was frozen to these bytes. [`ThawFault::Shape`] comes only if no
    /// machine is frozen to them, [`ThawFault::Memory`] only if memory ran out, which `needs` allows
    /// for some bytes.
    fn thaw(alloc: Global, bytes: &[u8]) -> Result<Self, ThawFault>
        ensures ok { IfOk result (λ machine. rules.thawed bytes.now ≡ Some machine) }
        ensures shape { result ≡ Err ThawFault.Shape → rules.thawed bytes.now ≡ None }
        ensures memory { result ≡ Err ThawFault.Memory → needs.to_thaw bytes.now ≡ true };

    // The laws.
    ghost opens: { IsState rules.opening };

    ghost keeps: { (state : Self) (command : Self.Command) →
        IsState state → IsCommand command → IsState (rules.after state command) };

    ghost thaws: { (state : Self) →
        IsState state → rules.thawed (rules.frozen state) ≡ Some state };
}
