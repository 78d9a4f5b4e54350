// The broker as the machine that a replica drives.
//
// A machine is the tables and an invariant over them: the state is sound, within its limits and
// ranges, and the map of connections and the index agree with the sessions. The tables alone have
// no invariant: in the middle of a command the maps and the sessions differ. `apply` collects the
// outputs in a vector of its own and appends them at the end, so a command that halts leaves the
// caller's vector as it was; this costs one allocation for each command. If memory runs out in the
// middle of a command nothing is undone: the machine becomes empty, which satisfies the invariant,
// and its replica halts and never uses it again. `thaw` accepts any state in its ranges, not only
// those that some list of commands leads to.

use crate::form_writers::freeze_tables;
use crate::table_readers::thawed_tables;
use crate::tables::Tables;
use broker_base::form::thawed_is_in_range;
use broker_spec::{Command, Output};
use machine::{Halted, Machine, Memory, ThawFault};
use packet_base::Stop;
use std::alloc::Global;
use std::marker::Model;
use topics::MalformedKind;

/// A broker after some list of commands. Its value in contracts is its state: the window, the
/// sessions by client, and the retained publications.
pub struct BrokerMachine {
    // Satisfies its limits; the map of connections and the index agree with the sessions.
    tables: Tables,
}

impl Drop for BrokerMachine {
    fn drop(self) {
        let BrokerMachine { tables: _tables } = self;
    }
}

impl Model for BrokerMachine {
    ghost use Rattle.broker_base.specs.State.{State};
    ghost use Rattle.broker_base.specs.form.FormTheorems.{IsUsualState};
    ghost use Rattle.broker.specs.tables.Tables.{IsTied, state_in};

    ghost Value = { State };

    ghost view = { λ machine. state_in machine.tables };

    ghost invariant = { λ machine. IsUsualState (state_in machine.tables) × IsTied machine.tables };
}

// The opening state is empty; a command is one `step` of `broker_base` with the limits of this
// broker. `freeze` writes form 2, `thaw` also reads form 1.
impl Machine for BrokerMachine {
    ghost use Rattle.broker_spec.specs.Logged.{IsBrokerCommand};
    ghost use Rattle.broker_base.specs.form.FormTheorems.{IsUsualState};
    ghost use Rattle.broker_base.proofs.of_form.Thawing.{frozen_is_thawed};
    ghost use Rattle.broker_base.specs.form.BrokerRules.{broker_rules};
    ghost use Rattle.broker_base.specs.form.Needs.{broker_needs};
    ghost use Rattle.broker_base.proofs.of_form.UsualStates.{empty_is_usual, stays_usual};

    type Command = Command;

    type Output = Output;

    ghost rules = { broker_rules };

    ghost needs = { broker_needs };

    ghost IsState = { IsUsualState };

    ghost IsCommand = { IsBrokerCommand };

    ghost opens = { empty_is_usual };

    ghost keeps = { stays_usual };

    ghost thaws = { frozen_is_thawed };

    fn copy(_alloc: Global, command: &Command) -> Result<Command, Memory> {
        command.ensure_ranges();
        Ok(command.copy()?)
    }

    fn fresh(alloc: Global) -> Result<BrokerMachine, Memory> {
        Ok(BrokerMachine {
            tables: Tables::new(alloc),
        })
    }

    fn start(ballot: u64) -> Command {
        Command::Start(ballot)
    }

    fn apply(&mut self, command: &Command, out: &mut Vec<Output>) -> Result<(), Halted> {
        command.ensure_ranges();
        let mut given = Vec::new(*out.allocator());
        if self.tables.apply(command, &mut given).is_err() {
            // The tables may be half changed, and empty ones satisfy the invariant. No session is
            // lost by this: a replica that halted does not use its machine again.
            self.tables = Tables::new(*out.allocator());
            return Err(Halted);
        }
        out.append(&mut given)?;
        Ok(())
    }

    fn freeze(&self, bytes: &mut Vec<u8>) -> Result<(), Memory> {
        freeze_tables(&self.tables, bytes)?;
        Ok(())
    }

    fn thaw(alloc: Global, bytes: &[u8]) -> Result<BrokerMachine, ThawFault> {
        thawed_is_in_range();
        match thawed_tables(alloc, bytes) {
            Ok(tables) => Ok(BrokerMachine { tables }),
            Err(Stop::Malformed(MalformedKind::Memory)) => Err(ThawFault::Memory),
            Err(_) => Err(ThawFault::Shape),
        }
    }
}
