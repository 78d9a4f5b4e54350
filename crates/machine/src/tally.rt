// A machine that adds numbers: an example that shows that the laws can be satisfied.

use crate::error::{Halted, Memory, ThawFault};
use crate::machine::Machine;
use std::alloc::Global;

/// The sum of the numbers that it was given, modulo 2^64.
#[derive(Debug, Drop, PartialEq, Eq)]
pub struct Tally {
    // Modulo 2^64.
    total: u64,
}

/// A command of a [`Tally`].
#[derive(Clone, Copy, Debug, PartialEq, Eq)]
pub enum TallyCommand {
    /// Adds this number and outputs the new total.
    Add(u64),
    /// A ballot of this number begins: changes nothing and outputs nothing.
    Start(u64),
}

impl Machine for Tally {
    ghost use Rattle.std.specs.Prelude.{ℕ, List, Option, Some, None, ◌≡◌, ◌<◌, ◌^◌};
    ghost use Rattle.machine.specs.Tally.{tally_needs, tally_rules, total_bytes, tally_of};
    ghost use Rattle.machine.specs.Tally.{IsTallyCommand};
    ghost use Rattle.machine.specs.Inside.{IsTotal-opening, IsTotal-after, tally_of-bytes_of};

    type Command = TallyCommand;

    type Output = u64;

    ghost rules = { tally_rules };

    ghost needs = { tally_needs };

    ghost IsState = { λ tally. tally.total < 2 ^ 64 };

    ghost IsCommand = { IsTallyCommand };

    fn copy(_alloc: Global, command: &TallyCommand) -> Result<TallyCommand, Memory> {
        let copied = match command {
            TallyCommand::Add(number) => TallyCommand::Add(*number),
            TallyCommand::Start(ballot) => TallyCommand::Start(*ballot),
        };
        Ok(copied)
    }

    fn fresh(_alloc: Global) -> Result<Tally, Memory> {
        Ok(Tally { total: 0 })
    }

    fn start(ballot: u64) -> TallyCommand {
        TallyCommand::Start(ballot)
    }

    fn apply(&mut self, command: &TallyCommand, out: &mut Vec<u64>) -> Result<(), Halted> {
        let total = self.total;
        match command {
            TallyCommand::Add(number) => {
                let total = total.wrapping_add(*number);
                out.push(total)?;
                self.total = total;
            }
            TallyCommand::Start(_) => {}
        }
        Ok(())
    }

    fn freeze(&self, bytes: &mut Vec<u8>) -> Result<(), Memory> {
        let spelled = self.total.to_be_bytes();
        bytes.extend_from_slice(&spelled)?;
        Ok(())
    }

    fn thaw(_alloc: Global, bytes: &[u8]) -> Result<Tally, ThawFault> {
        match <[u8; 8]>::try_from(bytes) {
            Ok(spelled) => Ok(Tally {
                total: u64::from_be_bytes(spelled),
            }),
            Err(_) => Err(ThawFault::Shape),
        }
    }

    ghost opens = { IsTotal-opening };

    ghost keeps = { λ tally command is_state is_command.
        IsTotal-after tally.total command is_state };

    ghost thaws = { λ tally is_state. tally_of-bytes_of tally.total is_state };
}
