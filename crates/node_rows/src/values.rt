// The values that fields stand for.

ghost use Rattle.std.specs.Prelude.{◌≡◌, Some, IfOk};
ghost use Rattle.rows.specs.Fields.{number_of};
ghost use Rattle.node_rows.specs.Values.{IsConfig, IsPort};

use ballot_base::{Config, Members};
use rows::{Field, StepFault};
use std::alloc::Global;
use world_base::Port;

/// Returns the number whose digits a field is.
pub(crate) fn number_of(field: &Field) -> Result<u64, StepFault>
    ensures { IfOk result (λ number. number_of field.now ≡ Some number) }
{
    match field.number() {
        Some(number) => Ok(number),
        None => Err(StepFault::Form),
    }
}

/// Returns the number of a node, or of the master, whose digits a field is.
pub(crate) fn node_of(field: &Field) -> Result<u8, StepFault>
    ensures { IfOk result (λ node. number_of field.now ≡ Some node) }
{
    match field.number() {
        Some(number) if number < 256 => Ok(number as u8),
        _ => Err(StepFault::Form),
    }
}

/// Returns the port whose number a field is.
pub(crate) fn port_of(field: &Field) -> Result<Port, StepFault>
    ensures { IfOk result (IsPort field.now) }
{
    match field.number() {
        Some(number) => Ok(Port(number)),
        None => Err(StepFault::Form),
    }
}

/// Returns the configuration whose members are the bytes of a field.
pub(crate) fn config_of(
    alloc: Global,
    members: &Field,
    primary: &Field,
) -> Result<Config, StepFault>
    ensures { IfOk result (IsConfig members.now primary.now) }
{
    let primary = node_of(primary)?;
    match Members::from_slice(alloc, members.as_slice()) {
        Ok(members) => Ok(Config { members, primary }),
        Err(_) => Err(StepFault::Memory),
    }
}
