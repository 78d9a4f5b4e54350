// The first line of a script.

ghost use Rattle.std.specs.Prelude.{◌≡◌, ◌≢◌, Some, None, Err, IfOk, OnOk, IsErrOf, true, false};
ghost use Rattle.std.specs.List.{list_all};
ghost use Rattle.script.specs.Fields.{texts};
ghost use Rattle.script.specs.Scripts.{are_distinct, are_members, has_client, is_lawful_opening};
ghost use Rattle.script.specs.Inside.Worlds.{is_at_most_max_node, values_of, parse_world};

use crate::error::FieldFault;
use crate::values::{clients, number, numbers};
use ballot_base::{Config, Members};
use packet_base::ClientId;
use std::alloc::Global;

/// The world as a script begins.
#[derive(Drop)]
pub struct Opening {
    /// How many nodes there are, at most `MAX_NODE`, numbered from 1.
    pub nodes: u8,
    /// The configuration of the first ballot, all of whose members are nodes.
    pub config: Config,
    /// The clients, no two of which are the same.
    pub clients: Vec<ClientId>,
}

/// The greatest number of a node, as a number of a script.
const MAX_NODE: u64 = ballot_base::MAX_NODE as u64;

/// Returns the world that the first line opens.
pub(crate) fn opening_of(alloc: Global, fields: &[&str]) -> Result<Opening, FieldFault>
    ensures value { IfOk result (λ opening.
        parse_world (texts fields.now) ≡ Some (values_of opening)) }
    ensures form { IsErrOf result FieldFault.Form → parse_world (texts fields.now) ≡ None }
{
    let [word, count, members, primary, names] = fields else {
        return Err(FieldFault::Form);
    };
    if *word != "world" {
        return Err(FieldFault::Form);
    }
    let count = number(count)?;
    let members = numbers(alloc, members)?;
    let primary = number(primary)?;
    let clients = clients(alloc, names)?;
    let config = config(alloc, count, members.as_slice(), primary)?;
    if !are_distinct(clients.as_slice()) {
        return Err(FieldFault::Form);
    }
    Ok(Opening {
        nodes: count as u8,
        config,
        clients,
    })
}

// Returns the configuration, if a world of `count` nodes may open with it.
fn config(alloc: Global, count: u64, members: &[u64], primary: u64) -> Result<Config, FieldFault>
    ensures members { IfOk result (λ config. config.members ≡ members.now) }
    ensures primary { IfOk result (λ config. config.primary ≡ primary) }
    ensures lawful { OnOk result (is_lawful_opening count members.now primary ≡ true) }
    ensures form { IsErrOf result FieldFault.Form
        → is_lawful_opening count members.now primary ≡ false }
{
    if count > MAX_NODE || !are_members(count, members) {
        return Err(FieldFault::Form);
    }
    if primary > MAX_NODE {
        return Err(FieldFault::Form);
    }
    let members = members_from_numbers(alloc, members)?;
    let config = Config {
        members,
        primary: primary as u8,
    };
    if config.is_lawful() {
        Ok(config)
    } else {
        Err(FieldFault::Form)
    }
}

// Returns true if each member is at most `count`.
fn are_members(count: u64, members: &[u64]) -> bool
    ensures { result ≡ are_members count members.now }
{
    members.iter().all(|member| *member <= count)
}

// Returns the members. Each number is at most the greatest of a node.
fn members_from_numbers(alloc: Global, members: &[u64]) -> Result<Members, FieldFault>
    requires { list_all is_at_most_max_node members.now ≡ true }
    ensures value { IfOk result (λ made. made ≡ members.now) }
    ensures memory { result ≢ Err FieldFault.Form }
{
    let mut bytes: Vec<u8> = Vec::new(alloc);
    for member in members {
        bytes.push(*member as u8)?;
    }
    Members::from_slice(alloc, bytes.as_slice())
        .ok()
        .ok_or(FieldFault::Memory)
}

fn are_distinct(clients: &[ClientId]) -> bool
    ensures { result ≡ are_distinct clients.now }
{
    let Some((client, others)) = clients.split_first() else {
        return true;
    };
    !has_client(others, client) && are_distinct(others)
}

fn has_client(clients: &[ClientId], client: &ClientId) -> bool
    ensures { result ≡ has_client clients.now client.now }
{
    clients.iter().any(|other| other == client)
}
