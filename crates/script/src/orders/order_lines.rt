// What a line orders.

ghost use Rattle.std.specs.Prelude.{◌≡◌, None, IfErr, IfOk, OnOk};
ghost use Rattle.packet_base.specs.ClientId.{client_fault};
ghost use Rattle.script.specs.Fields.{texts};
ghost use Rattle.script.specs.Orders.{IsNoOrder, IsOrder, IsWordRefused, OrderNothing, Orders, RefusesLine};
ghost use Rattle.script.specs.declared.orders.order_lines.Order.TheVariants as orders;

use crate::fields::fields_of;
use crate::orders::word_fault::WordFault;
use crate::orders::words::{client_of, members_of, named_node, no_order};
use ballot_base::Config;
use packet_base::ClientId;
use std::alloc::Global;

/// An order to what serves: a server, or the master of a cluster.
#[derive(Drop)]
pub enum Order {
    /// Ends it.
    Quit,
    /// Asks for the status of each node.
    Status,
    /// Assigns the next ballot to this configuration.
    Assign(Config),
    /// Lets the node of this number crash.
    Crash(u8),
    /// Ends the session of this client.
    Expel(ClientId),
}

/// Returns the order of a line, or why it is refused.
pub fn order_of(alloc: Global, line: &str) -> Result<Order, WordFault>
    ensures order { IfOk result (IsOrder line.now) }
    ensures refused { IfErr result (RefusesLine line.now) }
{
    if let Some(client) = line.strip_prefix("expel ") {
        return expel_of(alloc, client);
    }
    let Ok(fields) = fields_of(alloc, line) else {
        return Err(WordFault::Memory);
    };
    order_of_words(alloc, fields.as_slice())
}

// Returns the order of a line's words, `expel` apart, or why they are refused.
fn order_of_words(alloc: Global, words: &[&str]) -> Result<Order, WordFault>
    ensures order { IfOk result (Orders (texts words.now)) }
    ensures refused { IfErr result (IsNoOrder (OrderNothing (texts words.now))) }
{
    match words {
        ["quit"] => Ok(Order::Quit),
        ["status"] => Ok(Order::Status),
        ["crash", node] => Ok(Order::Crash(named_node(node)?)),
        ["assign", members, primary] => {
            let members = members_of(alloc, members)?;
            let primary = named_node(primary)?;
            Ok(Order::Assign(Config { members, primary }))
        }
        _ => Err(no_order()),
    }
}

// Returns the order to expel the client, or why its identifier is refused.
fn expel_of(alloc: Global, client: &str) -> Result<Order, WordFault>
    ensures order { IfOk result (λ order. order ≡ orders.Expel client.now) }
    ensures sound { OnOk result (client_fault client.now ≡ None) }
    ensures refused { IfErr result (IsWordRefused client.now) }
{
    Ok(Order::Expel(client_of(alloc, client)?))
}
