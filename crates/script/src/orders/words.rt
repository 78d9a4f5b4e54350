// The words of orders: numbers of nodes and identifiers of clients.

ghost use Rattle.std.specs.Prelude.{◌≡◌, Some, None, IfErr, IfOk, OnOk};
ghost use Rattle.packet_base.specs.ClientId.{client_fault};
ghost use Rattle.std.specs.Char.{is_ascii_digit};
ghost use Rattle.std.specs.List.{list_all};
ghost use Rattle.script.specs.Fields.{is_decimal};
ghost use Rattle.script.specs.Orders.{AreNumbers, IsNoOrder, IsWordRefused, LacksNumber, named_node, no_order};

use crate::fields::parts_of;
use crate::orders::word_fault::WordFault;
use ballot_base::Members;
use packet_base::ClientId;
use std::alloc::Global;

/// The number by which a line is refused that is no order, or cannot be obeyed now.
pub const NO_ORDER: u8 = 24;

/// Returns the refusal of a line that is no order.
pub fn no_order() -> WordFault
    ensures { result ≡ no_order }
{
    WordFault::Refused(NO_ORDER)
}

/// Returns the number of a word of digits, or 255, which no node has, for greater ones. Any other
/// word is no order.
pub(crate) fn named_node(word: &str) -> Result<u8, WordFault>
    ensures number { IfOk result (λ number. named_node word.now ≡ Some number) }
    ensures refused { IfErr result (IsNoOrder (named_node word.now ≡ None)) }
{
    if !is_decimal(word) {
        return Err(no_order());
    }
    Ok(word.parse::<u8>().unwrap_or(u8::MAX))
}

// Returns true if a word is one decimal digit or more.
fn is_decimal(word: &str) -> bool
    ensures { result ≡ is_decimal word.now }
{
    !word.is_empty() && are_digits(word.as_bytes())
}

fn are_digits(bytes: &[u8]) -> bool
    ensures { result ≡ list_all is_ascii_digit bytes.now }
{
    bytes.iter().all(|byte| byte.is_ascii_digit())
}

/// Returns the numbers between the commas of a word, or why it is refused.
pub fn members_of(alloc: Global, word: &str) -> Result<Members, WordFault>
    ensures members { IfOk result (AreNumbers word.now) }
    ensures refused { IfErr result (IsNoOrder (LacksNumber word.now)) }
{
    let Ok(parts) = parts_of(alloc, word) else {
        return Err(WordFault::Memory);
    };
    let parts = parts.as_slice();
    let mut numbers = Vec::new(alloc);
    for part in parts {
        let number = named_node(part)?;
        if numbers.push(number).is_err() {
            return Err(WordFault::Memory);
        }
    }
    match Members::from_slice(alloc, numbers.as_slice()) {
        Ok(members) => Ok(members),
        Err(_) => Err(WordFault::Memory),
    }
}

/// Returns the client with this identifier, or why it is refused.
pub fn client_of(alloc: Global, word: &str) -> Result<ClientId, WordFault>
    ensures value { IfOk result (λ client. client ≡ word.now) }
    ensures sound { OnOk result (client_fault word.now ≡ None) }
    ensures refused { IfErr result (IsWordRefused word.now) }
{
    match ClientId::new(alloc, word) {
        Ok(client) => Ok(client),
        Err(kind) => Err(WordFault::from(kind)),
    }
}
