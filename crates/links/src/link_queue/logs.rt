// The names of logs that are sent.

ghost use Rattle.std.specs.Prelude.{◌≡◌};
ghost use Rattle.links.specs.link_queue.Logs.{is_named, is_same, log_name};

use ballot_base::{Body, Message};

/// A log that is sent: its kind of message, and its ballot.
#[derive(Clone, Copy, Debug, PartialEq, Eq)]
pub enum LogName {
    /// A State of this ballot.
    State(u64),
    /// An Install of this ballot.
    Install(u64),
}

/// Returns the name of the log that a message carries, if it does.
pub fn log_name<C>(message: &Message<C>) -> Option<LogName>
    ensures { result ≡ log_name message.now }
{
    match &message.body {
        Body::State(ballot, _) => Some(LogName::State(*ballot)),
        Body::Install(ballot, _) => Some(LogName::Install(*ballot)),
        _ => None,
    }
}

/// Returns true if two names are of the same kind and ballot.
pub(crate) fn is_same(name: LogName, other: LogName) -> bool
    ensures { result ≡ is_same name other }
{
    match (name, other) {
        (LogName::State(ballot), LogName::State(another)) => ballot == another,
        (LogName::Install(ballot), LogName::Install(another)) => ballot == another,
        _ => false,
    }
}

/// Returns true if a message carries the log of this name.
pub(crate) fn is_named<C>(name: LogName, message: &Message<C>) -> bool
    ensures { result ≡ is_named name message.now }
{
    match log_name(message) {
        Some(other) => is_same(name, other),
        None => false,
    }
}
