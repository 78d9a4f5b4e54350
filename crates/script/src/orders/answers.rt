// What orders are answered with, as lines.

ghost use Rattle.std.specs.Prelude.{◌≡◌};
ghost use Rattle.script.specs.Answers.{line_text, role_of, text_of_status};

use ballot_base::Status;
use std::fmt;

/// The answer to an order. Its text is a line, without the end of it.
#[derive(Clone, Copy)]
pub enum Answer<'a> {
    /// This ballot was assigned.
    Ballot(u64),
    /// The node of this number was ordered to crash.
    Crashed(u8),
    /// The session of the client with this identifier was ordered to end.
    Expelled(&'a str),
    /// The order is refused, by this number.
    Refused(u8),
}

impl fmt::Display for Answer<'_> {
    ghost use Rattle.std.specs.Prelude.{Some};
    ghost use Rattle.script.specs.Answers.{answer_text};

    ghost output = { λ answer. Some (answer_text answer) };

    fn fmt<W: fmt::Write>(&self, f: &mut fmt::Formatter<W>) -> fmt::Result {
        match self {
            Answer::Ballot(ballot) => write!(f, "ballot {ballot}"),
            Answer::Crashed(number) => write!(f, "crashed {number}"),
            Answer::Expelled(client) => write!(f, "expel {client}"),
            Answer::Refused(number) => write!(f, "refused {number}"),
        }
    }
}

/// A node's status as an answer to `status`. Its text is a line, without the end of it.
#[derive(Clone, Copy)]
pub struct StatusLine<'a> {
    /// The number of the node.
    pub number: u8,
    /// The ballot that it joined last; 0 for none.
    pub ballot: u64,
    /// The word for what it does.
    pub role: &'a str,
    /// How many commands it holds.
    pub held: u64,
    /// Of how many it knows that all members hold them.
    pub committed: u64,
}

impl fmt::Display for StatusLine<'_> {
    ghost use Rattle.std.specs.Prelude.{Some};
    ghost use Rattle.script.specs.Answers.{line_text};

    ghost output = { λ line. Some (line_text line) };

    fn fmt<W: fmt::Write>(&self, f: &mut fmt::Formatter<W>) -> fmt::Result {
        let number = self.number;
        let ballot = self.ballot;
        let role = self.role;
        let counts = Counts {
            held: self.held,
            committed: self.committed,
        };
        write!(f, "node {number} ballot {ballot} {role} {counts}")
    }
}

// The end of a status line.
#[derive(Clone, Copy)]
struct Counts {
    held: u64,
    committed: u64,
}

impl fmt::Display for Counts {
    ghost use Rattle.std.specs.Prelude.{Some};
    ghost use Rattle.script.specs.Answers.{counts_text};

    ghost output = { λ counts. Some (counts_text counts.held counts.committed) };

    fn fmt<W: fmt::Write>(&self, f: &mut fmt::Formatter<W>) -> fmt::Result {
        let held = self.held;
        let committed = self.committed;
        write!(f, "held {held} committed {committed}")
    }
}

impl StatusLine<'_> {
    /// Returns the line of a status that the node of this number showed.
    pub fn of(number: u8, status: &Status) -> StatusLine<'static>
        ensures { line_text result ≡ text_of_status number status.now }
    {
        StatusLine {
            number,
            ballot: status.ballot,
            role: role_of(status),
            held: status.held,
            committed: status.committed,
        }
    }
}

// Returns the word for what a node does.
fn role_of(status: &Status) -> &'static str
    ensures { result.now ≡ role_of status.now }
{
    if status.stopped {
        return "crashed";
    }
    if status.ballot == 0 {
        return "none";
    }
    if status.role.is_active() {
        return "primary";
    }
    if status.role.is_fetching() {
        return "fetching";
    }
    if status.role.is_installing() {
        return "installing";
    }
    "backup"
}
