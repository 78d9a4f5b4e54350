// What an operator is told.

ghost use Rattle.std.specs.Prelude.{◌≡◌};
ghost use Rattle.std.specs.Fmt.{DisplaysOnOk, WritesOnOk};
ghost use Rattle.notices.specs.Lines.{closed_text, notice_kind, queue_kind, queue_text, takeover_text};

use crate::close_reason::CloseReason;
use crate::escaping::Quoted;
use crate::kind::NoticeKind;
use std::fmt;

/// How full a session's queue is.
#[derive(Clone, Copy, Debug, PartialEq, Eq)]
pub enum QueueState {
    /// It holds half as many messages as it may.
    HalfFull,
    /// It holds as many messages as it may: whoever publishes what matches is closed.
    Full,
    /// It was full, and has room again.
    HasRoom,
}

impl QueueState {
    // Returns the kind of the notice.
    fn kind(self) -> NoticeKind
        ensures { result ≡ queue_kind self }
    {
        match self {
            QueueState::HalfFull => NoticeKind::QueueHalf,
            QueueState::Full => NoticeKind::QueueFull,
            QueueState::HasRoom => NoticeKind::QueueRoom,
        }
    }
}

/// What an operator is told. Its text is one line: each identifier and order in it is [`Quoted`].
#[derive(Clone, Copy)]
pub enum Notice<'a> {
    /// A client connected to a node, and its CONNECT was accepted.
    Connected {
        client: &'a str,
        node: u8,
    },
    /// A connection was closed by a node. A connection without a CONNECT has no client.
    Closed {
        client: Option<&'a str>,
        node: u8,
        why: CloseReason<'a>,
    },
    /// The queue of a session holds `queued` messages of at most `limit`.
    Queue {
        session: &'a str,
        state: QueueState,
        queued: u16,
        limit: u16,
    },
    /// A node crashed by an order.
    Crashed {
        node: u8,
    },
    /// A node stopped because memory ran out.
    Halted {
        node: u8,
    },
    /// A ballot was given to its members, and waits until each of them holds all that was answered.
    TakeoverBegun {
        ballot: u64,
        primary: u8,
    },
    /// The primary of a ballot serves.
    TakeoverActive {
        ballot: u64,
        primary: u8,
    },
    /// An order was refused, with this number.
    OrderRefused {
        order: &'a str,
        number: u8,
    },
}

impl Notice<'_> {
    /// Returns its kind, by which lines are limited and have their level.
    pub fn kind(&self) -> NoticeKind
        ensures { result ≡ notice_kind self.now }
    {
        match self {
            Notice::Connected { .. } => NoticeKind::Connected,
            Notice::Closed { why, .. } => why.kind(),
            Notice::Queue { state, .. } => state.kind(),
            Notice::Crashed { .. } => NoticeKind::Crashed,
            Notice::Halted { .. } => NoticeKind::Halted,
            Notice::TakeoverBegun { .. } => NoticeKind::TakeoverBegun,
            Notice::TakeoverActive { .. } => NoticeKind::TakeoverActive,
            Notice::OrderRefused { .. } => NoticeKind::OrderRefused,
        }
    }
}

impl fmt::Display for Notice<'_> {
    ghost use Rattle.notices.specs.Lines.{notice_text};

    ghost output = { notice_text };

    fn fmt<W: fmt::Write>(&self, f: &mut fmt::Formatter<W>) -> fmt::Result {
        match self {
            Notice::Connected { client, node } => {
                write!(f, "client {} connected to node {node}", Quoted(client))
            }
            Notice::Closed { client, node, why } => put_closed(f, client, *node, why),
            Notice::Queue {
                session,
                state,
                queued,
                limit,
            } => put_queue(f, session, state.kind(), *queued, *limit),
            Notice::Crashed { node } => write!(f, "node {node} crashed"),
            Notice::Halted { node } => write!(f, "node {node} stopped: out of memory"),
            Notice::TakeoverBegun { ballot, primary } => put_takeover(
                f, "begun", *ballot, *primary,
            ),
            Notice::TakeoverActive { ballot, primary } => {
                put_takeover(f, "active", *ballot, *primary)
            }
            Notice::OrderRefused { order, number } => {
                write!(f, "order {} refused {number}", Quoted(order))
            }
        }
    }
}

// Writes that a connection was closed.
fn put_closed<W: fmt::Write>(
    f: &mut fmt::Formatter<W>,
    client: &Option<&str>,
    node: u8,
    why: &CloseReason<'_>,
) -> fmt::Result
    ensures { DisplaysOnOk W.write_str_gives f.old result
        (closed_text client.now node why.now) f.new }
{
    match client {
        None => write!(f, "connection closed by node {node}: {why}"),
        Some(client) => {
            let client = Quoted(client);
            write!(f, "client {client} closed by node {node}: {why}")
        }
    }
}

// Writes how far a takeover is.
fn put_takeover<W: fmt::Write>(
    f: &mut fmt::Formatter<W>,
    state: &str,
    ballot: u64,
    primary: u8,
) -> fmt::Result
    ensures { WritesOnOk W.write_str_gives f.old result
        (takeover_text state.now ballot primary) f.new }
{
    write!(f, "takeover {state}: ballot {ballot}, primary {primary}")
}

// Writes how full a queue is.
fn put_queue<W: fmt::Write>(
    f: &mut fmt::Formatter<W>,
    session: &str,
    kind: NoticeKind,
    queued: u16,
    limit: u16,
) -> fmt::Result
    ensures { WritesOnOk W.write_str_gives f.old result
        (queue_text session.now kind queued limit) f.new }
{
    let session = Quoted(session);
    write!(f, "session {session}: {kind}, {queued} of {limit} messages")
}
