// The kinds of notices, each with its level and its name.

ghost use Rattle.std.specs.Prelude.{◌≡◌, ◌<◌};
ghost use Rattle.notices.specs.Kinds.{kind_level, kind_name, kind_number};

use log::Level;
use std::fmt;

/// How many kinds of notices there are.
pub const KINDS: usize = 21;

/// What a notice is about. At most ten lines a second of each kind are told.
#[derive(Clone, Copy, Debug, PartialEq, Eq)]
pub enum NoticeKind {
    /// A client connected.
    Connected,
    /// A client was silent for longer than one and a half times its keep alive (MQTT 3.1.2.10).
    KeepAlive,
    /// A client sent what MQTT or a limit of this broker forbids (MQTT 4.8).
    Protocol,
    /// Another connection has the client's identifier now (MQTT 3.1.4).
    Replaced,
    /// A session that a publication matches has no room for it.
    FullQueue,
    /// There is no room for another retained topic.
    FullRetained,
    /// The node has as many connections as it serves.
    Connections,
    /// A CONNECT was refused by a CONNACK (MQTT 3.2.2.3).
    Connack,
    /// The client's session was ended by an order.
    Expelled,
    /// A client left too much unread.
    Unread,
    /// A connection sent no whole CONNECT in time.
    NoConnect,
    /// The node is not the active primary.
    NotPrimary,
    /// A connection ended without DISCONNECT.
    Lost,
    /// A session's queue is half full.
    QueueHalf,
    /// A session's queue is full.
    QueueFull,
    /// A full queue has room again.
    QueueRoom,
    /// A node crashed by an order.
    Crashed,
    /// A node stopped because memory ran out.
    Halted,
    /// A ballot was given, and waits for its members.
    TakeoverBegun,
    /// The primary of a ballot serves.
    TakeoverActive,
    /// An order was refused.
    OrderRefused,
}

impl NoticeKind {
    /// Returns the level of its lines.
    pub fn level(self) -> Level
        ensures { result ≡ kind_level self }
    {
        match self {
            NoticeKind::Crashed | NoticeKind::Halted => Level::Error,
            NoticeKind::Protocol
            | NoticeKind::FullQueue
            | NoticeKind::FullRetained
            | NoticeKind::Connections
            | NoticeKind::Connack
            | NoticeKind::Unread
            | NoticeKind::QueueHalf
            | NoticeKind::QueueFull
            | NoticeKind::OrderRefused => Level::Warn,
            NoticeKind::Connected => Level::Debug,
            _ => Level::Info,
        }
    }

    // Returns its number, by which a limiter counts it: below `KINDS`, another for each kind.
    pub(crate) fn number(self) -> usize
        ensures number { result ≡ kind_number self }
        ensures small { result < KINDS }
    {
        match self {
            NoticeKind::Connected => 0,
            NoticeKind::KeepAlive => 1,
            NoticeKind::Protocol => 2,
            NoticeKind::Replaced => 3,
            NoticeKind::FullQueue => 4,
            NoticeKind::FullRetained => 5,
            NoticeKind::Connections => 6,
            NoticeKind::Connack => 7,
            NoticeKind::Expelled => 8,
            NoticeKind::Unread => 9,
            NoticeKind::NoConnect => 10,
            NoticeKind::NotPrimary => 11,
            NoticeKind::Lost => 12,
            NoticeKind::QueueHalf => 13,
            NoticeKind::QueueFull => 14,
            NoticeKind::QueueRoom => 15,
            NoticeKind::Crashed => 16,
            NoticeKind::Halted => 17,
            NoticeKind::TakeoverBegun => 18,
            NoticeKind::TakeoverActive => 19,
            NoticeKind::OrderRefused => 20,
        }
    }

    // Returns the kind with a number.
    pub(crate) fn of(number: usize) -> NoticeKind
        requires { number < KINDS }
        ensures { kind_number result ≡ number }
    {
        match number {
            0 => NoticeKind::Connected,
            1 => NoticeKind::KeepAlive,
            2 => NoticeKind::Protocol,
            3 => NoticeKind::Replaced,
            4 => NoticeKind::FullQueue,
            5 => NoticeKind::FullRetained,
            6 => NoticeKind::Connections,
            7 => NoticeKind::Connack,
            8 => NoticeKind::Expelled,
            9 => NoticeKind::Unread,
            10 => NoticeKind::NoConnect,
            11 => NoticeKind::NotPrimary,
            12 => NoticeKind::Lost,
            13 => NoticeKind::QueueHalf,
            14 => NoticeKind::QueueFull,
            15 => NoticeKind::QueueRoom,
            16 => NoticeKind::Crashed,
            17 => NoticeKind::Halted,
            18 => NoticeKind::TakeoverBegun,
            19 => NoticeKind::TakeoverActive,
            _ => NoticeKind::OrderRefused,
        }
    }

    /// Returns its name, a few words.
    pub fn name(self) -> &'static str
        ensures { result.now ≡ kind_name self }
    {
        match self {
            NoticeKind::Connected => "connected",
            NoticeKind::KeepAlive => "keep alive ended",
            NoticeKind::Protocol => "protocol fault",
            NoticeKind::Replaced => "another connection has its identifier",
            NoticeKind::FullQueue => "full queue",
            NoticeKind::FullRetained => "no room for another retained topic",
            NoticeKind::Connections => "too many connections",
            NoticeKind::Connack => "CONNACK",
            NoticeKind::Expelled => "expelled",
            NoticeKind::Unread => "too much unread",
            NoticeKind::NoConnect => "no CONNECT in time",
            NoticeKind::NotPrimary => "not the active primary",
            NoticeKind::Lost => "no DISCONNECT",
            NoticeKind::QueueHalf => "queue half full",
            NoticeKind::QueueFull => "queue full",
            NoticeKind::QueueRoom => "queue has room again",
            NoticeKind::Crashed => "crashed",
            NoticeKind::Halted => "out of memory",
            NoticeKind::TakeoverBegun => "takeover begun",
            NoticeKind::TakeoverActive => "takeover active",
            NoticeKind::OrderRefused => "order refused",
        }
    }
}

impl fmt::Display for NoticeKind {
    ghost use Rattle.std.specs.Prelude.{Some};
    ghost use Rattle.notices.specs.Kinds.{kind_name};

    ghost output = { λ kind. Some (kind_name kind) };

    fn fmt<W: fmt::Write>(&self, f: &mut fmt::Formatter<W>) -> fmt::Result {
        f.write_str(self.name())
    }
}
