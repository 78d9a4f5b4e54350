// Why a connection was closed.

ghost use Rattle.std.specs.Prelude.{◌≡◌};
ghost use Rattle.notices.specs.Lines.{reason_kind};

use crate::escaping::Quoted;
use crate::kind::NoticeKind;
use packet_base::RefusalCode;
use std::fmt;
use topics::MalformedKind;

/// Why a connection was closed, for another reason than DISCONNECT. `docs/MANUAL.md` says what to
/// do about each.
#[derive(Clone, Copy)]
pub enum CloseReason<'a> {
    /// The client was silent for longer than one and a half times its keep alive (MQTT 3.1.2.10).
    KeepAlive,
    /// It sent what MQTT or a limit of this broker forbids (MQTT 4.8).
    Protocol(MalformedKind),
    /// Another connection has its identifier now (MQTT 3.1.4).
    Replaced,
    /// It published to this session, whose queue is full.
    FullQueue(&'a str),
    /// It published a retained message on a topic too many.
    FullRetained,
    /// The node had as many connections as it serves.
    Connections,
    /// Its CONNECT was refused (MQTT 3.2.2.3).
    Connack(RefusalCode),
    /// Its session was ended by an order.
    Expelled,
    /// It left too much unread.
    Unread,
    /// It sent no whole CONNECT in time.
    NoConnect,
    /// The node is not the active primary.
    NotPrimary,
    /// Its connection ended or failed.
    Lost,
}

impl CloseReason<'_> {
    /// Returns the kind of the notice.
    pub fn kind(&self) -> NoticeKind
        ensures { result ≡ reason_kind self.now }
    {
        match self {
            CloseReason::KeepAlive => NoticeKind::KeepAlive,
            CloseReason::Protocol(_) => NoticeKind::Protocol,
            CloseReason::Replaced => NoticeKind::Replaced,
            CloseReason::FullQueue(_) => NoticeKind::FullQueue,
            CloseReason::FullRetained => NoticeKind::FullRetained,
            CloseReason::Connections => NoticeKind::Connections,
            CloseReason::Connack(_) => NoticeKind::Connack,
            CloseReason::Expelled => NoticeKind::Expelled,
            CloseReason::Unread => NoticeKind::Unread,
            CloseReason::NoConnect => NoticeKind::NoConnect,
            CloseReason::NotPrimary => NoticeKind::NotPrimary,
            CloseReason::Lost => NoticeKind::Lost,
        }
    }
}

impl fmt::Display for CloseReason<'_> {
    ghost use Rattle.notices.specs.Lines.{reason_text};

    ghost output = { reason_text };

    fn fmt<W: fmt::Write>(&self, f: &mut fmt::Formatter<W>) -> fmt::Result {
        let name = self.kind().name();
        match self {
            CloseReason::Protocol(fault) => write!(f, "{name}: {fault}"),
            CloseReason::FullQueue(session) => {
                let session = Quoted(session);
                write!(f, "{name} of {session}")
            }
            CloseReason::Connack(code) => {
                let code = code.number();
                write!(f, "{name} {code}")
            }
            _ => f.write_str(name),
        }
    }
}
