// How the bytes of a connection ended.

/// How [`report_connection`](crate::connection::report_connection) ended.
#[derive(Clone, Copy, Debug, PartialEq, Eq)]
pub enum Ending {
    /// The connection was refused: nothing was read.
    Refused,
    /// The device had no more bytes.
    End,
    /// A read failed.
    Fault,
    /// Memory ran out. A piece that was read then, if there was one, was not reported.
    Memory,
}
