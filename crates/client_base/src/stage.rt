// The stage of a client's connection.

/// The stage of a client's connection (MQTT 3.1, 3.2).
#[derive(Clone, Copy, Debug, PartialEq, Eq)]
pub enum Stage {
    /// There is no connection.
    Closed,
    /// CONNECT was written, and CONNACK is awaited.
    Opened,
    /// The server accepted the connection.
    Online,
}
