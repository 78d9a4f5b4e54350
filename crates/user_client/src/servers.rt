// Where a client gets its connections.

use std::io::{Read, Write};

/// The source of one client's connections, one after another.
pub trait Servers: Drop {
    // A request for a connection led from the first state to the second.
    ghost opens: { Self → Self → Type 0 };

    // A pause led from the first state to the second.
    ghost pauses: { Self → Self → Type 0 };

    /// The stream that bytes are read from and written to.
    type Stream: Read + Write + Drop;

    /// Opens the next connection. Returns none if it cannot be opened.
    fn open(&mut self) -> Option<Self::Stream>
        ensures { opens self.old self.new };

    /// Waits a while before the next connection.
    fn pause(&mut self)
        ensures { pauses self.old self.new };
}
