// What a test that fails shows of a stream: what came in place of what was awaited.

use std::fmt;

/// How many bytes are shown of what was read, and of what was awaited.
pub(crate) const SHOWN: usize = 24;

/// What a stream was after a step of a test.
#[derive(Clone, Copy, Debug, PartialEq, Eq)]
pub enum StreamState {
    /// It was not opened.
    Unopened,
    /// There was no memory for it, or for what came on it.
    Unkept,
    /// It took no more bytes, or no limit of time.
    Refusing,
    /// It was open, and more may have come.
    Open,
    /// The server ended it.
    Ended,
    /// Nothing more came in time.
    Silent,
    /// A read failed.
    Failed,
}

/// Some bytes, of which 24 are shown: the first ones, or those from an index on.
#[derive(Clone, Copy, PartialEq, Eq)]
pub struct Excerpt {
    // How many bytes there were.
    len: usize,
    // The index of the first one that is shown.
    from: usize,
    // The bytes from there on; zeros after the last.
    bytes: [u8; SHOWN],
}

impl Excerpt {
    // Returns these bytes, shown from an index on.
    fn new(bytes: &[u8], from: usize) -> Excerpt {
        let mut shown = [0; SHOWN];
        for (to, byte) in shown.iter_mut().zip(bytes.iter().skip(from)) {
            *to = *byte;
        }
        Excerpt {
            len: bytes.len(),
            from,
            bytes: shown,
        }
    }
}

impl fmt::Debug for Excerpt {
    fn fmt<W: fmt::Write>(&self, f: &mut fmt::Formatter<W>) -> fmt::Result {
        let len = self.len;
        let from = self.from;
        write!(f, "{len} bytes, from {from}:")?;
        for byte in self.bytes.iter().take(len.saturating_sub(from)) {
            let byte = *byte;
            write!(f, " {byte:02X}")?;
        }
        Ok(())
    }
}

/// What came in place of what was awaited.
#[derive(Clone, Copy, Debug, PartialEq, Eq)]
pub struct Came {
    /// The bytes that were awaited.
    pub wanted: Excerpt,
    /// The bytes that were read.
    pub read: Excerpt,
    /// What the stream was then.
    pub stream: StreamState,
}

impl Came {
    /// Returns what came where these bytes were read and those were awaited. Of more than 24 both
    /// are shown from the first one on that differs.
    pub(crate) fn new(read: &[u8], wanted: &[u8], stream: StreamState) -> Came {
        let from = if wanted.len() > SHOWN {
            first_fault(read, wanted)
        } else {
            0
        };
        Came {
            wanted: Excerpt::new(wanted, from),
            read: Excerpt::new(read, from),
            stream,
        }
    }

    /// Returns what came where no bytes were read, and none were awaited.
    pub fn nothing(stream: StreamState) -> Came {
        Came::new(&[], &[], stream)
    }
}

// Returns the index of the first byte that differs; the shorter length if none does.
fn first_fault(read: &[u8], wanted: &[u8]) -> usize {
    let mut at: usize = 0;
    for (one, other) in read.iter().zip(wanted) {
        if *one != *other {
            return at;
        }
        at = at.saturating_add(1);
    }
    at
}

/// Compares the bytes that were read with those that were awaited.
pub(crate) fn compare(read: &[u8], wanted: &[u8], stream: StreamState) -> Result<(), Came> {
    if read == wanted {
        Ok(())
    } else {
        Err(Came::new(read, wanted, stream))
    }
}
