// What a server takes a while to read: many small packets, and large ones.

use crate::clients::came::Came;
use crate::clients::client::ping;
use crate::clients::hearing::{hear_into, send_times};
use std::alloc::{AllocError, Global};
use std::net::TcpStream;

/// What is sent in a flood, what has to be answered, and a buffer for what is.
#[derive(Drop)]
pub struct Flood {
    // The PINGREQ that are sent at a time, 64 KiB of them.
    sent: Vec<u8>,
    // As many PINGRESP.
    wanted: Vec<u8>,
    // As long as these.
    buffer: Vec<u8>,
}

impl Flood {
    /// Returns 32,768 PINGREQ, and as many PINGRESP.
    pub fn new(alloc: Global) -> Result<Flood, AllocError> {
        Ok(Flood {
            sent: packets(alloc, 0xC0)?,
            wanted: packets(alloc, 0xD0)?,
            buffer: packets(alloc, 0)?,
        })
    }

    /// Sends the PINGREQ, this many times.
    pub fn send_to(&self, stream: &mut TcpStream, times: u8) -> Result<(), Came> {
        send_times(stream, self.sent.as_slice(), times)
    }

    /// Awaits the PINGRESP, this many times.
    pub fn hear_from(&mut self, stream: &mut TcpStream, times: u8) -> Result<(), Came> {
        for _ in 0..times {
            hear_into(stream, self.buffer.as_mut_slice(), self.wanted.as_slice())?;
        }
        Ok(())
    }
}

// 64 KiB of packets of this first byte, with nothing in them.
fn packets(alloc: Global, first: u8) -> Result<Vec<u8>, AllocError> {
    let mut bytes = Vec::with_capacity(alloc, 65_536)?;
    for _ in 0..32_768 {
        bytes.extend_from_slice(&[first, 0])?;
    }
    Ok(bytes)
}

/// Returns a PUBLISH at QoS 0 on `t/1` with 1,000,000 bytes of payload. The 1,000,005 bytes after
/// its length are 69 + 128 * (4 + 128 * 61).
pub fn large_publish(alloc: Global) -> Result<Vec<u8>, AllocError> {
    let mut bytes = Vec::from_elem(alloc, 0u8, 1_000_009)?;
    if let Some(beginning) = bytes.first_chunk_mut() {
        *beginning = [0x30, 0x80 + 69, 0x80 + 4, 61, 0, 3, 0x74, 0x2F, 0x31];
    }
    Ok(bytes)
}

/// Sends a publication, this many times, and awaits the answer to a PINGREQ that follows.
pub fn publish_times(stream: &mut TcpStream, publish: &[u8], times: u8) -> Result<(), Came> {
    send_times(stream, publish, times)?;
    ping(stream)
}
