// A subscriber's side of the handshakes at QoS 2.

use crate::clients::came::{Came, StreamState, compare};
use crate::clients::hearing::{hear_any, send};
use std::alloc::AllocError;
use std::net::TcpStream;

/// The first bytes of a PUBLISH at QoS 2 that is as long as those of `publish` (MQTT 3.3.1).
const PUBLISH: [u8; 2] = [0x34, 8];

/// The same with DUP.
const PUBLISH_AGAIN: [u8; 2] = [0x3C, 8];

/// The first bytes of a PUBREL: MQTT 3.6.1.
const PUBREL: [u8; 2] = [0x62, 2];

/// What a subscriber accepted of publications at QoS 2, each once (MQTT 4.3.3).
#[derive(Drop)]
pub struct Heard {
    // Their payloads.
    payloads: Vec<u8>,
    // The identifiers whose PUBREL has not come.
    unreleased: Vec<[u8; 2]>,
}

impl Heard {
    /// Returns a subscriber that accepted nothing yet.
    pub fn new<R: AllocGlobal>(rt: &R) -> Heard {
        Heard {
            payloads: Vec::new(rt.alloc()),
            unreleased: Vec::new(rt.alloc()),
        }
    }

    /// Checks that it accepted publications of these payloads, in this order.
    pub fn has_accepted(&self, payloads: &[u8]) -> Result<(), Came> {
        compare(self.payloads.as_slice(), payloads, StreamState::Open)
    }

    // Takes the next packet, a PUBLISH or a PUBREL, and returns the answer to it. Where something
    // else comes, a PUBLISH was awaited.
    fn next_answer(&mut self, stream: &mut TcpStream) -> Result<[u8; 4], Came> {
        let mut head = [0; 2];
        hear_any(stream, &mut head)?;
        if head == PUBLISH || head == PUBLISH_AGAIN {
            self.take(stream)
        } else if head == PUBREL {
            self.release(stream)
        } else {
            Err(Came::new(&head, &PUBLISH, StreamState::Open))
        }
    }

    // Takes the parts of a PUBLISH, and returns its PUBREC.
    fn take(&mut self, stream: &mut TcpStream) -> Result<[u8; 4], Came> {
        let mut body = [0; 8];
        hear_any(stream, &mut body)?;
        let [_, _, _, _, _, high, low, payload] = body;
        match self.accept([high, low], payload) {
            Ok(()) => Ok([0x50, 2, high, low]),
            Err(_) => Err(Came::new(&body, &[], StreamState::Unkept)),
        }
    }

    // Accepts a publication of this identifier, unless it did so before.
    fn accept(&mut self, id: [u8; 2], payload: u8) -> Result<(), AllocError> {
        if !self.unreleased.contains(&id) {
            self.unreleased.push(id)?;
            self.payloads.push(payload)?;
        }
        Ok(())
    }

    // Takes in the identifier of a PUBREL: its PUBCOMP.
    fn release(&mut self, stream: &mut TcpStream) -> Result<[u8; 4], Came> {
        let mut id = [0; 2];
        hear_any(stream, &mut id)?;
        self.unreleased.retain(|other| *other != id);
        let [high, low] = id;
        Ok([0x70, 2, high, low])
    }

    /// Takes the next packet, and sends the answer to it.
    pub fn answer(&mut self, stream: &mut TcpStream) -> Result<(), Came> {
        let answer = self.next_answer(stream)?;
        send(stream, &answer)
    }
}
