// A client that sends all that it has at once.

use crate::clients::came::Came;
use crate::clients::client::open;
use crate::clients::hearing::{fill, send};
use std::net::{Net, TcpStream};
use streams::Listener;

/// CONNECT of client `a`, SUBSCRIBE to `t/#` and PUBLISH of `x` on `t/1`, both at QoS 2.
const SENT: [u8; 35] = [
    0x10, 0x0D, 0x00, 0x04, 0x4D, 0x51, 0x54, 0x54, 0x04, 0x00, 0x00, 0x3C, 0x00, 0x01, 0x61, 0x82,
    0x08, 0x00, 0x01, 0x00, 0x03, 0x74, 0x2F, 0x23, 0x02, 0x34, 0x08, 0x00, 0x03, 0x74, 0x2F, 0x31,
    0x00, 0x01, 0x78,
];

/// CONNACK, SUBACK, PUBREC, and then the PUBLISH.
const ANSWERS: [u8; ANSWERED] = [
    0x20, 0x02, 0x00, 0x00, 0x90, 0x03, 0x00, 0x01, 0x02, 0x50, 0x02, 0x00, 0x01, 0x34, 0x08, 0x00,
    0x03, 0x74, 0x2F, 0x31, 0x00, 0x01, 0x78,
];

/// The same with the PUBLISH before the PUBREC: both orders are allowed.
const PUBLISH_FIRST: [u8; ANSWERED] = [
    0x20, 0x02, 0x00, 0x00, 0x90, 0x03, 0x00, 0x01, 0x02, 0x34, 0x08, 0x00, 0x03, 0x74, 0x2F, 0x31,
    0x00, 0x01, 0x78, 0x50, 0x02, 0x00, 0x01,
];

/// How many bytes they have.
const ANSWERED: usize = 4 + 5 + 4 + 10;

// Returns true if these are the answers, in one of the two orders.
fn are_answers(got: &[u8]) -> bool {
    got == ANSWERS.as_slice() || got == PUBLISH_FIRST.as_slice()
}

/// Sends all of client `a` at once, and reads the answers.
pub fn visit<R>(rt: &R, listener: Option<&Listener>) -> Result<(), Came>
where
    R: Net<Stream = TcpStream>,
{
    let mut stream = open(rt, listener)?;
    visit_on(&mut stream)
}

// Sends all on this stream, and awaits the answers.
fn visit_on(stream: &mut TcpStream) -> Result<(), Came> {
    let mut buffer = [0; ANSWERED];
    send(stream, &SENT)?;
    let (count, state) = fill(stream, &mut buffer);
    let got = buffer.get(..count).unwrap_or(&[]);
    if are_answers(got) {
        Ok(())
    } else {
        Err(Came::new(got, &ANSWERS, state))
    }
}
