// That calls do not give up while there is memory, which no clause says: a message of each form is
// written to its bytes, and read from them.

use ballot_base::{Body, Log, Members, Message};
use broker_spec::{Command, ConnectionName, SizedPacket};
use bytes::Bytes;
use links::message_form::{WriteFault, read_message, write_message};
use packet::Packet;
use packet_base::ClientId;
use std::alloc::Global;
use std::test::Fail;
use topics::MalformedKind;

// Returns true if a message of node 3 is written to these bytes, and they are read as a message
// that is written to them again.
fn comes_again(alloc: Global, body: Body<Command>, bytes: &[u8]) -> bool {
    let message = Message { from: 3, body };
    is_written(alloc, message, bytes) && is_read(alloc, bytes)
}

fn is_written(alloc: Global, message: Message<Command>, bytes: &[u8]) -> bool {
    let mut out = Vec::new(alloc);
    let written = write_message(&message, &mut out);
    drop(message);
    written.is_ok() && out.as_slice() == bytes
}

fn is_read(alloc: Global, bytes: &[u8]) -> bool {
    match read_message(alloc, bytes) {
        Ok(message) => is_written(alloc, message, bytes),
        Err(_) => false,
    }
}

#[test]
fn numbers_come_again(rt: HostRuntime) -> Result<(), Fail> {
    let bytes = [2, 3, 0, 0, 0, 0, 0, 0, 1, 2, 0, 0, 0, 0, 0, 0, 0, 1];
    assert!(rt; comes_again(rt.alloc(), Body::Join(258, 1), &bytes));
    let bytes = [6, 3, 0, 0, 0, 0, 0, 0, 0, 7];
    assert!(rt; comes_again(rt.alloc(), Body::Activate(7), &bytes));
    Ok(())
}

#[test]
fn members_come_again(rt: HostRuntime) -> Result<(), Fail> {
    let bytes = [
        1, 3, 0, 0, 0, 0, 0, 0, 0, 2, 2, 1, 3, 0, 0, 0, 0, 0, 0, 0, 1, 3, 1, 2, 3,
    ];
    assert!(rt; matches!(new_ballot(rt.alloc(), &bytes), Ok(true)));
    Ok(())
}

fn new_ballot(alloc: Global, bytes: &[u8]) -> Result<bool, machine::Memory> {
    let members = Members::from_slice(alloc, &[1, 3])?;
    let previous_members = Members::from_slice(alloc, &[1, 2, 3])?;
    let body = Body::NewBallot(2, members, 1, previous_members);
    Ok(comes_again(alloc, body, bytes))
}

// The largest count of members is written, and one more is refused.
#[test]
fn members_are_counted(rt: HostRuntime) -> Result<(), Fail> {
    assert!(rt; matches!(written_members(rt.alloc(), 255), Ok(Ok(()))));
    assert!(rt;
        matches!(
            written_members(rt.alloc(), 256),
            Ok(Err(WriteFault::TooLarge))
        )
    );
    Ok(())
}

fn written_members(alloc: Global, count: usize) -> Result<Result<(), WriteFault>, machine::Memory> {
    let numbers = vec![in alloc; 7u8; count]?;
    let members = Members::from_slice(alloc, &numbers)?;
    let message = Message {
        from: 0,
        body: Body::NewBallot(2, members, 1, Members::new(alloc)),
    };
    let mut out = Vec::new(alloc);
    let written = write_message(&message, &mut out);
    drop(message);
    Ok(written)
}

#[test]
fn logs_come_again(rt: HostRuntime) -> Result<(), Fail> {
    let bytes = [
        4, 3, 0, 0, 0, 0, 0, 0, 0, 6, 0, 0, 0, 0, 0, 0, 0, 5, 0, 0, 0, 0, 0, 0, 0, 2, 9, 8, 0, 0,
        0, 0, 0, 0, 0, 3, 0, 0, 0, 19, 2, 0, 0, 0, 0, 0, 0, 0, 1, 0, 0, 0, 0, 0, 0, 0, 2, 0xC0, 0,
        0, 0, 0, 9, 4, 0, 0, 0, 0, 0, 0, 0, 4, 0, 0, 0, 5, 5, 0, 2, 0x61, 0x62,
    ];
    assert!(rt; matches!(install(rt.alloc(), &bytes), Ok(true)));
    Ok(())
}

fn install(alloc: Global, bytes: &[u8]) -> Result<bool, MalformedKind> {
    let mut rest = Vec::new(alloc);
    if let (Some(name), Ok(ping)) = (ConnectionName::new(1, 2), SizedPacket::new(Packet::Pingreq)) {
        rest.push(Command::Packet(name, ping))?;
    }
    rest.push(Command::Start(4))?;
    rest.push(Command::Expel(ClientId::new(alloc, "ab")?))?;
    let log = Log::from_parts(5, Bytes::copy_from_slice(alloc, &[9, 8])?, rest);
    Ok(comes_again(alloc, Body::Install(6, log), bytes))
}

// A message that is appended to others leaves them.
#[test]
fn messages_are_appended(rt: HostRuntime) -> Result<(), Fail> {
    let mut out = Vec::new(rt.alloc());
    for ballot in [7, 8] {
        let message = Message {
            from: 2,
            body: Body::Activated(ballot),
        };
        assert!(rt; write_message(&message, &mut out).is_ok());
        drop(message);
    }
    assert!(rt;
        out.as_slice() == [7, 2, 0, 0, 0, 0, 0, 0, 0, 7, 7, 2, 0, 0, 0, 0, 0, 0, 0, 8].as_slice()
    );
    Ok(())
}
