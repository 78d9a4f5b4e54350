// Two ends over devices in memory, which give and take few bytes a call, and of which one call
// fails. The other end's bytes are those of `seal`.

use links::seal::{Hello, HelloFault, Membership, Opener, Sealer, Side, proof};
use links::{
    DeviceFault, HandshakeFault, LinkFault, LinkReadError, LinkReader, LinkWriter, Parcel,
    ParcelSink, Party, Way, read_link, shake,
};
use std::alloc::Global;
use std::io;
use std::io::{ErrorKind, Read, Write};
use std::sync::Wait;
use std::test::Fail;

// Returns its bytes, at most `most` a read. The call number `bad_call`, from 1, fails.
#[derive(Drop)]
struct Source<'a> {
    bytes: &'a [u8],
    most: usize,
    bad_call: u64,
}

impl<'a> Read for Source<'a> {
    fn read(&mut self, buf: &mut [u8]) -> io::Result<usize> {
        self.bad_call = self.bad_call.saturating_sub(1);
        if self.bad_call == 0 {
            return Err(io::Error::from(ErrorKind::ConnectionReset));
        }
        let count = self.bytes.len().min(self.most).min(buf.len());
        buf[..count].copy_from_slice(&self.bytes[..count]);
        self.bytes = &self.bytes[count..];
        Ok(count)
    }
}

// Keeps what it is given, at most 7 bytes a call. The call number `bad_call`, from 1, fails.
#[derive(Drop)]
struct Sink {
    bytes: Vec<u8>,
    bad_call: u64,
}

impl Write for Sink {
    fn write(&mut self, buf: &[u8]) -> io::Result<usize> {
        self.bad_call = self.bad_call.saturating_sub(1);
        if self.bad_call == 0 {
            return Err(io::Error::from(ErrorKind::ConnectionReset));
        }
        let count = buf.len().min(7);
        self.bytes.extend_from_slice(&buf[..count])?;
        Ok(count)
    }

    fn flush(&mut self) -> io::Result<()> {
        Ok(())
    }
}

// Keeps the parcels that it takes; waits for memory.
#[derive(Drop)]
struct Kept<'a, R: Wait> {
    rt: &'a R,
    parcels: Vec<Parcel>,
}

impl<'a, R: Wait> ParcelSink for Kept<'a, R> {
    ghost heard = { λ kept. kept.parcels.items };

    fn take(&mut self, parcel: Parcel) {
        let mut unkept = parcel;
        for _ in self.rt.forever() {
            match self.parcels.push(unkept) {
                Ok(()) => return,
                Err(back) => unkept = back.value,
            }
        }
        unreachable!()
    }
}

const KEY: &[u8] = b"a key that all nodes have, 32 by";

// Returns the hello of a node of these rules whose random bytes are all the same.
fn hello_of(rules: u32, number: u8, random: u8) -> Hello {
    Hello {
        rules,
        cluster: [0xC1; 16],
        number,
        random: [random; 32],
    }
}

// Returns what the listener with this hello and key writes to node 2.
fn listener_bytes(alloc: Global, hello: Hello, key: &[u8]) -> Result<Vec<u8>, Fail> {
    let own = hello.bytes();
    let mut bytes = Vec::from_slice(alloc, &own)?;
    let dialler = hello_of(7, 2, 1).bytes();
    bytes.extend_from_slice(&proof(Side::Listener, key, &own, &dialler))?;
    Ok(bytes)
}

// Returns how node 2, which dialled, meets an end that writes these bytes.
fn meets(alloc: Global, bytes: &[u8], bad_read: u64, bad_write: u64) -> Result<u8, HandshakeFault> {
    let party = Party {
        side: Side::Dialler,
        key: KEY,
        hello: hello_of(7, 2, 1),
        membership: Membership::Node([0xC1; 16]),
    };
    let mut input = Source {
        bytes,
        most: 9,
        bad_call: bad_read,
    };
    let mut output = Sink {
        bytes: Vec::new(alloc),
        bad_call: bad_write,
    };
    let met = shake(&party, &mut input, &mut output)?;
    Ok(met.other.number)
}

#[test]
fn ends_meet_or_say_why_not(rt: HostRuntime) -> Result<(), Fail> {
    let right = listener_bytes(rt.alloc(), hello_of(7, 3, 9), KEY)?;
    assert!(rt; meets(rt.alloc(), &right, 99, 99) == Ok(3));
    let other_key = listener_bytes(rt.alloc(), hello_of(7, 3, 9), b"another key")?;
    assert!(rt; meets(rt.alloc(), &other_key, 99, 99) == Err(HandshakeFault::Proof));
    let other_rules = listener_bytes(rt.alloc(), hello_of(8, 3, 9), KEY)?;
    let fault = HandshakeFault::Hello(HelloFault::Rules(8));
    assert!(rt; meets(rt.alloc(), &other_rules, 99, 99) == Err(fault));
    // Its version and its rules show the fault.
    let front = other_rules.as_slice().get(..6).unwrap_or(&[]);
    assert!(rt; meets(rt.alloc(), front, 99, 99) == Err(fault));
    let front = right.as_slice().get(..54).unwrap_or(&[]);
    let fault = HandshakeFault::Device(DeviceFault::Ended);
    assert!(rt; meets(rt.alloc(), front, 99, 99) == Err(fault));
    Ok(())
}

#[test]
fn each_failed_call_ends_a_meeting(rt: HostRuntime) -> Result<(), Fail> {
    let right = listener_bytes(rt.alloc(), hello_of(7, 3, 9), KEY)?;
    let fault = HandshakeFault::Device(DeviceFault::Failed);
    for bad_call in 1..8 {
        assert!(rt; meets(rt.alloc(), &right, bad_call, 99) == Err(fault));
        assert!(rt; meets(rt.alloc(), &right, 99, bad_call) == Err(fault));
    }
    Ok(())
}

// Returns the bytes of two parcels from the master, and of a sign of life.
fn two_parcels(alloc: Global) -> Result<Vec<u8>, Fail> {
    let mut writer = LinkWriter::new(alloc, Sealer::new([5; 32]));
    let mut output = Sink {
        bytes: Vec::new(alloc),
        bad_call: u64::MAX,
    };
    writer.add(&Parcel::Welcome(7))?;
    writer.add(&Parcel::Crash)?;
    writer.write(&mut output)?;
    writer.write(&mut output)?;
    Ok(output.bytes)
}

#[test]
fn parcels_share_a_frame(rt: HostRuntime) -> Result<(), Fail> {
    let bytes = two_parcels(rt.alloc())?;
    assert_eq!(rt; bytes.len(), (4 + 5 + 2 + 5 + 1 + 16) + (4 + 16));
    Ok(())
}

// Returns how many parcels a reader hands over of these bytes, at most `most` a read, and why it
// ends.
fn handed<R: Wait>(rt: &R, alloc: Global, bytes: &[u8], most: usize) -> (usize, LinkReadError) {
    let mut reader = LinkReader::new(alloc, Opener::new([5; 32]), Way::MasterToNode);
    let mut input = Source {
        bytes,
        most,
        bad_call: u64::MAX,
    };
    let mut sink = Kept {
        rt,
        parcels: Vec::new(alloc),
    };
    let mut buffer = [0; 64];
    for _ in 0..200 {
        if let Err(error) = read_link(&mut reader, &mut input, &mut buffer, &mut sink) {
            return (sink.parcels.len(), error);
        }
    }
    (sink.parcels.len(), LinkReadError::Link(LinkFault::Failed))
}

#[test]
fn parcels_are_handed_over_however_they_come(rt: HostRuntime) -> Result<(), Fail> {
    let mut bytes = two_parcels(rt.alloc())?;
    let ended = LinkReadError::Device(DeviceFault::Ended);
    for most in 1..60 {
        assert!(rt; handed(&rt, rt.alloc(), &bytes, most) == (2, ended));
    }
    // A bit of the second frame's tag.
    if let Some(last) = bytes.as_mut_slice().last_mut() {
        *last ^= 1;
    }
    let altered = LinkReadError::Link(LinkFault::Tag);
    assert!(rt; handed(&rt, rt.alloc(), &bytes, 64) == (2, altered));
    Ok(())
}
