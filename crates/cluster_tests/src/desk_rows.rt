// A desk over a keeper in memory whose writes may fail, and its bytes, whose check sums another
// implementation of SHA-256 computed.

use ballot_base::Members;
use cluster::desk::{Activation, Desk, DeskError, FormFault, Keeper, NotKept, OpenError};
use std::alloc::Global;

// The name of a cluster.
const CLUSTER: [u8; 16] = [
    0xA0, 0xA1, 0xA2, 0xA3, 0xA4, 0xA5, 0xA6, 0xA7, 0xA8, 0xA9, 0xAA, 0xAB, 0xAC, 0xAD, 0xAE, 0xAF,
];

// A new cluster.
const OPENING: [u8; 67] = [
    0x01, 0xA0, 0xA1, 0xA2, 0xA3, 0xA4, 0xA5, 0xA6, 0xA7, 0xA8, 0xA9, 0xAA, 0xAB, 0xAC, 0xAD, 0xAE,
    0xAF, 0x01, 0x00, 0x00, 0x00, 0x00, 0x00, 0x00, 0x00, 0x01, 0x00, 0x00, 0x00, 0x00, 0x00, 0x00,
    0x00, 0x01, 0x01, 0x01, 0x00, 0x00, 0x00, 0x00, 0x00, 0x00, 0x00, 0x00, 0x00, 0x00, 0x00, 0x00,
    0x00, 0x00, 0x00, 0x00, 0x00, 0x00, 0x00, 0x00, 0x00, 0x00, 0x00, 0xCC, 0x74, 0xAF, 0x1A, 0x9E,
    0xC2, 0xDA, 0xD9,
];

// It after three starts, with ballot 2 of members 2 and 3 and primary 2 waiting.
const LATER: [u8; 67] = [
    0x01, 0xA0, 0xA1, 0xA2, 0xA3, 0xA4, 0xA5, 0xA6, 0xA7, 0xA8, 0xA9, 0xAA, 0xAB, 0xAC, 0xAD, 0xAE,
    0xAF, 0x04, 0x00, 0x00, 0x00, 0x00, 0x00, 0x00, 0x00, 0x02, 0x00, 0x00, 0x00, 0x00, 0x00, 0x00,
    0x00, 0x01, 0x01, 0x01, 0x00, 0x00, 0x00, 0x00, 0x00, 0x00, 0x00, 0x00, 0x00, 0x00, 0x00, 0x00,
    0x00, 0x02, 0x02, 0x02, 0x03, 0x00, 0x00, 0x00, 0x00, 0x00, 0x02, 0xBD, 0x57, 0x5D, 0xA8, 0x1C,
    0x60, 0xA4, 0x59,
];

// A state with next number 0, with its check sum.
const NO_STATE: [u8; 67] = [
    0x01, 0xA0, 0xA1, 0xA2, 0xA3, 0xA4, 0xA5, 0xA6, 0xA7, 0xA8, 0xA9, 0xAA, 0xAB, 0xAC, 0xAD, 0xAE,
    0xAF, 0x00, 0x00, 0x00, 0x00, 0x00, 0x00, 0x00, 0x00, 0x01, 0x00, 0x00, 0x00, 0x00, 0x00, 0x00,
    0x00, 0x01, 0x01, 0x01, 0x00, 0x00, 0x00, 0x00, 0x00, 0x00, 0x00, 0x00, 0x00, 0x00, 0x00, 0x00,
    0x00, 0x00, 0x00, 0x00, 0x00, 0x00, 0x00, 0x00, 0x00, 0x00, 0x00, 0x0A, 0xBE, 0xFB, 0x4B, 0x50,
    0x3D, 0x07, 0xC8,
];

// Keeps bytes in memory, until it is told to fail.
#[derive(Drop)]
struct Paper {
    alloc: Global,
    bytes: Vec<u8>,
    writes: usize,
}

impl Keeper for Paper {
    ghost use Rattle.std.specs.Prelude.{[], ◌∷◌};

    ghost keeps = { λ old bytes kept new. Unit {0} };

    ghost stands = { λ paper. paper.bytes.items ∷ [] };

    #[tactic(auto, using(cluster::proofs::of_desk::Among::nothing_written))]
    fn keep(&mut self, bytes: &[u8]) -> Result<(), NotKept> {
        if self.writes == 0 {
            return Err(NotKept);
        }
        self.writes -= 1;
        match Vec::from_slice(self.alloc, bytes) {
            Ok(bytes) => {
                self.bytes = bytes;
                Ok(())
            }
            Err(_) => Err(NotKept),
        }
    }
}

fn blank(alloc: Global, writes: usize) -> Paper {
    Paper {
        alloc,
        bytes: Vec::new(alloc),
        writes,
    }
}

fn assigned(
    alloc: Global,
    desk: &mut Desk<Paper>,
    numbers: &[u8],
) -> Option<Result<u64, DeskError>> {
    let members = Members::from_slice(alloc, numbers).ok()?;
    let primary = *numbers.first()?;
    Some(desk.assign(members, primary))
}

// Returns true if a new cluster answers so, and keeps it: five writes succeed.
fn begins(alloc: Global, desk: &mut Desk<Paper>) -> bool {
    desk.keeper().bytes.as_slice() == OPENING.as_slice()
        && desk.start() == Ok(1)
        && desk.start() == Ok(2)
        && desk.start() == Ok(3)
        && assigned(alloc, desk, &[2, 3]) == Some(Ok(2))
        && desk.keeper().bytes.as_slice() == LATER.as_slice()
        && desk.start() == Err(DeskError::NotKept)
        && assigned(alloc, desk, &[1]) == Some(Err(DeskError::NotKept))
        && desk.activate(2) == Err(NotKept)
        && desk.activate(1) == Ok(Activation::Activated)
}

// Returns true if a desk that goes on with it answers so.
fn goes_on(alloc: Global, desk: &mut Desk<Paper>) -> bool {
    desk.keeper().bytes.as_slice() == LATER.as_slice()
        && desk.start() == Ok(4)
        && desk.activate(2) == Ok(Activation::Activated)
        && desk.activate(2) == Ok(Activation::Activated)
        && desk.activate(1) == Ok(Activation::Superseded)
        && assigned(alloc, desk, &[5]) == Some(Err(DeskError::NeverGiven))
        && assigned(alloc, desk, &[3, 2]) == Some(Err(DeskError::BadMembers))
        && assigned(alloc, desk, &[3, 4]) == Some(Ok(3))
}

#[test]
fn a_new_cluster_is_kept(rt: HostRuntime) {
    let opened = Desk::new(rt.alloc(), blank(rt.alloc(), 5), CLUSTER);
    let is_so = match opened {
        Ok(mut desk) => begins(rt.alloc(), &mut desk),
        Err(_) => false,
    };
    assert!(rt; is_so);
}

#[test]
fn a_desk_goes_on(rt: HostRuntime) {
    let opened = Desk::resume(rt.alloc(), blank(rt.alloc(), 9), &LATER);
    let is_so = match opened {
        Ok(mut desk) => goes_on(rt.alloc(), &mut desk),
        Err(_) => false,
    };
    assert!(rt; is_so);
}

fn fault(alloc: Global, bytes: &[u8]) -> Option<OpenError> {
    Desk::resume(alloc, blank(alloc, 9), bytes).err()
}

#[test]
fn other_bytes_are_refused(rt: HostRuntime) {
    let alloc = rt.alloc();
    let shape = |fault| Some(OpenError::Form(fault));
    assert!(rt; fault(alloc, &[]) == shape(FormFault::Length));
    assert!(rt; fault(alloc, &[2]) == shape(FormFault::Version(2)));
    assert!(rt; fault(alloc, &OPENING[..66]) == shape(FormFault::Length));
    let mut altered = OPENING;
    altered[17] = 2;
    assert!(rt; fault(alloc, &altered) == shape(FormFault::Sum));
    assert!(rt; fault(alloc, &NO_STATE) == shape(FormFault::Shape));
}
