// Rows of digests, from RFC 4231, section 4, and of frames, whose tags another implementation of
// HMAC computed.

use links::seal::{
    FrameError, FrameReader, Hello, HelloFault, Membership, NO_CLUSTER, Opener, SealFault, Sealer,
    Side, Tag, hmac, is_proof, proof, session,
};
use std::alloc::Global;

// A key, a message, and the HMAC with SHA-256: cases 1, 2, 3 and 6.
const DIGESTS: &[(&[u8], &[u8], [u8; 32])] = &[
    (
        &[0x0B; 20],
        b"Hi There",
        [
            0xB0, 0x34, 0x4C, 0x61, 0xD8, 0xDB, 0x38, 0x53, 0x5C, 0xA8, 0xAF, 0xCE, 0xAF, 0x0B,
            0xF1, 0x2B, 0x88, 0x1D, 0xC2, 0x00, 0xC9, 0x83, 0x3D, 0xA7, 0x26, 0xE9, 0x37, 0x6C,
            0x2E, 0x32, 0xCF, 0xF7,
        ],
    ),
    (
        b"Jefe",
        b"what do ya want for nothing?",
        [
            0x5B, 0xDC, 0xC1, 0x46, 0xBF, 0x60, 0x75, 0x4E, 0x6A, 0x04, 0x24, 0x26, 0x08, 0x95,
            0x75, 0xC7, 0x5A, 0x00, 0x3F, 0x08, 0x9D, 0x27, 0x39, 0x83, 0x9D, 0xEC, 0x58, 0xB9,
            0x64, 0xEC, 0x38, 0x43,
        ],
    ),
    (
        &[0xAA; 20],
        &[0xDD; 50],
        [
            0x77, 0x3E, 0xA9, 0x1E, 0x36, 0x80, 0x0E, 0x46, 0x85, 0x4D, 0xB8, 0xEB, 0xD0, 0x91,
            0x81, 0xA7, 0x29, 0x59, 0x09, 0x8B, 0x3E, 0xF8, 0xC1, 0x22, 0xD9, 0x63, 0x55, 0x14,
            0xCE, 0xD5, 0x65, 0xFE,
        ],
    ),
    (
        &[0xAA; 131],
        b"Test Using Larger Than Block-Size Key - Hash Key First",
        [
            0x60, 0xE4, 0x31, 0x59, 0x1E, 0xE0, 0xB6, 0x7F, 0x0D, 0x8A, 0x26, 0xAA, 0xCB, 0xF5,
            0xB7, 0x7F, 0x8E, 0x0B, 0xC6, 0x21, 0x37, 0x28, 0xC5, 0x14, 0x05, 0x46, 0x04, 0x0F,
            0x0E, 0xE3, 0x7F, 0x54,
        ],
    ),
];

// The key of the frames below.
const KEY: [u8; 32] = [
    0x00, 0x01, 0x02, 0x03, 0x04, 0x05, 0x06, 0x07, 0x08, 0x09, 0x0A, 0x0B, 0x0C, 0x0D, 0x0E, 0x0F,
    0x10, 0x11, 0x12, 0x13, 0x14, 0x15, 0x16, 0x17, 0x18, 0x19, 0x1A, 0x1B, 0x1C, 0x1D, 0x1E, 0x1F,
];

// Frames, and their tags under this key, from number 0 on.
const FRAMES: &[(&[u8], Tag)] = &[
    (
        b"first",
        [
            0x25, 0xD5, 0x69, 0xB2, 0xD2, 0xCF, 0x8D, 0x92, 0xD0, 0xB3, 0x58, 0xE6, 0x7F, 0x7D,
            0x09, 0xCA,
        ],
    ),
    (
        b"second",
        [
            0x60, 0x30, 0x8C, 0x2E, 0xF0, 0x7C, 0x48, 0x91, 0x01, 0x48, 0x29, 0x11, 0x85, 0xD1,
            0x89, 0x87,
        ],
    ),
    (
        b"",
        [
            0xB6, 0x1D, 0x4B, 0x23, 0x14, 0xFC, 0xC7, 0xB7, 0x1C, 0xFB, 0x18, 0xB9, 0x7B, 0xED,
            0xCD, 0x5C,
        ],
    ),
];

// Frames that are refused as the first ones: altered, shortened, a later one, a tag whose last bit
// or first bit is turned, and a tag under a key of zeros.
const REFUSED: &[(&[u8], Tag)] = &[
    (
        b"firsu",
        [
            0x25, 0xD5, 0x69, 0xB2, 0xD2, 0xCF, 0x8D, 0x92, 0xD0, 0xB3, 0x58, 0xE6, 0x7F, 0x7D,
            0x09, 0xCA,
        ],
    ),
    (
        b"firs",
        [
            0x25, 0xD5, 0x69, 0xB2, 0xD2, 0xCF, 0x8D, 0x92, 0xD0, 0xB3, 0x58, 0xE6, 0x7F, 0x7D,
            0x09, 0xCA,
        ],
    ),
    (
        b"second",
        [
            0x60, 0x30, 0x8C, 0x2E, 0xF0, 0x7C, 0x48, 0x91, 0x01, 0x48, 0x29, 0x11, 0x85, 0xD1,
            0x89, 0x87,
        ],
    ),
    (
        b"first",
        [
            0x25, 0xD5, 0x69, 0xB2, 0xD2, 0xCF, 0x8D, 0x92, 0xD0, 0xB3, 0x58, 0xE6, 0x7F, 0x7D,
            0x09, 0xCB,
        ],
    ),
    (
        b"first",
        [
            0xA5, 0xD5, 0x69, 0xB2, 0xD2, 0xCF, 0x8D, 0x92, 0xD0, 0xB3, 0x58, 0xE6, 0x7F, 0x7D,
            0x09, 0xCA,
        ],
    ),
    (
        b"first",
        [
            0x55, 0x91, 0xAA, 0x88, 0xBA, 0xF5, 0x58, 0x3A, 0x7F, 0x92, 0x1E, 0xB6, 0xB7, 0x93,
            0x63, 0x8B,
        ],
    ),
];

#[test]
fn messages_have_their_digests(rt: HostRuntime) {
    for (key, message, digest) in DIGESTS {
        assert!(rt; hmac(key, &[], &[], message) == *digest);
        assert!(rt; hmac(key, message, &[], &[]) == *digest);
    }
}

#[test]
fn frames_are_sealed_and_accepted_in_order(rt: HostRuntime) {
    let mut sealer = Sealer::new(KEY);
    let mut opener = Opener::new(KEY);
    for (frame, tag) in FRAMES {
        assert!(rt; sealer.seal(frame) == Some(*tag));
        assert!(rt; opener.accept(frame, tag) == Ok(()));
    }
}

#[test]
fn other_frames_are_refused_and_all_after_them(rt: HostRuntime) {
    for (frame, tag) in REFUSED {
        let mut opener = Opener::new(KEY);
        assert!(rt; opener.accept(frame, tag) == Err(SealFault::Tag));
        assert!(rt; opener.accept(frame, tag) == Err(SealFault::Failed));
    }
}

// The first of these frames, with its length and its tag.
const SEALED: [u8; 25] = [
    0x00, 0x00, 0x00, 0x05, 0x66, 0x69, 0x72, 0x73, 0x74, 0x25, 0xD5, 0x69, 0xB2, 0xD2, 0xCF, 0x8D,
    0x92, 0xD0, 0xB3, 0x58, 0xE6, 0x7F, 0x7D, 0x09, 0xCA,
];

// Returns the error at the first frame of these bytes, which has at most 5 bytes.
fn first_error(alloc: Global, bytes: &[u8]) -> Option<FrameError> {
    let mut reader = FrameReader::new(alloc, Opener::new(KEY), 5);
    match reader.feed(bytes) {
        Ok(()) => reader.next().err(),
        Err(error) => Some(error),
    }
}

#[test]
fn each_turned_bit_is_refused(rt: HostRuntime) {
    assert!(rt; first_error(rt.alloc(), &SEALED).is_none());
    for bit in 0..8 * SEALED.len() {
        let mut turned = SEALED;
        turned[bit / 8] ^= 1 << (bit % 8);
        let error = first_error(rt.alloc(), &turned);
        assert!(rt; matches!(error, Some(FrameError::Tag | FrameError::TooLong)));
    }
}

#[test]
fn a_repeated_frame_is_refused(rt: HostRuntime) {
    let mut opener = Opener::new(KEY);
    if let [(frame, tag), ..] = FRAMES {
        assert!(rt; opener.accept(frame, tag) == Ok(()));
        assert!(rt; opener.accept(frame, tag) == Err(SealFault::Tag));
    }
}

// The proof of the end that dialled, for the hellos below.
const PROOF: [u8; 32] = [
    0x08, 0x83, 0x2B, 0x9B, 0x8C, 0xF9, 0x71, 0xE7, 0xD9, 0x56, 0x78, 0xD6, 0xD8, 0xE9, 0x9A, 0x1A,
    0xE8, 0x8F, 0x8C, 0x05, 0x8B, 0x4A, 0x2C, 0x17, 0x8E, 0x24, 0xD3, 0x63, 0xFA, 0x67, 0xBB, 0x2F,
];

// Its first frame, `hello`.
const FRAME: [u8; 25] = [
    0x00, 0x00, 0x00, 0x05, 0x68, 0x65, 0x6C, 0x6C, 0x6F, 0xE9, 0xB5, 0x06, 0x50, 0x61, 0x05, 0xE1,
    0xC6, 0xF2, 0xF9, 0xE1, 0x13, 0x47, 0xAA, 0x44, 0x84,
];

// Returns the hello of a node whose random bytes rise from this one on.
fn hello_of(number: u8, first: u8) -> Hello {
    let mut random = [0; 32];
    let mut byte = first;
    'bytes: for index in 0..32 {
        random[index] = byte;
        byte = byte.wrapping_add(1);
    }
    Hello {
        rules: 7,
        cluster: [0xC1; 16],
        number,
        random,
    }
}

// The front of that hello of node 2.
const HELLO_FRONT: [u8; 24] = [
    0x00, 0x01, 0x00, 0x00, 0x00, 0x07, 0xC1, 0xC1, 0xC1, 0xC1, 0xC1, 0xC1, 0xC1, 0xC1, 0xC1, 0xC1,
    0xC1, 0xC1, 0xC1, 0xC1, 0xC1, 0xC1, 0x02, 0x64,
];

#[test]
fn hellos_are_read(rt: HostRuntime) {
    let hello = hello_of(2, 100);
    let bytes = hello.bytes();
    assert!(rt; bytes.as_slice().starts_with(&HELLO_FRONT));
    let node = Membership::Node([0xC1; 16]);
    assert!(rt; Hello::read(&bytes, 7, node) == Ok(hello));
    assert!(rt; Hello::read(&bytes, 8, node) == Err(HelloFault::Rules(7)));
    assert!(rt; Hello::read(&[0, 2], 7, node) == Err(HelloFault::Version(2)));
    let front = bytes.as_slice().get(..54).unwrap_or(&[]);
    assert!(rt; Hello::read(front, 7, node) == Err(HelloFault::Unfinished));
}

// Memberships, the first byte of another's cluster, whose other bytes are 0, and whether it is
// accepted.
const ACCEPTED: &[(Membership, u8, bool)] = &[
    (Membership::Node(ONE), 1, true),
    (Membership::Node(ONE), 2, false),
    (Membership::Node(ONE), 0, false),
    (Membership::Node(NO_CLUSTER), 0, false),
    (Membership::Master(ONE), 1, true),
    (Membership::Master(ONE), 2, false),
    (Membership::Master(ONE), 0, true),
    (Membership::Newcomer, 2, true),
    (Membership::Newcomer, 0, false),
];

const ONE: [u8; 16] = [1, 0, 0, 0, 0, 0, 0, 0, 0, 0, 0, 0, 0, 0, 0, 0];

#[test]
fn clusters_are_accepted(rt: HostRuntime) {
    for (membership, first, is_accepted) in ACCEPTED {
        let mut hello = hello_of(3, 100);
        hello.cluster = NO_CLUSTER;
        hello.cluster[0] = *first;
        let read = Hello::read(&hello.bytes(), 7, *membership);
        assert!(rt;
            read == if *is_accepted {
                Ok(hello)
            } else {
                Err(HelloFault::Cluster)
            }
        );
    }
}

#[test]
fn a_frame_goes_from_end_to_end(rt: HostRuntime) -> Result<(), FrameError> {
    let dialler = hello_of(2, 100).bytes();
    let listener = hello_of(3, 200).bytes();
    assert!(rt; proof(Side::Dialler, &KEY, &dialler, &listener) == PROOF);
    assert!(rt; is_proof(Side::Listener, &KEY, &listener, &dialler, &PROOF));
    assert!(rt; !is_proof(Side::Dialler, &KEY, &dialler, &listener, &PROOF));
    let (mut sealer, _) = session(Side::Dialler, &KEY, &dialler, &listener);
    let mut out = Vec::new(rt.alloc());
    assert!(rt; sealer.write(b"hello", &mut out).is_ok());
    assert!(rt; out.as_slice() == FRAME.as_slice());
    let (_, opener) = session(Side::Listener, &KEY, &listener, &dialler);
    let mut reader = FrameReader::new(rt.alloc(), opener, 5);
    for byte in out.as_slice() {
        assert!(rt; reader.next()?.is_none());
        reader.feed(&[*byte])?;
    }
    assert!(rt;
        reader
            .next()?
            .is_some_and(|frame| frame.as_slice() == b"hello".as_slice())
    );
    assert!(rt; reader.next()?.is_none());
    reader.feed(&FRAME)?;
    assert!(rt; reader.next().err() == Some(FrameError::Tag));
    assert!(rt; reader.next().err() == Some(FrameError::Failed));
    Ok(())
}
