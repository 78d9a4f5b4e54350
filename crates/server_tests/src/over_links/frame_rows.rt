// Streams of parts, written by hand, and messages that are cut and joined.

use links::frames::{JoinError, Joiner, PartFault, write_parts};
use std::alloc::AllocError;

// Parts, and the message that they are joined to with a limit of 4 bytes.
const JOINED: &[(&[u8], &[u8])] = &[
    (&[0, 0, 0, 0, 0], &[]),
    (&[0, 0, 0, 0, 1, 7], &[7]),
    (&[1, 0, 0, 0, 2, 7, 8, 0, 0, 0, 0, 2, 9, 10], &[7, 8, 9, 10]),
    (&[1, 0, 0, 0, 0, 1, 0, 0, 0, 1, 5, 0, 0, 0, 0, 0], &[5]),
];

// Streams with a fault, for the same limit. The last byte shows it.
const REFUSED: &[(&[u8], PartFault)] = &[
    (&[2], PartFault::Flag),
    (&[255], PartFault::Flag),
    (&[0, 0, 1, 0, 1], PartFault::Length),
    (&[1, 255, 255, 255, 255], PartFault::Length),
    (&[0, 0, 0, 0, 5], PartFault::TooLarge),
    (&[1, 0, 0, 0, 5], PartFault::TooLarge),
    (&[0, 0, 1, 0, 0], PartFault::TooLarge),
    (
        &[1, 0, 0, 0, 3, 1, 2, 3, 0, 0, 0, 0, 2],
        PartFault::TooLarge,
    ),
    (&[1, 0, 0, 0, 1, 9, 7], PartFault::Flag),
];

#[test]
fn parts_by_hand_are_joined(rt: HostRuntime) -> Result<(), JoinError> {
    for (parts, message) in JOINED {
        let mut joiner = Joiner::new(rt.alloc(), 4);
        for byte in *parts {
            assert!(rt; joiner.next()?.is_none());
            joiner.feed(&[*byte])?;
        }
        let joined = joiner.next()?;
        assert!(rt; joined.is_some_and(|joined| joined.as_slice() == *message));
        assert!(rt; joiner.next()?.is_none());
    }
    Ok(())
}

#[test]
fn a_fault_comes_where_the_head_shows_it(rt: HostRuntime) -> Result<(), JoinError> {
    for (parts, fault) in REFUSED {
        let mut joiner = Joiner::new(rt.alloc(), 4);
        for byte in *parts {
            assert!(rt; joiner.next()?.is_none());
            joiner.feed(&[*byte])?;
        }
        assert!(rt; joiner.next().err() == Some(JoinError::Part(*fault)));
        assert!(rt; joiner.next().err() == Some(JoinError::Failed));
        assert!(rt; joiner.feed(&[0]).err() == Some(JoinError::Failed));
    }
    Ok(())
}

// Lengths of messages, and of their parts.
const WRITTEN: &[(usize, usize)] = &[
    (0, 5),
    (1, 6),
    (65_536, 65_541),
    (65_537, 65_547),
    (131_072, 131_082),
    (131_073, 131_088),
];

#[test]
fn full_parts_come_first(rt: HostRuntime) -> Result<(), AllocError> {
    for (size, parts) in WRITTEN {
        let message = vec![in rt.alloc(); 3u8; *size]?;
        let mut out = Vec::new(rt.alloc());
        write_parts(&message, &mut out)?;
        assert_eq!(rt; out.len(), *parts);
    }
    Ok(())
}

// Four parts in chunks of one byte.
#[test]
fn a_large_message_comes_byte_by_byte(rt: HostRuntime) -> Result<(), JoinError> {
    let message = vec![in rt.alloc(); 3u8; 200_000]?;
    let mut out = Vec::new(rt.alloc());
    write_parts(&message, &mut out)?;
    let mut joiner = Joiner::new(rt.alloc(), message.len());
    let mut joined = 0usize;
    for byte in out.as_slice() {
        joiner.feed(&[*byte])?;
        if let Some(message) = joiner.next()? {
            joined = message.len();
        }
    }
    assert_eq!(rt; joined, message.len());
    Ok(())
}
