// Memory that is refused, in the script `answer_waits_for_the_backup`. `tools/refused-memory` lets
// each allocation of a test fail in turn; in the gate none fails. It is played as usual, or
// reported to have run out of memory.

use play::{PlayError, play};
use std::alloc::Global;

// The primary answers a CONNECT once its backup holds it.
const ANSWER_WAITS_FOR_THE_BACKUP: [&str; 2] = [
    "world 2 1,2 1 a\n\
    open a 1\n\
    up 1 all\n\
    deliver 0\n\
    deliver 1\n\
    down 1 all\n",
    "0 ok msgs=0 agreed=0\n\
    1 ok msgs=1 agreed=0\n\
    2 ok msgs=2 agreed=1\n\
    3 ok msgs=3 agreed=1\n\
    4 ok msgs=3 agreed=1\n\
    end agreed=1 active=1\n",
];

// Returns how many lines of a transcript say that a publication was accepted.
fn accepted_in(transcript: &[u8]) -> usize {
    transcript
        .split(|byte| *byte == b'\n')
        .filter(|line| line.starts_with(b"accepted"))
        .count()
}

// Returns how many lines a transcript has.
fn lines_in(transcript: &[u8]) -> usize {
    transcript.iter().filter(|byte| **byte == b'\n').count()
}

// Checks that a script is played as usual, or to its end with losses, or stops early. Returns the
// check that fails.
fn first_fault(alloc: Global, row: &[&str; 2]) -> Option<&'static str> {
    let mut transcript = Vec::new(alloc);
    let played = play(alloc, row[0].as_bytes(), &mut transcript);
    let written = transcript.as_slice();
    let wanted = row[1].as_bytes();
    match played {
        _ if accepted_in(written) != 0 => Some("no publication is accepted"),
        Ok(()) if written != wanted => Some("it is played as usual"),
        Err(PlayError::Losses) if lines_in(written) != lines_in(wanted) => Some("no line is lost"),
        Err(PlayError::Line(_) | PlayError::Idle) => Some("nothing but memory is lacking"),
        Ok(()) | Err(PlayError::Losses | PlayError::Memory) => None,
    }
}

#[test]
fn what_finds_no_memory_is_told(rt: HostRuntime) {
    assert_eq!(rt; first_fault(rt.alloc(), &ANSWER_WAITS_FOR_THE_BACKUP), None);
}
