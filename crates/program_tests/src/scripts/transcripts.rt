// A transcript is appended to what is there.

use play::{PlayError, play};
use std::alloc::Global;

// Plays an event that cannot happen, where the transcript has a line already.
fn continued(alloc: Global) -> Result<Vec<u8>, PlayError> {
    let mut transcript = Vec::from_slice(alloc, b"before\n")?;
    play(alloc, b"world 1 1 1 a\ntick 2\n", &mut transcript)?;
    Ok(transcript)
}

#[test]
fn a_transcript_goes_on_after_what_it_had(rt: HostRuntime) {
    let wanted = b"before\n0 idle\nend agreed=0 active=1\n".as_slice();
    match continued(rt.alloc()) {
        Ok(transcript) => assert_eq!(rt; transcript.as_slice(), wanted),
        Err(error) => assert_eq!(rt; error, PlayError::Idle),
    }
}
