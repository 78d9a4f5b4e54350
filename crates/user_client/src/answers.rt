// What a server answers on one connection that the client's keeper does not keep.
//
// A `ClientCore` drops the code of a refused connection and those of a SUBACK. So the bytes of the
// server are cut once more, and the first denial of a connection is noted. A fault of the stream
// ends that: the keeper loses the connection by it.

ghost use Rattle.std.specs.Prelude.{◌≡◌, ◌<◌, Ok, true, length, IfErr, IfOk, OnOk};
ghost use Rattle.std.specs.List.{list_any};
ghost use Rattle.user_client.specs.Answers.{Hears, Notes, denial_of, is_failure, no_answers};
ghost use Rattle.user_client.specs.Inside.Noted.{NotesAll, NotesNext};

use crate::denial::Denial;
use crate::user_client_error::UserClientError;
use cutter::{CutError, Cutter};
use packet::{Connack, Packet, Suback, SubackCode};
use std::alloc::Global;

/// What a server has answered on one connection.
#[derive(Drop)]
pub(crate) struct Answers {
    /// The bytes of the server, from the first packet that is not whole.
    pub(crate) unread: Cutter,
    /// The first denial.
    pub(crate) denial: Option<Denial>,
}

impl Answers {
    /// Returns the answers before the first byte of a connection.
    pub(crate) fn new(alloc: Global) -> Answers
        ensures { result ≡ no_answers }
    {
        Answers {
            unread: Cutter::new(alloc),
            denial: None,
        }
    }

    /// Reads the next bytes of the server. The only error is that memory ran out.
    pub(crate) fn hear(&mut self, piece: &[u8]) -> Result<(), UserClientError>
        ensures heard { OnOk result (Hears piece.now self.old self.new) }
        ensures err { IfErr result (λ error. error ≡ UserClientError.Memory) }
    {
        match self.unread.feed(piece) {
            Ok(()) => self.note_all(),
            Err(CutError::Failed) => Ok(()),
            // (no fault is found before bytes are taken)
            Err(CutError::Memory | CutError::Decode(_)) => Err(UserClientError::Memory),
        }
    }

    // Takes each whole packet, and notes what it denies.
    fn note_all(&mut self) -> Result<(), UserClientError>
        ensures noted { OnOk result (NotesAll self.old self.new) }
        ensures err { IfErr result (λ error. error ≡ UserClientError.Memory) }
    {
        while self.note_next()? {}
        Ok(())
    }

    // Takes the next whole packet, and notes what it denies. Returns false if there is none.
    fn note_next(&mut self) -> Result<bool, UserClientError>
        ensures one { IfOk result (λ is_one. NotesNext self.old is_one self.new) }
        ensures shorter { result ≡ Ok true →
            length self.new.unread.bytes < length self.old.unread.bytes }
        ensures err { IfErr result (λ error. error ≡ UserClientError.Memory) }
    {
        match self.unread.next() {
            Ok(Some(packet)) => {
                self.denial = self.denial.or(denial_of(&packet));
                Ok(true)
            }
            Ok(None) | Err(CutError::Decode(_) | CutError::Failed) => Ok(false),
            Err(CutError::Memory) => Err(UserClientError::Memory),
        }
    }
}

// Returns what a packet denies the client, if it does.
fn denial_of(packet: &Packet) -> Option<Denial>
    ensures { result ≡ denial_of packet.now }
{
    match packet {
        Packet::Connack(Connack::Refused(code)) => Some(Denial::Connack(*code)),
        Packet::Suback(suback) if refuses_a_filter(suback) => Some(Denial::Suback),
        _ => None,
    }
}

// Returns true if a SUBACK refuses one of its filters.
fn refuses_a_filter(suback: &Suback) -> bool
    ensures { result ≡ list_any is_failure suback.now.codes }
{
    suback.codes.as_slice().iter().any(|code| is_failure(*code))
}

fn is_failure(code: SubackCode) -> bool
    ensures { result ≡ is_failure code }
{
    code == SubackCode::Failure
}
