// The file of a master's state.
//
// A state is written to a new file, `PATH.new`, which is flushed; then that takes the place of the
// old file, and the folder is flushed. Up to that point a restart reads the old state, afterwards
// the new one; in between it may read either. So the file is never found half written.

ghost use Rattle.std.specs.Prelude.{◌≡◌, ◌∷◌, IfSome};
ghost use Rattle.cluster.specs.desk.Keeping.{AreAmong};

use crate::desk::{FORM_BYTES, Keeper, NotKept};
use std::alloc::{AllocError, Global};
use std::fs::{File, OpenFile, OpenOptions};
use std::io::{ErrorKind, Write};
use std::os::unix::fs::OpenOptionsExt;
use std::rt::Files;
use std::{fs, io};

/// Who may read and write the file: its owner.
const OWNER_ONLY: u32 = 0o600;

/// A file that keeps a master's state.
pub struct StateFile<'a, R> {
    rt: &'a R,
    path: &'a str,
    // Where a state is written before it takes the place of the file.
    new_path: String,
    // What a restart may read, as far as this process wrote it.
    standing: Vec<[u8; FORM_BYTES]>,
}

impl<'a, R> Drop for StateFile<'a, R> {
    fn drop(self) {
        let StateFile {
            rt: _,
            path: _,
            new_path: _new_path,
            standing: _standing,
        } = self;
    }
}

impl<'a, R: Files> StateFile<'a, R> {
    /// Returns the file at this path, to which nothing was written yet.
    pub fn new(rt: &'a R, alloc: Global, path: &'a str) -> Result<StateFile<'a, R>, AllocError> {
        let mut new_path = String::from_str(alloc, path)?;
        new_path.push_str(".new")?;
        Ok(StateFile {
            rt,
            path,
            new_path,
            standing: Vec::new(alloc),
        })
    }

    // Writes a new file.
    fn write_new(&self, bytes: &[u8]) -> io::Result<()> {
        let mut how = OpenOptions::new();
        how.write(true);
        how.create(true);
        how.truncate(true);
        how.mode(OWNER_ONLY);
        let mut file = how.open(self.rt, self.new_path.as_str())?;
        file.write_all(bytes)?;
        file.sync_all()
    }

    // Notes that a restart may read this state from now on. A state that is tried again is noted
    // once.
    #[tactic(auto, using(crate::proofs::of_master::Standing::added_stands, crate::proofs::of_master::Standing::same_stands))]
    fn may_stand(&mut self, state: [u8; FORM_BYTES]) -> Result<(), AllocError>
        ensures { AreAmong self.new.standing.items (state ∷ self.old.standing.items) }
    {
        if self
            .standing
            .iter()
            .any(|other| other.as_slice() == state.as_slice())
        {
            return Ok(());
        }
        match self.standing.push(state) {
            Ok(()) => Ok(()),
            Err(_) => Err(AllocError),
        }
    }

    // Puts the new file in place of the old one.
    fn replace(&self) -> io::Result<()> {
        fs::rename(self.rt, self.new_path.as_str(), self.path)?;
        File::open(self.rt, folder_of(self.path))?.sync_all()
    }
}

impl<'a, R: Files> Keeper for StateFile<'a, R> {
    ghost use Rattle.std.specs.Prelude.{◌∷◌, []};

    // The disk is known by what it was given alone.
    ghost keeps = { λ old bytes kept new. Unit {0} };

    ghost stands = { λ file. file.standing.items };

    #[tactic(auto, using(crate::proofs::of_master::Standing::one_more_stands, crate::proofs::of_desk::Among::nothing_written))]
    fn keep(&mut self, bytes: &[u8]) -> Result<(), NotKept> {
        let Some(state) = state_of(bytes) else {
            return Err(NotKept);
        };
        if self.write_new(&state).is_err() || self.may_stand(state).is_err() {
            return Err(NotKept);
        }
        if self.replace().is_err() {
            return Err(NotKept);
        }
        self.standing.clear();
        match self.standing.push(state) {
            Ok(()) => Ok(()),
            Err(_) => Err(NotKept),
        }
    }
}

// Returns the bytes of a state.
fn state_of(bytes: &[u8]) -> Option<[u8; FORM_BYTES]>
    ensures { IfSome result (λ state. state ≡ bytes.now) }
{
    if bytes.len() != FORM_BYTES {
        return None;
    }
    let mut state = [0; FORM_BYTES];
    state.copy_from_slice(bytes);
    Some(state)
}

// Returns the folder of a file.
fn folder_of(path: &str) -> &str {
    match path.rsplit_once('/') {
        Some(("", _)) => "/",
        Some((folder, _)) => folder,
        None => ".",
    }
}

/// Returns the bytes of the file at this path; none if there is no file. The error is that of the
/// file.
pub fn read_state<R: Files + AllocGlobal>(rt: &R, path: &str) -> io::Result<Option<Vec<u8>>> {
    match fs::read(rt, path) {
        Ok(bytes) => Ok(Some(bytes)),
        Err(error) if error.kind() == ErrorKind::NotFound => Ok(None),
        Err(error) => Err(error),
    }
}
