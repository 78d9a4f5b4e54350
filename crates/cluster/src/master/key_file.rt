// The file of a cluster's key.

use std::fs::{File, OpenFile, OpenOptions};
use std::io::{ErrorKind, Read, Write};
use std::os::unix::fs::{OpenOptionsExt, PermissionsExt};
use std::random::RandomSource;
use std::rt::Files;
use std::{fs, io};

/// Bytes of a key that is made, and the fewest of one that is taken.
pub const KEY_BYTES: usize = 32;

// The most bytes of a key that are read.
const MAX_KEY_BYTES: u64 = 4096;

// Who may read and write a key that is made: its owner.
const OWNER_ONLY: u32 = 0o600;

// The permissions of others, of which a key has none.
const OTHERS: u32 = 0o077;

/// Why there is no key.
#[derive(Clone, Copy, Debug, PartialEq, Eq)]
pub enum KeyFault {
    /// The file cannot be made, read or written.
    File(ErrorKind),
    /// Others than the file's owner may read or write it.
    Open,
    /// The file has fewer than 32 bytes, or more than 4,096.
    Length,
}

/// Makes a key of 32 random bytes in a new file, which its owner alone may read. A file that is
/// there already is not changed: `File(AlreadyExists)`. The bytes are on the disk once this
/// returns.
pub fn make_key<R: Files + RandomSource>(rt: &R, path: &str) -> Result<(), KeyFault> {
    let mut key = [0; KEY_BYTES];
    match rt.fill_bytes(&mut key) {
        Ok(()) => {}
        Err(error) => return Err(KeyFault::File(error.kind())),
    }
    let mut how = OpenOptions::new();
    how.write(true);
    how.create_new(true);
    how.mode(OWNER_ONLY);
    let written = match how.open(rt, path) {
        Ok(mut file) => write_key(&mut file, &key),
        Err(error) => return Err(KeyFault::File(error.kind())),
    };
    match written {
        Ok(()) => Ok(()),
        Err(error) => {
            // It is no key: let the next call make one.
            let _ = fs::remove_file(rt, path);
            Err(KeyFault::File(error.kind()))
        }
    }
}

// Writes a key, and flushes it to the disk.
fn write_key<F: Write + OpenFile>(file: &mut F, key: &[u8]) -> io::Result<()> {
    file.write_all(key)?;
    file.sync_all()
}

/// Returns the key in a file. It is refused if others than its owner may read or write it.
pub fn read_key<R: Files + AllocGlobal>(rt: &R, path: &str) -> Result<Vec<u8>, KeyFault> {
    match read_whole(rt, path) {
        Ok((mode, _)) if mode & OTHERS != 0 => Err(KeyFault::Open),
        Ok((_, key)) if key.len() < KEY_BYTES || key.len() > MAX_KEY_BYTES as usize => {
            Err(KeyFault::Length)
        }
        Ok((_, key)) => Ok(key),
        Err(error) => Err(KeyFault::File(error.kind())),
    }
}

// Returns the permissions of a file, and its bytes, up to one more than a key has.
fn read_whole<R: Files + AllocGlobal>(rt: &R, path: &str) -> io::Result<(u32, Vec<u8>)> {
    let file = File::open(rt, path)?;
    let mode = file.metadata()?.permissions().mode();
    let mut key = Vec::new(rt.alloc());
    file.take(MAX_KEY_BYTES + 1).read_to_end(&mut key)?;
    Ok((mode, key))
}
