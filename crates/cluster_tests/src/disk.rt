// A disk in memory of which one call fails. It has the file of a state, its folder, and a new file.

use std::alloc::{Allocator, Global};
use std::fs::{Metadata, OpenFile, OpenOptions};
use std::io;
use std::io::{ErrorKind, Read, Seek, SeekFrom, Write};
use std::rt::Files;
use std::sync::Mutex;

/// The path of the state, in the folder `.`; the new file is `state.new`.
pub const STATE: &str = "state";

/// What is on the disk.
#[derive(Drop)]
pub struct Contents {
    /// The file of the state, as processes see it.
    pub seen: Vec<u8>,
    /// The file of the state, as it is found after a loss of power.
    pub flushed: Vec<u8>,
    // The new file.
    new: Vec<u8>,
    // The call that fails, counted from here; 0 if none will.
    bad_call: u32,
}

/// A disk.
#[derive(Drop)]
pub struct Disk {
    alloc: Global,
    contents: Mutex<Contents>,
}

/// A file of a disk, or its folder.
#[derive(Drop)]
pub struct DiskFile<'a> {
    disk: &'a Disk,
    is_new: bool,
}

impl Disk {
    /// Returns an empty disk.
    pub fn new(alloc: Global) -> Disk {
        Disk {
            alloc,
            contents: Mutex::new(Contents {
                seen: Vec::new(alloc),
                flushed: Vec::new(alloc),
                new: Vec::new(alloc),
                bad_call: 0,
            }),
        }
    }

    /// Lets this call fail, counted from 1; none for 0.
    pub fn fail(&self, bad_call: u32) {
        if let Some(mut contents) = self.contents.try_lock() {
            contents.bad_call = bad_call;
        }
    }

    /// Returns true if a call that was to fail did.
    pub fn has_failed(&self) -> bool {
        match self.contents.try_lock() {
            Some(contents) => contents.bad_call == 0,
            None => false,
        }
    }

    /// Returns what a restart reads: of the file as processes see it, or after a loss of power.
    pub fn read(&self, is_flushed: bool) -> Option<Vec<u8>> {
        let contents = self.contents.try_lock()?;
        let bytes = if is_flushed {
            &contents.flushed
        } else {
            &contents.seen
        };
        Vec::from_slice(self.alloc, bytes.as_slice()).ok()
    }

    // Does a call of the system, if it does not fail.
    fn call(&self, what: Call<'_>) -> io::Result<()> {
        let Some(mut contents) = self.contents.try_lock() else {
            return Err(io::Error::from(ErrorKind::WouldBlock));
        };
        let contents = &mut *contents;
        if contents.bad_call == 1 {
            contents.bad_call = 0;
            return Err(io::Error::from(ErrorKind::StorageFull));
        }
        contents.bad_call = contents.bad_call.saturating_sub(1);
        match what {
            Call::Open => contents.new.clear(),
            Call::Write(bytes) => contents.new.extend_from_slice(bytes)?,
            Call::Rename => contents.seen = Vec::from_slice(self.alloc, contents.new.as_slice())?,
            Call::Flush => contents.flushed = Vec::from_slice(
                self.alloc,
                contents.seen.as_slice(),
            )?,
            Call::Other => {}
        }
        Ok(())
    }
}

// What a call does.
#[derive(Clone, Copy)]
enum Call<'a> {
    // Empties the new file.
    Open,
    // Appends to the new file.
    Write(&'a [u8]),
    // Puts the new file in place of the state.
    Rename,
    // Flushes the folder.
    Flush,
    // Nothing that is seen.
    Other,
}

/// A runtime with this disk.
#[derive(Drop)]
pub struct OnDisk<'a> {
    pub disk: &'a Disk,
}

fn unsupported<T>() -> io::Result<T> {
    Err(io::Error::from(ErrorKind::Unsupported))
}

impl<'a> Files for OnDisk<'a> {
    type File = DiskFile<'a>;

    type Dir = DiskFile<'a>;

    fn open_file(&self, _how: &OpenOptions, path: &str) -> io::Result<DiskFile<'a>> {
        let is_new = path == "state.new";
        self.disk
            .call(if is_new { Call::Open } else { Call::Other })?;
        Ok(DiskFile {
            disk: self.disk,
            is_new,
        })
    }

    fn open_dir(&self, _path: &str) -> io::Result<DiskFile<'a>> {
        unsupported()
    }

    fn metadata(&self, _path: &str) -> io::Result<Metadata> {
        unsupported()
    }

    fn symlink_metadata(&self, _path: &str) -> io::Result<Metadata> {
        unsupported()
    }

    fn copy(&self, _from: &str, _to: &str) -> io::Result<u64> {
        unsupported()
    }

    fn rename(&self, from: &str, to: &str) -> io::Result<()> {
        if from == "state.new" && to == STATE {
            self.disk.call(Call::Rename)
        } else {
            unsupported()
        }
    }

    fn remove_file(&self, _path: &str) -> io::Result<()> {
        unsupported()
    }

    fn create_dir(&self, _path: &str) -> io::Result<()> {
        unsupported()
    }

    fn remove_dir(&self, _path: &str) -> io::Result<()> {
        unsupported()
    }

    fn remove_dir_all<B: Allocator>(&self, _alloc: B, _path: &str) -> io::Result<()> {
        unsupported()
    }
}

impl<'a> OpenFile for DiskFile<'a> {
    fn metadata(&self) -> io::Result<Metadata> {
        unsupported()
    }

    fn set_len(&self, _size: u64) -> io::Result<()> {
        unsupported()
    }

    // The new file is whole once it is flushed; the folder makes what was renamed last.
    fn sync_all(&self) -> io::Result<()> {
        self.disk.call(if self.is_new {
            Call::Other
        } else {
            Call::Flush
        })
    }

    fn sync_data(&self) -> io::Result<()> {
        unsupported()
    }
}

impl<'a> Read for DiskFile<'a> {
    fn read(&mut self, _buf: &mut [u8]) -> io::Result<usize> {
        Err(io::Error::from(ErrorKind::Unsupported))
    }
}

impl<'a> Write for DiskFile<'a> {
    // It takes 40 bytes a call, so a state has two.
    fn write(&mut self, buf: &[u8]) -> io::Result<usize> {
        let count = buf.len().min(40);
        self.disk.call(Call::Write(&buf[..count]))?;
        Ok(count)
    }

    fn flush(&mut self) -> io::Result<()> {
        Ok(())
    }
}

impl<'a> Seek for DiskFile<'a> {
    fn seek(&mut self, _to: SeekFrom) -> io::Result<u64> {
        unsupported()
    }
}
