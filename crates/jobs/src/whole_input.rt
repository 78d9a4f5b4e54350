// Reading whole texts, from files and from the input.

ghost use Rattle.std.specs.Prelude.{◌≡◌, IfOk, IfSome};

use crate::job_error::JobError;
use std::alloc::Global;
use std::fs;
use std::io::{BufRead, ErrorKind};
use std::rt::Files;

/// Returns the bytes of a file.
pub(crate) fn bytes_of<R: Files + AllocGlobal>(rt: &R, file: &str) -> Result<Vec<u8>, JobError> {
    match fs::read(rt, file) {
        Ok(bytes) => Ok(bytes),
        Err(error) => match error.kind() {
            ErrorKind::OutOfMemory => Err(JobError::Memory),
            kind => Err(JobError::File(String::from_str(rt.alloc(), file)?, kind)),
        },
    }
}

/// Returns the bytes of the input, to its end.
pub(crate) fn rest_of<I: BufRead>(alloc: Global, input: &mut I) -> Result<Vec<u8>, JobError>
    ensures { IfOk result (λ bytes. IfSome (I.remaining input.old) (λ rest. bytes.items ≡ rest)) }
{
    let mut bytes = Vec::new(alloc);
    match input.read_to_end(&mut bytes) {
        Ok(_) => Ok(bytes),
        Err(error) if error.kind() == ErrorKind::OutOfMemory => Err(JobError::Memory),
        Err(_) => Err(JobError::Input),
    }
}
