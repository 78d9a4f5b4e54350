// The thread that reads the input of `serve`.

use crate::desk::{Desk, Heard};
use std::alloc::Global;
use std::io::{BufRead, ErrorKind};
use std::sync::{Mutex, Wait};

/// Reads the input line by line, each once the one before is answered, until the threads are to
/// end. Nothing is read before the attendant works. Nobody else takes the lock of the input. No
/// clause says what is read.
pub(crate) fn read_input<R, I>(rt: &R, desk: &Desk, input: &Mutex<&mut I>)
where
    R: AllocGlobal + Wait,
    I: BufRead,
{
    if !desk.await_open(rt) {
        return;
    }
    let mut input = input.lock(rt);
    for _ in rt.forever() {
        let heard = next_heard(rt.alloc(), &mut **input);
        if !desk.put(rt, heard) {
            return;
        }
    }
}

fn next_heard<I: BufRead>(alloc: Global, input: &mut I) -> Heard {
    let mut line = String::new(alloc);
    match input.read_line(&mut line) {
        Ok(0) => Heard::End,
        Ok(_) => Heard::Line(line),
        Err(error) => match error.kind() {
            ErrorKind::InvalidData => Heard::NoText,
            ErrorKind::OutOfMemory => without_line(input),
            _ => Heard::Fault,
        },
    }
}

// Skips the rest of a line for which memory ran out: it is no order.
fn without_line<I: BufRead>(input: &mut I) -> Heard {
    match input.skip_until(b'\n') {
        Ok(_) => Heard::NoMemory,
        Err(_) => Heard::Fault,
    }
}
