// Inputs of a server whose first read fails.

use jobs::{Operation, print_fault, serve_table};
use std::io::{BufReader, ErrorKind, Read};
use std::net::{Net, TcpListener, TcpStream};
use std::sync::Wait;
use std::thread::Threads;
use std::time::Clock;
use std::{io, str};

// A table of one node on the loopback.
const ONE: &str = "members = [1]\nprimary = 1\n[[node]]\nid = 1\nlisten = \"127.0.0.1:0\"\n";

// What is reported of the node of that table.
const LISTENS: &str = "node 1 listens on 127.0.0.1:";

// Returns what was written as a text, so that it can be compared and shown.
fn text_of(written: &[u8]) -> &str {
    str::from_utf8(written).unwrap_or("not UTF-8")
}

// An input whose first read fails.
#[derive(Drop)]
struct Failing {
    kind: ErrorKind,
    has_failed: bool,
    rest: &'static [u8],
}

impl Read for Failing {
    fn read(&mut self, buf: &mut [u8]) -> io::Result<usize> {
        if !self.has_failed {
            self.has_failed = true;
            return Err(io::Error::from(self.kind));
        }
        let count = self.rest.len().min(buf.len());
        buf[..count].copy_from_slice(&self.rest[..count]);
        self.rest = &self.rest[count..];
        Ok(count)
    }
}

// Serves the node with an input whose first read fails in this way, and which then continues with
// this. Returns the exit status; none if there was no memory for the input.
fn serve_failing<R>(
    rt: &R,
    kind: ErrorKind,
    rest: &'static [u8],
    output: &mut Vec<u8>,
    faults: &mut Vec<u8>,
) -> Option<u8>
where
    R: Threads + Wait + Clock + Sync + AllocGlobal,
    R: Net<Listener = TcpListener, Stream = TcpStream>,
{
    let failing = Failing {
        kind,
        has_failed: false,
        rest,
    };
    let operation = Operation::of("warn", None)?;
    match BufReader::new(rt.alloc(), failing) {
        Ok(mut input) => Some(
            match serve_table(rt, ONE, operation, &mut input, output, faults) {
                Ok(()) => 0,
                Err(error) => print_fault(faults, &error),
            },
        ),
        Err(_) => None,
    }
}

#[test]
fn an_input_that_cannot_be_read_ends_the_server(rt: HostRuntime) {
    let reported = "vbroker: standard input could not be read\n";
    let rest = b"status\n".as_slice();
    let mut output = Vec::new(rt.alloc());
    let mut faults = Vec::new(rt.alloc());
    let status = serve_failing(&rt, ErrorKind::Other, rest, &mut output, &mut faults);
    let told = text_of(faults.as_slice());
    let came = (status, text_of(output.as_slice()), told.contains(reported));
    assert_eq!(rt; came, (Some(1), "", true), "{told}");
}

// The server continues after a line for which memory ran out.
#[test]
fn a_line_without_memory_is_refused(rt: HostRuntime) {
    let rest = b"status\nquit\n".as_slice();
    let mut output = Vec::new(rt.alloc());
    let mut faults = Vec::new(rt.alloc());
    let status = serve_failing(&rt, ErrorKind::OutOfMemory, rest, &mut output, &mut faults);
    let told = text_of(faults.as_slice());
    let is_told = told.contains(LISTENS) && told.contains("[WARN ] order \"\" refused 12\n");
    let came = (status, text_of(output.as_slice()), is_told);
    assert_eq!(rt; came, (Some(0), "refused 12\nbye\n", true), "{told}");
}
