// Refusals, with the texts and numbers of docs/MANUAL.md.

use client_base::{ClientError, Request, Stage};
use command_line::{LineFault, TableFault};
use jobs::{JobError, print_fault, refuse};
use packet_base::PacketId;
use play::PlayError;
use script::ScriptFault;
use std::alloc::Global;
use std::{fmt, str};
use topics::MalformedKind;

// Returns true if this is printed so.
fn is_told<E: fmt::Display>(alloc: Global, error: &E, text: &str) -> bool {
    match format!(in alloc; "{error}") {
        Ok(printed) => printed.as_str() == text,
        Err(_) => false,
    }
}

const MEMORY: &str = "out of memory";

const CLIENT: &[(ClientError, &str)] = &[
    (ClientError::TooLarge, "packet too large"),
    (ClientError::Protocol, "packet out of its place"),
    (ClientError::Memory, MEMORY),
    (ClientError::NotActive, "not connected"),
    (ClientError::WindowFull, "too many publications under way"),
    (ClientError::SessionLost, "session lost"),
    (
        ClientError::Malformed(MalformedKind::Flags),
        "malformed packet: flags of the fixed header",
    ),
];

#[test]
fn refusals_of_a_client_have_their_texts(rt: HostRuntime) {
    for (error, text) in CLIENT {
        assert!(rt; is_told(rt.alloc(), error, text), "{error:?}");
    }
}

// A request differs from one of the other kind, and from one with another identifier.
#[test]
fn requests_are_compared(rt: HostRuntime) {
    let (one, two) = (PacketId::new(1), PacketId::new(2));
    assert_ne!(rt; Request::Subscribes(one), Request::Unsubscribes(one));
    assert_ne!(rt; Request::Subscribes(one), Request::Subscribes(two));
    assert_ne!(rt; Stage::Opened, Stage::Online);
}

const PLAYING: &[(PlayError, &str)] = &[
    (PlayError::Line(7), "script line 7"),
    (PlayError::Memory, MEMORY),
    (PlayError::Losses, "the world ran out of memory"),
    (PlayError::Idle, "no way out"),
];

const TABLES: &[(TableFault, &str)] = &[
    (TableFault::Shape, "table of nodes"),
    (TableFault::Memory, MEMORY),
];

const SCRIPTS: &[(ScriptFault, &str)] = &[
    (ScriptFault::Line(7), "script line 7"),
    (ScriptFault::Memory, MEMORY),
];

#[test]
fn faults_of_texts_have_their_texts(rt: HostRuntime) {
    for (error, text) in PLAYING {
        assert!(rt; is_told(rt.alloc(), error, text), "{error:?}");
    }
    for (fault, text) in TABLES {
        assert!(rt; is_told(rt.alloc(), fault, text), "{fault:?}");
    }
    for (fault, text) in SCRIPTS {
        assert!(rt; is_told(rt.alloc(), fault, text), "{fault:?}");
    }
}

const WORDS: &str =
    "vbroker: the words of the command line could not be read; try vbroker --help\n";

// Returns what was written as a text, so that it can be compared and shown.
fn text_of(written: &[u8]) -> &str {
    str::from_utf8(written).unwrap_or("not UTF-8")
}

// Returns the exit status for an error, and its text.
fn told(error: JobError, faults: &mut Vec<u8>) -> (u8, &str) {
    faults.clear();
    let status = print_fault(faults, &error);
    (status, text_of(faults.as_slice()))
}

#[test]
fn errors_have_their_texts(rt: HostRuntime) {
    let faults = &mut Vec::new(rt.alloc());
    let text = "vbroker: out of memory\n";
    assert_eq!(rt; told(JobError::Memory, faults), (1, text));
    let text = "vbroker: standard input could not be read\n";
    assert_eq!(rt; told(JobError::Input, faults), (1, text));
    let text = "vbroker: standard output could not be written\n";
    assert_eq!(rt; told(JobError::Output, faults), (1, text));
    let text = "vbroker: the clock could not be read\n";
    assert_eq!(rt; told(JobError::Clock, faults), (1, text));
    let text = "vbroker: too few threads could be started: a node needs 63\n";
    assert_eq!(rt; told(JobError::Threads, faults), (1, text));
    let text = "vbroker: too few files can be open at once: 38 more are needed (ulimit -n)\n";
    assert_eq!(rt; told(JobError::Files(38), faults), (1, text));
    assert_eq!(rt; told(JobError::Words, faults), (2, WORDS));
    let text = "vbroker: out of memory: the transcript shows a world that lost something\n";
    assert_eq!(rt; told(JobError::Losses, faults), (1, text));
    let text = "vbroker: session present\n";
    assert_eq!(rt; told(JobError::SessionPresent, faults), (1, text));
}

#[test]
fn other_refusals_have_their_status(rt: HostRuntime) {
    let (mut output, mut faults) = (Vec::new(rt.alloc()), Vec::new(rt.alloc()));
    let status = refuse(&LineFault::Memory, &mut output, &mut faults);
    let came = (status, output.is_empty(), text_of(faults.as_slice()));
    assert_eq!(rt; came, (1, true, "vbroker: out of memory\n"));
    faults.clear();
    let status = refuse(&LineFault::Incomplete, &mut output, &mut faults);
    let came = (status, output.is_empty(), text_of(faults.as_slice()));
    assert_eq!(rt; came, (2, true, WORDS));
}
