// Lines as an operator reads them.

use log::LevelFilter;
use log::sink::Memory;
use notices::{CloseReason, Limiter, Notice, QueueState, log_filter, tell, tell_held_back};
use packet_base::RefusalCode;
use std::alloc::Global;
use topics::MalformedKind;

// Notices, and the line of each with its level.
const ROWS: &[(Notice<'static>, &str)] = &[
    (
        Notice::Connected {
            client: "meter",
            node: 1,
        },
        "[DEBUG] client \"meter\" connected to node 1",
    ),
    (
        Notice::Closed {
            client: Some("meter"),
            node: 1,
            why: CloseReason::KeepAlive,
        },
        "[INFO ] client \"meter\" closed by node 1: keep alive ended",
    ),
    (
        Notice::Closed {
            client: None,
            node: 2,
            why: CloseReason::Connections,
        },
        "[WARN ] connection closed by node 2: too many connections",
    ),
    (
        Notice::Closed {
            client: Some("a"),
            node: 1,
            why: CloseReason::Protocol(MalformedKind::Flags),
        },
        "[WARN ] client \"a\" closed by node 1: protocol fault: flags of the fixed header",
    ),
    (
        Notice::Closed {
            client: Some("button"),
            node: 1,
            why: CloseReason::FullQueue("lamp"),
        },
        "[WARN ] client \"button\" closed by node 1: full queue of \"lamp\"",
    ),
    (
        Notice::Closed {
            client: Some("a"),
            node: 1,
            why: CloseReason::Connack(RefusalCode::NotAuthorized),
        },
        "[WARN ] client \"a\" closed by node 1: CONNACK 5",
    ),
    (
        Notice::Queue {
            session: "lamp",
            state: QueueState::HalfFull,
            queued: 2048,
            limit: 4096,
        },
        "[WARN ] session \"lamp\": queue half full, 2048 of 4096 messages",
    ),
    (
        Notice::Halted { node: 3 },
        "[ERROR] node 3 stopped: out of memory",
    ),
    (
        Notice::TakeoverActive {
            ballot: 2,
            primary: 3,
        },
        "[INFO ] takeover active: ballot 2, primary 3",
    ),
    (
        Notice::OrderRefused {
            order: "crash 9",
            number: 24,
        },
        "[WARN ] order \"crash 9\" refused 24",
    ),
    // RFC 8259, section 7: quote, backslash and control characters are escaped.
    (
        Notice::Connected {
            client: "a\"\\\n\u{1b}\u{7f}\u{85}é",
            node: 1,
        },
        "[DEBUG] client \"a\\\"\\\\\\u000a\\u001b\\u007f\\u0085é\" connected to node 1",
    ),
];

// Returns true if the lines of these notices, told at this time by this limiter, are these.
fn is_told(
    alloc: Global,
    limiter: &mut Limiter,
    now_millis: u64,
    notices: &[Notice<'static>],
    lines: &[&str],
) -> bool {
    let memory = Memory::new(alloc);
    for notice in notices {
        tell(&memory, limiter, now_millis, notice);
    }
    let told = memory.into_lines();
    let mut are = told.len() == lines.len();
    for (line, wanted) in told.as_slice().iter().zip(lines.iter()) {
        are = are && line.as_str() == *wanted;
    }
    are
}

// Returns the lines that tell of held back notices at this time.
fn held_back(alloc: Global, limiter: &mut Limiter, now_millis: u64) -> usize {
    let memory = Memory::new(alloc);
    tell_held_back(&memory, limiter, now_millis);
    memory.into_lines().len()
}

#[test]
fn each_notice_has_its_line(rt: HostRuntime) {
    for (notice, line) in ROWS {
        let mut limiter = Limiter::new();
        assert!(rt;
            is_told(rt.alloc(), &mut limiter, 0, &[*notice], &[*line]),
            "{line}"
        );
    }
}

#[test]
fn ten_lines_a_second_are_told(rt: HostRuntime) {
    let crash = Notice::Crashed { node: 1 };
    let line = "[ERROR] node 1 crashed";
    let mut limiter = Limiter::new();
    assert!(rt; is_told(rt.alloc(), &mut limiter, 5_000, &[crash; 13], &[line; 10]));
    assert!(rt; is_told(rt.alloc(), &mut limiter, 5_999, &[crash], &[]));
    let counted = ["[ERROR] 4 more: crashed", line];
    assert!(rt; is_told(rt.alloc(), &mut limiter, 6_000, &[crash], &counted));
    assert!(rt; is_told(rt.alloc(), &mut limiter, 6_000, &[crash; 10], &[line; 9]));
    assert_eq!(rt; held_back(rt.alloc(), &mut limiter, 6_999), 0);
    assert_eq!(rt; held_back(rt.alloc(), &mut limiter, 7_000), 1);
    assert_eq!(rt; held_back(rt.alloc(), &mut limiter, 7_000), 0);
}

#[test]
fn words_choose_levels(rt: HostRuntime) {
    assert_eq!(rt; log_filter("off"), Some(LevelFilter::Off));
    assert_eq!(rt; log_filter("error"), Some(LevelFilter::Error));
    assert_eq!(rt; log_filter("warn"), Some(LevelFilter::Warn));
    assert_eq!(rt; log_filter("info"), Some(LevelFilter::Info));
    assert_eq!(rt; log_filter("debug"), Some(LevelFilter::Debug));
    assert_eq!(rt; log_filter("trace"), None);
    assert_eq!(rt; log_filter("verbose"), None);
}
