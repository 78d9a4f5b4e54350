// Where the threads of `serve` meet.
//
// One thread reads the input, some serve monitors, and the attendant, which alone asks the nodes,
// does what they want, one thing after the other. All is under one lock, which is held only to put
// something there or to take it away.

use admin::AdminView;
use std::alloc::{AllocError, Global};
use std::mem;
use std::sync::{Condvar, Mutex, Wait};
use std::time::{Clock, Duration};

/// What was read of the input.
#[derive(Drop)]
pub(crate) enum Heard {
    /// A line, with its end.
    Line(String),
    /// A line that is not UTF-8.
    NoText,
    /// A line for which memory ran out.
    NoMemory,
    /// The end.
    End,
    /// The input could not be read.
    Fault,
}

/// Where the threads of `serve` meet. No clause says what is put there, or taken.
#[derive(Drop)]
pub(crate) struct Desk {
    papers: Mutex<Papers>,
    changed: Condvar,
}

// What lies there.
#[derive(Drop)]
struct Papers {
    // True once the attendant works.
    is_open: bool,
    // True once the threads are to end.
    has_ended: bool,
    // What was read last, until the attendant takes it.
    heard: Option<Heard>,
    // True until the attendant has answered what was read last.
    is_unanswered: bool,
    // How many monitors want to know how the nodes are.
    wanted: usize,
    // What they are shown; none if memory ran out. There is room for one each.
    views: Vec<Option<AdminView>>,
}

impl Desk {
    /// Returns an empty desk for this many monitors. Fails only if memory runs out.
    pub(crate) fn new(alloc: Global, monitors: usize) -> Result<Desk, AllocError> {
        Ok(Desk {
            papers: Mutex::new(Papers {
                is_open: false,
                has_ended: false,
                heard: None,
                is_unanswered: false,
                wanted: 0,
                views: Vec::with_capacity(alloc, monitors)?,
            }),
            changed: Condvar::new(),
        })
    }

    /// Opens the desk: the attendant works.
    pub(crate) fn open<R: Wait>(&self, rt: &R) {
        self.papers.lock(rt).is_open = true;
        self.changed.notify_all();
    }

    /// Ends the threads.
    pub(crate) fn end<R: Wait>(&self, rt: &R) {
        self.papers.lock(rt).has_ended = true;
        self.changed.notify_all();
    }

    /// Returns true once the threads are to end.
    pub(crate) fn has_ended<R: Wait>(&self, rt: &R) -> bool {
        self.papers.lock(rt).has_ended
    }

    /// Waits until the desk is open. Returns false if the threads are to end instead.
    pub(crate) fn await_open<R: Wait>(&self, rt: &R) -> bool {
        let mut papers = self.papers.lock(rt);
        for _ in rt.forever() {
            if papers.has_ended || papers.is_open {
                return !papers.has_ended;
            }
            papers = self.changed.wait(rt, papers);
        }
        unreachable!()
    }

    /// Puts what was read, and waits until it is answered. Returns false if the threads are to end.
    pub(crate) fn put<R: Wait>(&self, rt: &R, heard: Heard) -> bool {
        let mut papers = self.papers.lock(rt);
        papers.heard = Some(heard);
        papers.is_unanswered = true;
        self.changed.notify_all();
        for _ in rt.forever() {
            if papers.has_ended || !papers.is_unanswered {
                return !papers.has_ended;
            }
            papers = self.changed.wait(rt, papers);
        }
        unreachable!()
    }

    /// Takes what was read, once something was, a monitor wants something, or this time has passed.
    pub(crate) fn take<R: Wait + Clock>(&self, rt: &R, time: Duration) -> Option<Heard> {
        let mut papers = self.papers.lock(rt);
        if papers.heard.is_none() && papers.wanted == 0 {
            papers = self.changed.wait_timeout(rt, papers, time).0;
        }
        papers.heard.take()
    }

    /// Tells the reader of the input that what it put is answered.
    pub(crate) fn answered<R: Wait>(&self, rt: &R) {
        self.papers.lock(rt).is_unanswered = false;
        self.changed.notify_all();
    }

    /// Returns how the nodes are, once the attendant has looked; none if memory ran out, or the
    /// threads are to end.
    pub(crate) fn view<R: Wait>(&self, rt: &R) -> Option<AdminView> {
        let mut papers = self.papers.lock(rt);
        papers.wanted = papers.wanted.saturating_add(1);
        self.changed.notify_all();
        for _ in rt.forever() {
            if papers.has_ended {
                return None;
            }
            if let Some(view) = papers.views.pop() {
                return view;
            }
            papers = self.changed.wait(rt, papers);
        }
        unreachable!()
    }

    /// Takes how many monitors want to know how the nodes are.
    pub(crate) fn take_wanted<R: Wait>(&self, rt: &R) -> usize {
        mem::replace(&mut self.papers.lock(rt).wanted, 0)
    }

    /// Gives one of them what it wants.
    pub(crate) fn give<R: Wait>(&self, rt: &R, view: Option<AdminView>) {
        // (it has room for each)
        let _ = self.papers.lock(rt).views.push(view);
        self.changed.notify_all();
    }
}
