// At most ten lines a second of each kind.
//
// A limiter has a window for each kind: the second of its last notice, how many were told in that
// second, and how many were held back and not told of yet. So the first ten notices of a second
// pass, and no notice is held back without being counted.

ghost use Rattle.std.specs.Prelude.{◌≡◌, ◌<◌, ◌/◌, slice_set, length, replicate, IfSome, IsNone};
ghost use Rattle.notices.specs.Kinds.{kind_number};
ghost use Rattle.notices.specs.Limits.{admission, fresh_window, HasNothingDue, is_due, TakesHeldBack, window_after, window_of};

use crate::kind::{KINDS, NoticeKind};
use crate::window::{Admission, Window};
use std::fmt;
use std::marker::Model;

/// Limits the lines of each kind to ten a second.
#[derive(Clone, Copy)]
pub struct Limiter {
    // The window of each kind, by its number.
    windows: [Window; KINDS],
}

impl Model for Limiter {
    ghost use Rattle.std.specs.Prelude.{◌≡◌, List, length};
    ghost use Rattle.notices.specs.declared.kind.TheConstants.{KINDS};
    ghost use Rattle.notices.specs.declared.window.Window.{Window};

    ghost Value = { List Window };

    ghost view = { λ limiter. limiter.windows };

    ghost invariant = { λ limiter. length limiter.windows ≡ KINDS };

    ghost inverse = { λ windows. record { windows = windows } };
}

/// How many notices of a kind were held back, and not told of yet. Its text is one line.
#[derive(Clone, Copy, Debug, PartialEq, Eq)]
pub struct HeldBack {
    /// Their kind.
    pub kind: NoticeKind,
    /// How many they were (saturates at 2^64 - 1).
    pub count: u64,
}

impl fmt::Display for HeldBack {
    ghost use Rattle.std.specs.Prelude.{Some, ◌++◌, codes, decimal};
    ghost use Rattle.notices.specs.Kinds.{kind_name};

    ghost output = { λ held. Some (decimal held.count ++ codes " more: " ++ kind_name held.kind) };

    fn fmt<W: fmt::Write>(&self, f: &mut fmt::Formatter<W>) -> fmt::Result {
        let count = self.count;
        let kind = self.kind;
        write!(f, "{count} more: {kind}")
    }
}

impl Limiter {
    /// Returns a limiter that has seen no notice.
    pub fn new() -> Limiter
        ensures { result ≡ replicate KINDS fresh_window }
    {
        Limiter {
            windows: [Window::new(); KINDS],
        }
    }

    /// Returns what becomes of a notice of this kind, at this time in milliseconds of a clock that
    /// does not go back.
    pub fn admit(&mut self, now_millis: u64, kind: NoticeKind) -> Admission
        ensures answer { result ≡ admission (window_of self.old kind) (now_millis / 1000) }
        ensures after { self.new ≡ slice_set self.old (kind_number kind)
            (window_after (window_of self.old kind) (now_millis / 1000)) }
    {
        let number = kind.number();
        let mut window = self.windows[number];
        let answer = window.admit(now_millis / 1000);
        self.windows[number] = window;
        answer
    }

    /// Returns how many notices of some kind were held back in an earlier second and not told of
    /// yet; `None` if there are none. They are told of now.
    pub fn take_held_back(&mut self, now_millis: u64) -> Option<HeldBack>
        ensures taken { IfSome result (TakesHeldBack self.old (now_millis / 1000) self.new) }
        ensures none { IsNone result → HasNothingDue self.old (now_millis / 1000) }
        ensures same { IsNone result → self.new ≡ self.old }
    {
        let second = now_millis / 1000;
        for number in 0..KINDS {
            let mut window = self.windows[number];
            if window.is_due(second) {
                let count = window.take();
                self.windows[number] = window;
                let kind = NoticeKind::of(number);
                return Some(HeldBack { kind, count });
            }
        }
        None
    }
}
