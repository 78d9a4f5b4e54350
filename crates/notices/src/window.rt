// The notices of one kind in one second.

ghost use Rattle.std.specs.Prelude.{◌≡◌};
ghost use Rattle.notices.specs.Limits.{admission, fresh_window, is_due, window_after};

/// How many notices of one kind are told in one second.
pub const LINES_A_SECOND: u8 = 10;

/// What becomes of a notice.
#[derive(Clone, Copy, Debug, PartialEq, Eq)]
pub enum Admission {
    /// It is told, after that so many of its kind were held back in earlier seconds.
    Told(u64),
    /// It is held back and counted.
    Counted,
}

/// The notices of one kind.
#[derive(Clone, Copy)]
pub struct Window {
    /// The second of the last of them.
    pub second: u64,
    /// How many were told in that second.
    pub told: u8,
    /// How many were held back and not told of yet (saturates at 2^64 - 1).
    pub held_back: u64,
}

impl Window {
    // Returns the window of a kind without a notice.
    pub(crate) fn new() -> Window
        ensures { result ≡ fresh_window }
    {
        Window {
            second: 0,
            told: 0,
            held_back: 0,
        }
    }

    // Returns what becomes of a notice in this second.
    pub(crate) fn admit(&mut self, second: u64) -> Admission
        ensures answer { result ≡ admission self.old second }
        ensures after { self.new ≡ window_after self.old second }
    {
        if self.second != second {
            let before = self.held_back;
            *self = Window {
                second,
                told: 1,
                held_back: 0,
            };
            return Admission::Told(before);
        }
        if self.told < LINES_A_SECOND {
            self.told += 1;
            return Admission::Told(0);
        }
        self.held_back = self.held_back.saturating_add(1);
        Admission::Counted
    }

    // Returns true if notices of an earlier second were held back and not told of yet.
    pub(crate) fn is_due(&self, second: u64) -> bool
        ensures { result ≡ is_due self.now second }
    {
        self.second != second && 0 < self.held_back
    }

    // Returns how many were held back, which are told of now.
    pub(crate) fn take(&mut self) -> u64
        ensures count { result ≡ self.old.held_back }
        ensures after { self.new ≡ record self.old { held_back = 0 } }
    {
        let count = self.held_back;
        self.held_back = 0;
        count
    }
}
