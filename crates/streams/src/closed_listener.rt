// The witness that a listener is closed, and the threads that wait at it.

ghost use Rattle.std.specs.Prelude.{◌≡◌, ◌+◌, ◌-◌, ◌^◌, false, min, true};
ghost use Rattle.std.specs.Prelude.{IfErr, IfNone, IfSome, OnErr, OnOk};

use std::marker::Model;

/// The witness that a listener was seen closed. Only a listener's own state makes one, so a thread
/// that returns one did look.
#[derive(Drop)]
pub struct Closed {
    // The number of the listener and of its node.
    number: u8,
}

impl Model for Closed {
    ghost use Rattle.std.specs.Prelude.{ℕ};
    ghost use Rattle.std.specs.Coded.{coded_ℕ};

    ghost Value = { ℕ };

    ghost coded = { coded_ℕ };

    ghost view = { λ closed. closed.number };
}

/// The threads that wait at a listener for clients.
#[derive(Drop)]
pub(crate) struct Waiting {
    // True once no more connections are admitted.
    is_closed: bool,
    // How many threads wait.
    threads: u32,
}

impl Waiting {
    /// Returns the state of an open listener at which no thread waits.
    pub(crate) fn new() -> Waiting
        ensures { result ≡ record { is_closed = false; threads = 0 } }
    {
        Waiting {
            is_closed: false,
            threads: 0,
        }
    }

    /// Closes the listener of this number. Returns the witness.
    pub(crate) fn close(&mut self, number: u8) -> Closed
        ensures closes { self.new ≡ record self.old { is_closed = true } }
        ensures witness { result ≡ number }
    {
        self.is_closed = true;
        Closed { number }
    }

    /// Returns the witness for the listener of this number, if it is closed.
    pub(crate) fn closed(&self, number: u8) -> Option<Closed>
        ensures some { IfSome result (λ closed. closed ≡ number) }
        ensures seen { IfSome result (λ _. self.now.is_closed ≡ true) }
        ensures none { IfNone result (self.now.is_closed ≡ false) }
    {
        if self.is_closed {
            Some(Closed { number })
        } else {
            None
        }
    }

    /// Counts one more waiting thread. If the listener is closed, fails with the witness for this
    /// number.
    pub(crate) fn begin(&mut self, number: u8) -> Result<(), Closed>
        ensures admits { OnOk result (self.old.is_closed ≡ false) }
        ensures counts { OnOk result
            (self.new ≡ record self.old { threads = min (self.old.threads + 1) (2 ^ 32 - 1) }) }
        ensures witness { IfErr result (λ closed. closed ≡ number) }
        ensures seen { OnErr result (self.old.is_closed ≡ true) }
        ensures same { OnErr result (self.new ≡ self.old) }
    {
        if let Some(closed) = self.closed(number) {
            return Err(closed);
        }
        self.threads = self.threads.saturating_add(1);
        Ok(())
    }

    /// Counts one waiting thread fewer. If the listener is closed, fails with the witness for this
    /// number.
    pub(crate) fn end(&mut self, number: u8) -> Result<(), Closed>
        ensures admits { OnOk result (self.old.is_closed ≡ false) }
        ensures counts { self.new ≡ record self.old { threads = self.old.threads - 1 } }
        ensures witness { IfErr result (λ closed. closed ≡ number) }
        ensures seen { OnErr result (self.old.is_closed ≡ true) }
    {
        self.threads = self.threads.saturating_sub(1);
        match self.closed(number) {
            Some(closed) => Err(closed),
            None => Ok(()),
        }
    }

    /// Returns how many threads wait.
    pub(crate) fn threads(&self) -> u32
        ensures { result ≡ self.now.threads }
    {
        self.threads
    }
}
