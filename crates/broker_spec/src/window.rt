// The window: how many entries of a session may be in flight.

ghost use Rattle.std.specs.Prelude.{◌≡◌, ◌≤◌};
ghost use Rattle.broker_spec.specs.Window.{IsWindowSize, narrow_window, wide_window, window_of};

/// The window of a new broker, and of every broker from a `Start` on.
const WIDE_WINDOW: u8 = 64;

/// The window of a broker that was thawed from form 1, until a `Start`.
const NARROW_WINDOW: u8 = 16;

/// The most entries of a session in flight (MQTT 4.6): 64, or 16 in a broker that was thawed from
/// form 1, until a ballot begins.
#[derive(Clone, Copy, Debug, PartialEq, Eq)]
pub struct Window {
    // `WIDE_WINDOW` or `NARROW_WINDOW`.
    size: u8,
}

impl std::marker::Model for Window {
    ghost use Rattle.std.specs.Prelude.{ℕ};
    ghost use Rattle.broker_spec.specs.Window.{IsWindowSize};

    ghost Value = { ℕ };

    ghost view = { λ window. window.size };

    ghost inverse = { λ size. record { size = size } };

    ghost invariant = { λ window. IsWindowSize window.size };
}

impl Window {
    /// Returns the window of a new broker, and of every broker from a `Start` on.
    pub fn wide() -> Window
        ensures { result ≡ wide_window }
    {
        Window { size: WIDE_WINDOW }
    }

    /// Returns the window of a broker that was thawed from form 1, until a `Start`.
    pub fn narrow() -> Window
        ensures { result ≡ narrow_window }
    {
        Window {
            size: NARROW_WINDOW,
        }
    }

    /// Returns the window of this size; `None` unless it is 16 or 64.
    pub fn of(size: u8) -> Option<Window>
        ensures { result ≡ window_of size }
    {
        if size == NARROW_WINDOW || size == WIDE_WINDOW {
            return Some(Window { size });
        }
        None
    }

    /// Returns the number of entries, 16 or 64.
    pub fn size(self) -> usize
        ensures value { result ≡ self }
        ensures known { IsWindowSize self }
        ensures small { result ≤ wide_window }
    {
        usize::from(self.size)
    }
}
