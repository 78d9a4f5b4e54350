// The intake budget of a node.
//
// A primary answers a client once every member holds the command, so whatever it takes for a member
// that lags waits in memory. The budget bounds that at its source. More bytes are admitted only
// while three bounds hold: on open places, on bytes taken and not known to be agreed, and on bytes
// in transit. The log is divided at `earlier_end`: once the status shows that the places before it
// are agreed, the bytes in them are dropped from the count, and those after it become the earlier
// ones. So the count is never below the truth, and two numbers suffice for any log.

ghost use Rattle.std.specs.Prelude.{◌≡◌, ◌+◌, ◌≤◌, None, false, true};
ghost use Rattle.node.specs.Intake.{admits, is_agreed, open_places, status_shown, took};

use ballot_base::Status;
use node_base::devices::PIECE_BYTES;
use std::marker::Model;

/// Bytes are admitted only while at most this many places are open.
const MAX_OPEN: u64 = 4_096;

/// Bytes are admitted only while at most this many taken bytes are not known to be agreed.
const MAX_OPEN_BYTES: u64 = 67_108_864;

/// Bytes are admitted only while at most this many bytes are in transit.
const MAX_IN_TRANSIT: u64 = 262_144;

/// The intake budget of a node, and its status. Counts the bytes that are not known to be agreed:
/// they may be in places of the log that some member does not hold. The type's invariant bounds
/// them.
#[derive(Drop)]
pub struct Intake {
    // None before the node is served.
    status: Option<Status>,
    // Bytes in transit to the node.
    in_transit: u64,
    // The number of places at the front of the log whose bytes `earlier` counts.
    earlier_end: u64,
    // Bytes taken into these places.
    earlier: u64,
    // Bytes taken into places after these.
    later: u64,
}

impl Model for Intake {
    ghost use Rattle.node.specs.Intake.{IsBounded, IntakeView};

    ghost Value = { IntakeView };

    ghost view = { λ intake. record {
      status = intake.status;
      in_transit = intake.in_transit;
      earlier_end = intake.earlier_end;
      earlier = intake.earlier;
      later = intake.later;
    } };

    ghost invariant = { λ intake. IsBounded (record {
      status = intake.status;
      in_transit = intake.in_transit;
      earlier_end = intake.earlier_end;
      earlier = intake.earlier;
      later = intake.later;
    }) };
}

impl Intake {
    /// Returns the intake of a node that is not yet served.
    pub fn new() -> Intake
        ensures { result
            ≡ record { status = None; in_transit = 0; earlier_end = 0; earlier = 0; later = 0 } }
    {
        Intake {
            status: None,
            in_transit: 0,
            earlier_end: 0,
            earlier: 0,
            later: 0,
        }
    }

    /// Returns the node's status.
    pub fn status(&self) -> Option<Status>
        ensures { result ≡ self.now.status }
    {
        self.status
    }

    /// Reserves `bytes` as in transit to the node. Returns false, and reserves nothing, if a bound
    /// is exceeded.
    pub fn admit(&mut self, bytes: u64) -> bool
        requires { bytes ≤ PIECE_BYTES }
        ensures admits { result ≡ admits self.old }
        ensures counted { result ≡ true →
            self.new ≡ record self.old { in_transit = self.old.in_transit + bytes } }
        ensures same { result ≡ false → self.new ≡ self.old }
    {
        let admits = open_places(&self.status) <= MAX_OPEN
            && self.earlier + self.later <= MAX_OPEN_BYTES
            && self.in_transit <= MAX_IN_TRANSIT;
        if admits {
            self.in_transit += bytes;
        }
        admits
    }

    /// Moves bytes from in transit to taken.
    pub fn count_taken(&mut self, bytes: u64)
        ensures { self.new ≡ took bytes self.old }
    {
        let taken = bytes.min(self.in_transit);
        self.in_transit -= taken;
        self.later += taken;
    }

    /// Sets the node's status. Bytes that every member now holds are no longer counted.
    pub fn show(&mut self, status: Status)
        ensures { self.new ≡ status_shown status self.old }
    {
        if is_agreed(self.earlier_end, &status) {
            self.earlier_end = status.held;
            self.earlier = self.later;
            self.later = 0;
        }
        self.status = Some(status);
    }
}

// Returns how many places are not known to be held by every member; 0 unless the node is the active
// primary.
fn open_places(status: &Option<Status>) -> u64
    ensures { result ≡ open_places status.now }
{
    match status {
        Some(status) if status.role.is_active() => status.held.saturating_sub(status.committed),
        _ => 0,
    }
}

// Returns true if the first `earlier_end` places are agreed, or the whole log.
fn is_agreed(earlier_end: u64, status: &Status) -> bool
    ensures { result ≡ is_agreed earlier_end status.now }
{
    earlier_end.min(status.held) <= status.committed
}
