// Which of the rows that dial this node has which link.
//
// A hello names the life of a node and not its row. So a life takes the row that it had before,
// else one whose link is down, that of the oldest life first: numbers rise with each start, so the
// oldest is the likeliest to have ended.

use crate::strangers::Stranger;
use machine::Memory;
use std::alloc::Global;

/// A row that dials this node.
#[derive(Clone, Copy, Debug, PartialEq, Eq)]
struct Seat {
    // The row, counted from 0.
    row: usize,
    // The number of the life that had its link last; 0 if none had.
    number: u8,
    // True while its link is up.
    is_linked: bool,
    // True if this life dialled again while its link is up, which has to end then.
    is_left: bool,
}

/// The rows that dial this node.
#[derive(Drop)]
pub(crate) struct Seats {
    seats: Vec<Seat>,
}

impl Seats {
    /// Returns the rows from `first` up to `end`, none of which is linked.
    pub(crate) fn new(alloc: Global, first: usize, end: usize) -> Result<Seats, Memory> {
        let mut seats = Vec::new(alloc);
        for row in first..end {
            seats.push(Seat {
                row,
                number: 0,
                is_linked: false,
                is_left: false,
            })?;
        }
        Ok(Seats { seats })
    }

    /// Returns how many there are.
    pub(crate) fn len(&self) -> usize {
        self.seats.len()
    }

    /// Lets this life have a row, and returns it. `Linked` comes if an older link of this life is
    /// up, which is to end then, and `Full` if the link of each row is up.
    pub(crate) fn enter(&mut self, number: u8) -> Result<usize, Stranger> {
        if let Some(own) = self.seats.iter_mut().find(|seat| seat.number == number) {
            if own.is_linked {
                own.is_left = true;
                return Err(Stranger::Linked(number));
            }
            return Ok(own.take(number));
        }
        let Some(row) = self.oldest_down() else {
            return Err(Stranger::Full);
        };
        match self.seat(row) {
            Some(seat) => Ok(seat.take(number)),
            None => Err(Stranger::Full),
        }
    }

    // Returns the row with the oldest life, of those whose link is down.
    fn oldest_down(&self) -> Option<usize> {
        let mut oldest: Option<Seat> = None;
        for seat in self.seats.iter().filter(|seat| !seat.is_linked) {
            oldest = match oldest {
                Some(best) if best.number <= seat.number => Some(best),
                _ => Some(*seat),
            };
        }
        Some(oldest?.row)
    }

    // Returns the seat of a row.
    fn seat(&mut self, row: usize) -> Option<&mut Seat> {
        self.seats.iter_mut().find(|seat| seat.row == row)
    }

    /// Notes that the link of a row is down.
    pub(crate) fn leave(&mut self, row: usize) {
        if let Some(seat) = self.seat(row) {
            seat.is_linked = false;
            seat.is_left = false;
        }
    }

    /// Returns true if the life of this row dialled again, so that its link has to end.
    pub(crate) fn is_left(&self, row: usize) -> bool {
        self.seats
            .iter()
            .any(|seat| seat.row == row && seat.is_left)
    }
}

impl Seat {
    // Notes that the link of this life is up. Returns the row.
    fn take(&mut self, number: u8) -> usize {
        self.number = number;
        self.is_linked = true;
        self.is_left = false;
        self.row
    }
}
