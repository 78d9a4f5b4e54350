// Whether what was promised holds after each event, by looking.

use crate::looks::list_reading::ListReading;
use crate::looks::seen::Seen;
use broker_spec::Command;
use client::ClientCore;
use packet_base::ClientId;
use std::alloc::Global;
use std::fmt;

/// What was promised and does not hold.
#[derive(Clone, Copy)]
pub enum Broken {
    /// The agreed list became shorter, or a command in it changed.
    Agreed,
    /// A client accepted at QoS 2 what is not the next entry of its session.
    Accepted,
    /// A client accepted one publication of QoS 2 twice, or two of one publisher in the wrong
    /// order.
    Order,
    /// A client no longer keeps a publication that was taken nowhere in the agreed list.
    Lost,
    /// A loss was counted, with memory for all.
    Losses,
}

impl fmt::Display for Broken {
    fn fmt<W: fmt::Write>(&self, f: &mut fmt::Formatter<W>) -> fmt::Result {
        match self {
            Broken::Agreed => write!(f, "the agreed list became shorter, or changed"),
            Broken::Accepted => write!(
                f,
                "a client accepted what is not the next entry of its session"
            ),
            Broken::Order => write!(f, "a client accepted a publication twice, or out of order"),
            Broken::Lost => write!(
                f,
                "a publication was acknowledged and is not in the agreed list"
            ),
            Broken::Losses => write!(f, "a loss was counted"),
        }
    }
}

/// What was seen of a run.
#[derive(Drop)]
pub struct Watch {
    // The allocator of the lists of looks.
    alloc: Global,
    // What the agreed commands come to.
    reading: ListReading,
    // How many commands were agreed at the last look.
    length: u64,
    // What was seen of each client, at its index.
    seen: Vec<Seen>,
}

impl Watch {
    /// Begins to watch this many clients. None if it ran out of memory, as in each call here.
    pub fn new(alloc: Global, clients: usize) -> Option<Watch> {
        let mut seen = Vec::new(alloc);
        for _ in 0..clients {
            seen.push(Seen::new(alloc)).ok()?;
        }
        Some(Watch {
            alloc,
            reading: ListReading::new(alloc),
            length: 0,
            seen,
        })
    }

    /// Takes note that the client at an index made the publication of this number, at QoS 1 or 2.
    pub fn note_published(&mut self, index: usize, serial: u64) -> Option<()> {
        self.seen.get_mut(index)?.published.push(serial).ok()
    }

    /// Takes note that the client at an index opened a connection.
    pub fn note_opened(&mut self, index: usize) {
        if let Some(seen) = self.seen.get_mut(index) {
            seen.note_opened();
        }
    }

    /// Takes note that the session of the client at an index was ended.
    pub fn note_expelled(&mut self, index: usize) {
        if let Some(seen) = self.seen.get_mut(index) {
            seen.is_expelled = true;
        }
    }

    /// Looks at the agreed list, in two parts, and at the count of losses, and returns what does
    /// not hold.
    pub fn look_at_agreed(
        &mut self,
        length: u64,
        first: &[Command],
        second: &[Command],
        losses: u64,
    ) -> Option<Result<(), Broken>> {
        if length < self.length {
            return Some(Err(Broken::Agreed));
        }
        self.length = length;
        self.reading.read_rest(first, second)?;
        Some(if losses == 0 {
            Ok(())
        } else {
            Err(Broken::Losses)
        })
    }

    /// Looks at the client at an index, and returns what does not hold.
    pub fn look_at_client(
        &mut self,
        index: usize,
        name: &ClientId,
        core: &ClientCore,
    ) -> Option<Result<(), Broken>> {
        let strays = self.strays()?;
        let seen = self.seen.get_mut(index)?;
        seen.look(name, core, &self.reading, strays.as_slice())
    }

    // Returns which clients may be out of step.
    fn strays(&self) -> Option<Vec<bool>> {
        let mut strays = Vec::new(self.alloc);
        for seen in self.seen.iter() {
            strays.push(seen.may_stray()).ok()?;
        }
        Some(strays)
    }

    /// Reads the whole agreed list once more, and returns whether it says what it said before.
    pub fn read_again(&self, first: &[Command], second: &[Command]) -> Option<Result<(), Broken>> {
        let mut again = ListReading::new(self.alloc);
        again.read_rest(first, second)?;
        let is_same = again.is_like(&self.reading);
        Some(if is_same { Ok(()) } else { Err(Broken::Agreed) })
    }
}
