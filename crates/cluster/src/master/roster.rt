// The nodes that a master knows: which are linked, and what each reported last.

use ballot_base::Status;
use links::Parcel;
use machine::Memory;
use std::alloc::Global;
use std::collections::VecDeque;
use std::net::SocketAddr;

/// The most orders that wait for one node. Each is passed on within a beat of its link.
const MAX_ORDERS: usize = 64;

/// What is known of a node.
#[derive(Drop)]
pub struct Seat {
    /// Its number.
    pub number: u8,
    /// From where it is linked, or was last.
    pub address: SocketAddr,
    /// What it reported last, if it did.
    pub status: Option<Status>,
    /// When it did so, in milliseconds since the master began.
    pub reported: u64,
    // The number of its link; 0 if it is not linked.
    link: u64,
    // What is to be passed on to it, the oldest first.
    orders: VecDeque<Parcel>,
}

/// The nodes that were linked since the master began, at most 254.
#[derive(Drop)]
pub struct Roster {
    alloc: Global,
    seats: Vec<Seat>,
    // How many links there were.
    links: u64,
}

impl Roster {
    /// Returns the roster of a master to which no node was linked.
    pub fn new(alloc: Global) -> Roster {
        Roster {
            alloc,
            seats: Vec::new(alloc),
            links: 0,
        }
    }

    /// Notes that a node is linked from an address, and returns the number of this link. An older
    /// link of this node is no longer current.
    pub fn enter(&mut self, number: u8, address: SocketAddr) -> Result<u64, Memory> {
        self.links = self.links.saturating_add(1);
        let link = self.links;
        match self.seats.iter_mut().find(|seat| seat.number == number) {
            Some(seat) => {
                seat.link = link;
                seat.address = address;
                seat.orders.clear();
            }
            None => self.add(number, address, link)?,
        }
        Ok(link)
    }

    // Adds a node.
    fn add(&mut self, number: u8, address: SocketAddr, link: u64) -> Result<(), Memory> {
        let seat = Seat {
            number,
            address,
            status: None,
            reported: 0,
            link,
            orders: VecDeque::new(self.alloc),
        };
        match self.seats.push(seat) {
            Ok(()) => Ok(()),
            Err(_) => Err(Memory),
        }
    }

    /// Notes that a link has ended.
    pub fn leave(&mut self, number: u8, link: u64) {
        if let Some(seat) = self.current(number, link) {
            seat.link = 0;
            seat.orders.clear();
        }
    }

    /// Returns true if this is the link of the node.
    pub fn is_current(&mut self, number: u8, link: u64) -> bool {
        self.current(number, link).is_some()
    }

    // Returns the seat of a node, if this is its link.
    fn current(&mut self, number: u8, link: u64) -> Option<&mut Seat> {
        self.seats
            .iter_mut()
            .find(|seat| seat.number == number && seat.link == link)
    }

    /// Notes what a node reported by this link.
    pub fn report(&mut self, number: u8, link: u64, status: Status, now: u64) {
        if let Some(seat) = self.current(number, link) {
            seat.status = Some(status);
            seat.reported = now;
        }
    }

    /// Returns what is known of a node, if it was ever linked.
    pub fn seat(&self, number: u8) -> Option<&Seat> {
        self.seats.iter().find(|seat| seat.number == number)
    }

    /// Returns true if a node is linked.
    pub fn is_linked(&self, number: u8) -> bool {
        match self.seat(number) {
            Some(seat) => seat.link != 0,
            None => false,
        }
    }

    /// Returns the linked node that is the active primary of the highest ballot.
    pub fn primary(&self) -> Option<u8> {
        let mut best = None;
        let mut highest = 0;
        for seat in &self.seats {
            if let Some(ballot) = seat.led() {
                if ballot > highest {
                    highest = ballot;
                    best = Some(seat.number);
                }
            }
        }
        best
    }

    /// Has a parcel passed on to a node. Returns false if the node is not linked, or too much waits
    /// for it.
    pub fn pass(&mut self, number: u8, parcel: Parcel) -> Result<bool, Memory> {
        let seat = self.seats.iter_mut().find(|seat| seat.number == number);
        match seat {
            Some(seat) if seat.link != 0 && seat.orders.len() < MAX_ORDERS => {
                match seat.orders.push_back(parcel) {
                    Ok(()) => Ok(true),
                    Err(_) => Err(Memory),
                }
            }
            _ => Ok(false),
        }
    }

    /// Takes the oldest parcel that waits for this link.
    pub fn take(&mut self, number: u8, link: u64) -> Option<Parcel> {
        self.current(number, link)?.orders.pop_front()
    }
}

impl Seat {
    // Returns the ballot of which the node is the active primary, if it is linked and serves.
    fn led(&self) -> Option<u64> {
        let status = self.status?;
        if self.link != 0 && status.role.is_active() && !status.stopped {
            Some(status.ballot)
        } else {
            None
        }
    }
}
