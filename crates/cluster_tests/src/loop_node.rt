// A node as links see it, which keeps what they bring.

use ballot_base::{Body, Message};
use broker_spec::Command;
use link_threads::{FarEnd, LinkDesk};
use links::Parcel;
use links::link_queue::Waiting;
use std::alloc::Global;
use std::sync::{Mutex, Wait};

/// A node with one other row.
#[derive(Drop)]
pub struct LoopNode {
    alloc: Global,
    number: u8,
    // The other row.
    far: FarEnd,
    /// What lies between it and its links.
    pub desk: LinkDesk,
    // What its links told, oldest first.
    told: Mutex<Vec<Told>>,
}

/// What a link told its node.
#[derive(Clone, Copy, Debug, PartialEq, Eq)]
pub enum Told {
    /// It came up to this number.
    Met(u8),
    /// It broke.
    Parted(u8),
    /// It brought a Held of this sender with this count.
    Held(u8, u64),
    /// It brought another parcel.
    Other,
}

impl LoopNode {
    /// Returns a node of this number in a table of two rows, the other of which is this one.
    pub fn new(alloc: Global, number: u8, other: usize) -> Option<LoopNode> {
        Some(LoopNode {
            alloc,
            number,
            far: FarEnd::Row(other),
            desk: LinkDesk::new(alloc, 2).ok()?,
            told: Mutex::new(Vec::new(alloc)),
        })
    }

    /// Gives a Held to the node of this number at the other row.
    pub fn give<R: Wait>(&self, rt: &R, to: u8, count: u64) {
        let mut given = Vec::new(self.alloc);
        let _ = given.push(Waiting {
            message: held(self.number, count),
            size: 0,
        });
        self.desk.put(rt, self.far, to, given);
    }

    /// Returns true if its links told this, and nothing else.
    pub fn is_told<R: Wait>(&self, rt: &R, wanted: &[Told]) -> bool {
        let (parcels, _) = self.desk.take_all(rt);
        let news = self.desk.news(rt, self.far);
        let mut told = self.told.lock(rt);
        if let Some(news) = news {
            if news.is_met {
                let _ = told.push(Told::Met(news.number));
            }
        }
        for parcel in parcels {
            let _ = told.push(told_by(&parcel));
        }
        if let Some(news) = news {
            if news.is_parted {
                let _ = told.push(Told::Parted(news.number));
            }
        }
        told.as_slice() == wanted
    }
}

// Returns what a parcel tells.
fn told_by(parcel: &Parcel) -> Told {
    match parcel {
        Parcel::Message(message) => match message.body {
            Body::Held(_, count) => Told::Held(message.from, count),
            _ => Told::Other,
        },
        _ => Told::Other,
    }
}

/// Returns a Held of this node.
pub fn held(from: u8, count: u64) -> Message<Command> {
    Message {
        from,
        body: Body::Held(1, count),
    }
}
