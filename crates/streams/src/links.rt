// The table of connections that a node serves.

ghost use Rattle.std.specs.Prelude.{◌≡◌, ℕ, ◌<◌, ◌≤◌, ◌-◌, ◌++◌, None, Some, false, map, option_copied, true};
ghost use Rattle.std.specs.Prelude.{IfNone, IfOk, IfSome};
ghost use Rattle.std.specs.Arc.{arc_value};
ghost use Rattle.slab.specs.Slab.{ContainsKey, Updates, get, slab_len};
ghost use Rattle.streams.specs.declared.limits.TheConstants.{MAX_CONNECTIONS};

use crate::idle_lanes::IdleLanes;
use crate::limits::MAX_CONNECTIONS;
use crate::link::Link;
use run_history::RunNaming;
use slab::Slab;
use std::alloc::{AllocError, Global};
use std::marker::Model;
use std::sync::Arc;

/// The connections that a node serves, at most [`MAX_CONNECTIONS`], each at an index. An index is
/// taken before the connection is reported to the node, and the connection is listed after that.
#[derive(Drop)]
pub(crate) struct Links<H: RunNaming> {
    // Has capacity for all from the beginning. An entry is none while its connection is not yet
    // listed.
    slots: Slab<Option<Arc<Link<H>, Global>>>,
    ghost few: { slab_len slots ≤ MAX_CONNECTIONS },
    ghost room: { slots.capacity ≡ MAX_CONNECTIONS },
}

/// The right to an index of the table, for one connection. It cannot be dropped: it ends when the
/// index is freed.
pub struct TakenIndex {
    number: usize,
}

impl Model for TakenIndex {
    ghost use Rattle.std.specs.Prelude.{ℕ};

    ghost Value = { ℕ };

    ghost view = { λ index. index.number };
}

impl TakenIndex {
    /// Returns the index itself.
    pub fn number(&self) -> usize
        ensures { result ≡ self.now }
    {
        self.number
    }
}

impl<H: RunNaming> Links<H> {
    ghost use Rattle.streams.specs.ListedConnections.{AddsBusy, busy_at, busy_between, connection_listed_at};

    /// Returns a table without connections, with memory for all. The only error is that memory ran
    /// out.
    pub(crate) fn new(alloc: Global) -> Result<Links<H>, AllocError>
        ensures { IfOk result (λ links. slab_len links.slots ≡ 0) }
    {
        let slots = Slab::with_capacity(alloc, usize::from(MAX_CONNECTIONS))?;
        if slots.capacity() != usize::from(MAX_CONNECTIONS) {
            return Err(AllocError);
        }
        Ok(Links { slots })
    }

    /// Takes an index. Returns none if [`MAX_CONNECTIONS`] are taken.
    pub(crate) fn take(&mut self) -> Option<TakenIndex>
        ensures below { IfSome result (λ index. index < MAX_CONNECTIONS) }
        ensures free { IfSome result (λ index. get self.old.slots index ≡ None) }
        ensures taken { IfSome result (λ index.
            Updates self.old.slots self.new.slots index (Some None)) }
        ensures full { IfNone result (slab_len self.old.slots ≡ MAX_CONNECTIONS) }
        ensures same { IfNone result (self.new ≡ self.old) }
    {
        if self.slots.len() >= usize::from(MAX_CONNECTIONS) {
            return None;
        }
        Some(TakenIndex {
            number: self.slots.insert_reserved(None),
        })
    }

    /// Lists a connection at its index, if that is taken; otherwise nothing changes.
    pub(crate) fn list(&mut self, link: Arc<Link<H>, Global>)
        ensures taken { ContainsKey self.old.slots (arc_value link).index →
            Updates self.old.slots self.new.slots (arc_value link).index (Some (Some link)) }
        ensures free { (ContainsKey self.old.slots (arc_value link).index → ⊥)
            → self.new ≡ self.old }
    {
        let index = link.index;
        if self.slots.contains(index) {
            let _ = self.slots.remove(index);
            let _ = self.slots.insert_reserved(Some(link));
        }
    }

    /// Frees an index.
    pub(crate) fn free(&mut self, index: TakenIndex)
        ensures { Updates self.old.slots self.new.slots index None }
    {
        let TakenIndex { number } = index;
        let _ = self.slots.try_remove(number);
    }

    /// Ends all listed connections. They stay listed.
    pub(crate) fn shut_all(&self) {
        for (_, link) in self.slots.iter() {
            if let Some(link) = link {
                link.shut();
            }
        }
    }

    /// Returns the first connection that is listed at this index or after it, with its index.
    pub(crate) fn first_from(&self, first: usize) -> Option<(usize, &Arc<Link<H>, Global>)>
        ensures found { IfSome result (λ found.
            connection_listed_at (get self.now.slots found.0) ≡ Some found.1.now) }
        ensures from { IfSome result (λ found. first ≤ found.0) }
        ensures below { IfSome result (λ found. found.0 < MAX_CONNECTIONS) }
        ensures before { IfSome result (λ found. (index : ℕ) → first ≤ index → index < found.0
            → connection_listed_at (get self.now.slots index) ≡ None) }
        ensures none { IfNone result ((index : ℕ) → first ≤ index → index < MAX_CONNECTIONS
            → connection_listed_at (get self.now.slots index) ≡ None) }
    {
        for index in first..usize::from(MAX_CONNECTIONS) {
            if let Some(link) = self.at(index) {
                return Some((index, link));
            }
        }
        None
    }

    fn at(&self, index: usize) -> Option<&Arc<Link<H>, Global>>
        ensures { option_copied result ≡ connection_listed_at (get self.now.slots index) }
    {
        match self.slots.get(index) {
            Some(Some(link)) => Some(link),
            _ => None,
        }
    }

    /// Appends the listed connections, from index `first` on and then those before it, except those
    /// of idle lanes. Returns false if memory ran out for one, which is left out.
    pub(crate) fn add_busy(
        &self,
        idle: IdleLanes,
        first: usize,
        busy: &mut Vec<Arc<Link<H>, Global>>,
    ) -> bool
        requires { first ≤ MAX_CONNECTIONS }
        ensures all { result ≡ true →
            map arc_value busy.new.items ≡ map arc_value busy.old.items
            ++ busy_between arc_value idle self.now.slots first MAX_CONNECTIONS
            ++ busy_between arc_value idle self.now.slots 0 first }

        // Only listed connections of busy lanes were appended, even if some are left out.
        ensures adds { AddsBusy idle MAX_CONNECTIONS
            (map arc_value busy.old.items) (map arc_value busy.new.items) }
    {
        let after = self.add_between(idle, first, usize::from(MAX_CONNECTIONS), busy);
        let before = self.add_between(idle, 0, first, busy);
        after && before
    }

    // Appends the connections listed from one index up to another, except those of idle lanes.
    // Returns false if one was left out.
    fn add_between(
        &self,
        idle: IdleLanes,
        first: usize,
        end: usize,
        busy: &mut Vec<Arc<Link<H>, Global>>,
    ) -> bool
        requires { first ≤ end }
        ensures all { result ≡ true →
            map arc_value busy.new.items ≡ map arc_value busy.old.items
            ++ busy_between arc_value idle self.now.slots first end }
        ensures adds { AddsBusy idle (end - first)
            (map arc_value busy.old.items) (map arc_value busy.new.items) }
    {
        let mut all = true;
        for index in first..end {
            all = self.add_at(idle, index, busy) && all;
        }
        all
    }

    // Appends the connection listed at an index, if there is one and its lane is busy. Returns
    // false if memory ran out: then nothing changes.
    fn add_at(&self, idle: IdleLanes, index: usize, busy: &mut Vec<Arc<Link<H>, Global>>) -> bool
        ensures added { result ≡ true →
            map arc_value busy.new.items ≡ map arc_value busy.old.items
            ++ busy_at arc_value idle (connection_listed_at (get self.now.slots index)) }
        ensures left { result ≡ false → busy.new.items ≡ busy.old.items }
    {
        let Some(link) = self.at(index) else {
            return true;
        };
        if idle.has(link.port) {
            return true;
        }
        match Arc::try_clone(link) {
            Ok(link) => busy.push(link).is_ok(),
            Err(_) => false,
        }
    }
}
