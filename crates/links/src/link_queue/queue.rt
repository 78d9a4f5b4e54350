// What waits for a link.
//
// A queue has the messages that a node's steps gave for one other node, the oldest first. Only the
// newest may be replaced, so the order of what waits never changes. A log is sent again at each
// tick until it is answered, and is large: while one waits or is in transit, another of its kind
// and ballot is dropped. What is dropped is counted; the protocol repeats it. A log that was taken
// is in transit until `sent` names it, or `forget` says that the connection broke; one that waits
// keeps its name, whatever is said. The bounds are for what waits: what was taken is its taker's.

ghost use Rattle.std.specs.Prelude.{◌≡◌, ◌≢◌, ◌↔◌, ◌+◌, ◌++◌, ◌≤◌, ◌&&◌, [], ◌∷◌, true, false, nat_lt, nat_le, length, filter, None};
ghost use Rattle.std.specs.Prelude.{vec_len, vec_capacity};
ghost use Rattle.links.specs.link_queue.Logs.{is_named, is_same, log_name};
ghost use Rattle.links.specs.link_queue.Queues.{HasRoom, bytes_of, covers_newest, fate_of, fits, has_name};
ghost use Rattle.links.specs.link_queue.Queues.{has_waiting, is_repeated, stays, still_waiting};
ghost use Rattle.links.specs.link_queue.Queues.{with_log, with_message, without_message};

use crate::link_queue::cover::covers;
use crate::link_queue::logs::{LogName, is_named, is_same, log_name};
use ballot_base::{Message, counted};
use std::alloc::Global;
use std::marker::Model;
use std::mem;

/// The most messages that wait.
pub const MAX_WAITING: usize = 524_288;

/// The most bytes of payloads that wait: 128 MiB.
pub const MAX_BYTES: usize = 134_217_728;

/// A message that waits.
#[derive(Drop)]
pub struct Waiting<C> {
    /// The message.
    pub message: Message<C>,
    /// The bytes of its payload.
    pub size: usize,
}

/// What becomes of a message.
#[derive(Clone, Copy, Debug, PartialEq, Eq)]
pub enum Fate {
    /// It waits.
    Queued,
    /// It was dropped: a log of its kind and ballot waits or is in transit.
    Repeated,
    /// It was dropped: too much waits.
    Full,
    /// It was dropped: memory ran out.
    Memory,
}

/// The messages that wait for a link, in the order in which they were queued.
#[derive(Drop)]
pub struct LinkQueue<C> {
    // Oldest first.
    waiting: Vec<Waiting<C>>,
    // The bytes of payloads that wait.
    bytes: usize,
    // The logs that wait, or were taken and have not left.
    logs: Vec<LogName>,
    dropped: u64,
}

impl<C> Model for LinkQueue<C> {
    ghost use Rattle.std.specs.Prelude.{◌≡◌};
    ghost use Rattle.links.specs.link_queue.Queues.{QueueView, IsBounded, bytes_of};

    ghost Value = { QueueView C };

    ghost view = { λ queue. record {
      waiting = queue.waiting.items;
      logs = queue.logs.items;
      dropped = queue.dropped;
    } };

    ghost invariant = { λ queue.
        (queue.bytes ≡ bytes_of queue.waiting.items) × IsBounded queue.waiting.items };
}

impl<C: Drop> LinkQueue<C> {
    /// Returns an empty queue.
    pub fn new(alloc: Global) -> Self
        ensures { result ≡ record { waiting = []; logs = []; dropped = 0 } }
    {
        LinkQueue {
            waiting: Vec::new(alloc),
            bytes: 0,
            logs: Vec::new(alloc),
            dropped: 0,
        }
    }

    /// Returns how many messages wait, at most [`MAX_WAITING`].
    pub fn len(&self) -> usize
        ensures value { result ≡ length self.now.waiting }
        ensures bounded { result ≤ 524288 }
    {
        self.waiting.len()
    }

    /// Returns true if nothing waits.
    pub fn is_empty(&self) -> bool
        ensures { (result ≡ true) ↔ (self.now.waiting ≡ []) }
    {
        self.waiting.is_empty()
    }

    /// Returns how many bytes of payloads wait, at most [`MAX_BYTES`].
    pub fn bytes(&self) -> usize
        ensures value { result ≡ bytes_of self.now.waiting }
        ensures bounded { result ≤ 134217728 }
    {
        self.bytes
    }

    /// Returns how many messages were dropped (saturates at 2^64 - 1).
    pub fn dropped(&self) -> u64
        ensures { result ≡ self.now.dropped }
    {
        self.dropped
    }

    /// Queues a message whose payload has `size` bytes after all that waits, or in place of the
    /// newest if it covers that one, which takes no memory. Drops and counts it if its log waits or
    /// is in transit, if it would exceed a bound, or if memory runs out.
    pub fn queue(&mut self, message: Message<C>, size: usize) -> Fate
        ensures fate { result ≢ Fate.Memory → result ≡ fate_of self.old message size }
        ensures memory { result ≡ Fate.Memory → fate_of self.old message size ≡ Fate.Queued }
        ensures grows { result ≡ Fate.Memory → covers_newest message self.old.waiting ≡ false }
        ensures queued { result ≡ Fate.Queued → self.new ≡ with_message self.old message size }
        ensures lost { result ≢ Fate.Queued → self.new ≡ without_message self.old }
    {
        match self.fate_of(&message, size) {
            Fate::Queued => {
                if self.push(message, size) {
                    return Fate::Queued;
                }
                self.lose();
                Fate::Memory
            }
            Fate::Repeated => {
                self.lose();
                Fate::Repeated
            }
            Fate::Full => {
                self.lose();
                Fate::Full
            }
            Fate::Memory => unreachable!(),
        }
    }

    // Counts a message that is dropped.
    fn lose(&mut self)
        ensures { self.new ≡ without_message self.old }
    {
        self.dropped = counted(self.dropped, false);
    }

    // Returns what becomes of a message, if there is memory.
    fn fate_of(&self, message: &Message<C>, size: usize) -> Fate
        ensures value { result ≡ fate_of self.now message.now size }
        ensures known { result ≢ Fate.Memory }
    {
        if self.is_repeated(message) {
            return Fate::Repeated;
        }
        if fits(kept(message, &self.waiting, self.bytes), size) {
            return Fate::Queued;
        }
        Fate::Full
    }

    // Returns true if the log of a message waits or is in transit.
    fn is_repeated(&self, message: &Message<C>) -> bool
        ensures { result ≡ is_repeated self.now message.now }
    {
        match log_name(message) {
            Some(name) => has_name(name, &self.logs),
            None => false,
        }
    }

    // Queues a message that is within the bounds. Returns false if memory runs out: then nothing
    // has changed.
    #[tactic(auto, using(crate::proofs::of_link_queue::Kept::nothing_grows))]
    fn push(&mut self, message: Message<C>, size: usize) -> bool
        requires { fits (still_waiting message self.old.waiting) size ≡ true }
        ensures queued { result ≡ true → self.new ≡ with_message self.old message size }
        ensures lost { result ≡ false → self.new ≡ self.old }
        ensures grows { result ≡ false → covers_newest message self.old.waiting ≡ false }
    {
        let (_, bytes) = kept(&message, &self.waiting, self.bytes);
        let name = log_name(&message);
        if !reserve_log(&mut self.logs, name) {
            return false;
        }
        if !push_covering(&mut self.waiting, Waiting { message, size }) {
            return false;
        }
        put_log(&mut self.logs, name);
        self.bytes = bytes + size;
        true
    }

    /// Takes all that waits, in order. Its logs are in transit from then on.
    pub fn take(&mut self, alloc: Global) -> Vec<Waiting<C>>
        ensures all { result.items ≡ self.old.waiting }
        ensures empty { self.new ≡ record self.old { waiting = [] } }
    {
        self.bytes = 0;
        mem::replace(&mut self.waiting, Vec::new(alloc))
    }

    /// Lets a log of this name be queued again: it has left. One that waits stays.
    pub fn sent(&mut self, name: LogName)
        ensures { self.new ≡ record self.old {
          logs = filter (λ other. stays self.old.waiting name other) self.old.logs;
        } }
    {
        drop_name(&mut self.logs, name, &self.waiting);
    }

    /// Lets all logs be queued again that do not wait: the connection broke.
    pub fn forget(&mut self)
        ensures { self.new ≡ record self.old {
          logs = filter (λ name. has_waiting self.old.waiting name) self.old.logs;
        } }
    {
        keep_waiting(&mut self.logs, &self.waiting);
    }

    /// Empties the queue: another life of the node answers.
    pub fn clear(&mut self)
        ensures { self.new ≡ record self.old { waiting = []; logs = [] } }
    {
        self.waiting.clear();
        self.bytes = 0;
        self.logs.clear();
    }
}

fn has_name(name: LogName, logs: &[LogName]) -> bool
    ensures { result ≡ has_name name logs.now }
{
    logs.iter().any(|other| is_same(name, *other))
}

fn has_waiting<C>(waiting: &[Waiting<C>], name: LogName) -> bool
    ensures { result ≡ has_waiting waiting.now name }
{
    waiting.iter().any(|each| is_named(name, &each.message))
}

// Drops a name, unless its log waits.
fn drop_name<C>(logs: &mut Vec<LogName>, name: LogName, waiting: &[Waiting<C>])
    ensures { logs.new.items ≡ filter (λ other. stays waiting.now name other) logs.old.items }
{
    logs.retain(|other| stays(waiting, name, *other));
}

// Returns true if another log is there after those of this name have left.
fn stays<C>(waiting: &[Waiting<C>], name: LogName, other: LogName) -> bool
    ensures { result ≡ stays waiting.now name other }
{
    !is_same(name, other) || has_waiting(waiting, other)
}

// Drops the names of logs that do not wait.
fn keep_waiting<C>(logs: &mut Vec<LogName>, waiting: &[Waiting<C>])
    ensures { logs.new.items ≡ filter (λ name. has_waiting waiting.now name) logs.old.items }
{
    logs.retain(|name| has_waiting(waiting, *name));
}

// Makes room for the name of a log, if there is one. Returns false if memory runs out.
fn reserve_log(logs: &mut Vec<LogName>, name: Option<LogName>) -> bool
    ensures room { result ≡ true → HasRoom name (vec_len logs.new) (vec_capacity logs.new) }
    ensures same { logs.new.items ≡ logs.old.items }
    ensures none { name ≡ None → result ≡ true }
{
    match name {
        Some(_) => logs.reserve(1).is_ok(),
        None => true,
    }
}

// Adds the name of a log, if there is one.
fn put_log(logs: &mut Vec<LogName>, name: Option<LogName>)
    requires { HasRoom name (vec_len logs.old) (vec_capacity logs.old) }
    ensures { logs.new.items ≡ with_log logs.old.items name }
{
    if let Some(name) = name {
        logs.push_reserved(name);
    }
}

// Returns how many messages, and how many bytes of them, still wait when a message is queued.
fn kept<C>(message: &Message<C>, waiting: &[Waiting<C>], bytes: usize) -> (usize, usize)
    requires { bytes ≡ bytes_of waiting.now }
    ensures messages { result.0 ≡ length (still_waiting message.now waiting.now) }
    ensures bytes { result.1 ≡ bytes_of (still_waiting message.now waiting.now) }
{
    if is_newest_covered(message, waiting) {
        let newest = &waiting[waiting.len() - 1];
        return (waiting.len() - 1, bytes - newest.size);
    }
    (waiting.len(), bytes)
}

// Returns true if one more message of `size` bytes is within the bounds.
fn fits(kept: (usize, usize), size: usize) -> bool
    ensures { result ≡ (nat_lt kept.0 524288 && nat_le (kept.1 + size) 134217728) }
{
    kept.0 < MAX_WAITING && kept.1 <= MAX_BYTES && size <= MAX_BYTES - kept.1
}

// Returns true if the newest message is covered by this one.
fn is_newest_covered<C>(message: &Message<C>, waiting: &[Waiting<C>]) -> bool
    ensures { result ≡ covers_newest message.now waiting.now }
{
    match waiting.last() {
        Some(newest) => covers(message, &newest.message),
        None => false,
    }
}

// Appends a message, in place of the newest if that is covered. Returns false if memory runs out:
// then nothing has changed.
fn push_covering<C: Drop>(waiting: &mut Vec<Waiting<C>>, added: Waiting<C>) -> bool
    ensures queued { result ≡ true → waiting.new.items
        ≡ still_waiting added.message waiting.old.items ++ added ∷ [] }
    ensures lost { result ≡ false → waiting.new.items ≡ waiting.old.items }
    ensures grows { result ≡ false → covers_newest added.message waiting.old.items ≡ false }
{
    if is_newest_covered(&added.message, waiting) {
        let newest = waiting.len() - 1;
        waiting[newest] = added;
        return true;
    }
    waiting.push(added).is_ok()
}
