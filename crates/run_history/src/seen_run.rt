// A prefix of the log that somebody has seen.
//
// It is that of a run by its type, and takes no bytes, so it may be copied and sent along
// with any message. What it says stays true: the log only grows.

ghost use Rattle.std.specs.Prelude.{◌≡◌, ◌+◌, ◌^◌, ◌<◌, ◌≤◌, true, false};
ghost use mathlib.Core.List.{IsPrefix};
ghost use Rattle.run_history.specs.History.{IsHistory};
ghost use Rattle.run_history.specs.Linked.{IsRun};
ghost use Rattle.run_history.specs.Log.{events_by, party_of};
ghost use Rattle.run_history.specs.Rules.{Added, MayAdd, word_of};
ghost use Rattle.run_history.specs.ToldEvents.{event_of};

use crate::event::RunEvent;
use crate::naming::RunNaming;
use crate::rule::{Add, Look, NoGain, RunRule};
use crate::run_log::RunLog;
use crate::told::Told;
use crate::waiting::wait_for_ever;
use logbook::{Offer, Seen, Word};
use std::marker::{Model, PhantomData};
use std::sync::Wait;

/// A prefix of the log that was seen; contracts see it as its events.
#[derive(Drop)]
pub struct SeenRun<H: RunNaming> {
    seen: Seen<RunEvent, u64, RunRule>,
    of: PhantomData<H>,
}

impl<H: RunNaming> Model for SeenRun<H> {
    ghost use Rattle.std.specs.Prelude.{◌≡◌, List};
    ghost use Rattle.run_history.specs.declared.event.RunEvent.{RunEvent};
    ghost use Rattle.run_history.specs.Linked.{IsRun};

    ghost Value = { List RunEvent };

    ghost view = { λ run. run.seen.log };

    ghost invariant = { λ run.
        (run.seen.book ≡ H.book) × IsRun H.linked H.nodes H.config run.seen.log };
}

impl<H: RunNaming> SeenRun<H> {
    /// Returns what was seen of the log of this name.
    pub(crate) fn new(seen: Seen<RunEvent, u64, RunRule>) -> SeenRun<H>
        requires book { seen.book ≡ H.book }
        requires run { IsRun H.linked H.nodes H.config seen.log }
        ensures { result ≡ seen.log }
    {
        SeenRun {
            seen,
            of: PhantomData,
        }
    }

    /// Returns a copy.
    pub fn again(&self) -> SeenRun<H>
        ensures { result ≡ self.now }
    {
        SeenRun {
            seen: self.seen.again(),
            of: PhantomData,
        }
    }

    /// Extends the prefix to one that has all events of both.
    pub fn learn(&mut self, other: &SeenRun<H>)
        ensures this { IsPrefix self.old self.new }
        ensures that { IsPrefix other.now self.new }
    {
        self.seen.learn(&other.seen);
    }

    /// Returns the same events without the name of the run.
    pub fn into_log(self) -> RunLog
        ensures { result ≡ self }
    {
        let SeenRun { seen, of: _of } = self;
        RunLog::new(seen)
    }

    /// Proves that the events are those of a run.
    pub fn is_run(&self)
        ensures { IsRun H.linked H.nodes H.config self.now }
    {
        let _seen = &self.seen;
    }

    /// Proves that the events are a run of the model, if all nodes are in this program.
    pub fn is_history(&self)
        requires { H.linked ≡ false }
        ensures { IsHistory H.nodes H.config self.now }
    {
        self.is_run();
    }

    /// Extends the prefix to the whole log, and returns how many events of this word's party it
    /// has.
    pub(crate) fn look(&mut self, word: &Word<RunEvent, u64, RunRule>) -> u64
        requires word { word.now ≡ word_of H.book word.now.key }
        requires party { word.now.key ≤ H.nodes }
        ensures seen { IsPrefix self.old self.new }
        ensures count { events_by word.now.key self.new ≡ result }
    {
        let mut offer: Offer<RunEvent, u64, RunRule, NoGain> = self
            .seen
            .plain::<NoGain, (), Look>(&());
        word.load::<Look, NoGain>(&mut self.seen, &mut offer)
    }

    /// Adds an event to the log, and returns true, if the log has as many events of its party as
    /// was thought.
    pub(crate) fn add(
        &mut self,
        word: &Word<RunEvent, u64, RunRule>,
        count: u64,
        told: &Told,
    ) -> bool
        requires word { word.now ≡ word_of H.book (party_of (event_of told.now)) }
        requires room { count + 1 < 2 ^ 64 }
        requires may { MayAdd H.nodes H.config H.linked self.old count (event_of told.now) }
        ensures seen { IsPrefix self.old self.new }
        ensures added { result ≡ true → Added self.old count (event_of told.now) self.new }
    {
        let mut offer: Offer<RunEvent, u64, RunRule, NoGain> = self
            .seen
            .plain::<NoGain, Told, Add>(told);
        let mut pen = self.seen.no_pen();
        let found = word.compare_exchange::<Add, NoGain>(
            count,
            count + 1,
            &mut self.seen,
            &mut offer,
            &mut pen,
        );
        found == count
    }

    /// Adds an event to the log. Waits for ever if the log has other events of its party than was
    /// thought, which does not occur while each word has one owner.
    pub(crate) fn add_or_wait<R: Wait>(
        &mut self,
        rt: &R,
        word: &Word<RunEvent, u64, RunRule>,
        count: u64,
        told: &Told,
    )
        requires word { word.now ≡ word_of H.book (party_of (event_of told.now)) }
        requires room { count + 1 < 2 ^ 64 }
        requires may { MayAdd H.nodes H.config H.linked self.old count (event_of told.now) }
        ensures { Added self.old count (event_of told.now) self.new }
    {
        if !self.add(word, count, told) {
            wait_for_ever(rt);
        }
    }
}
