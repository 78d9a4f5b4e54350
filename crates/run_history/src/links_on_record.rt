// What links bring, with what is known of the log.
//
// Links are of other programs, and so is the master: its word counts here what they bring. The
// invariant: by the prefix of the log that is known, they brought as many messages as were counted.

ghost use Rattle.std.specs.Prelude.{◌≡◌, true};
ghost use Rattle.ballot_base.specs.StepOutcome.{master};
ghost use Rattle.run_history.specs.Brought.{HasBrought};
ghost use Rattle.run_history.specs.Log.{events_by};
ghost use Rattle.run_history.specs.Rules.{word_of};

use crate::event::RunEvent;
use crate::naming::RunNaming;
use crate::node_on_record::EVENT_LIMIT;
use crate::rule::RunRule;
use crate::seen_run::SeenRun;
use crate::sent_message::SentMessage;
use crate::told;
use crate::told::Told;
use crate::waiting::wait_unless_below;
use ballot_base::Message;
use broker_spec::Command;
use logbook::Word;
use std::marker::Model;
use std::snapshot::Snapshot;
use std::sync::Wait;

/// The links of a program's nodes to other programs: what they bring is on record. Contracts see
/// the prefix of the log that is known.
#[derive(Drop)]
pub struct LinksOnRecord<H: RunNaming> {
    word: Word<RunEvent, u64, RunRule>,
    // How many messages were brought; the word has the same number.
    count: u64,
    seen: SeenRun<H>,
}

impl<H: RunNaming> Model for LinksOnRecord<H> {
    ghost use Rattle.std.specs.Prelude.{◌≡◌, List, true};
    ghost use Rattle.ballot_base.specs.StepOutcome.{master};
    ghost use Rattle.run_history.specs.declared.event.RunEvent.{RunEvent};
    ghost use Rattle.run_history.specs.Log.{events_by};
    ghost use Rattle.run_history.specs.Rules.{word_of};

    ghost Value = { List RunEvent };

    ghost view = { λ links. links.seen };

    ghost invariant = { λ links. (links.word ≡ word_of H.book 0)
        × (events_by master links.seen ≡ links.count) × (H.linked ≡ true) };
}

impl<H: RunNaming> LinksOnRecord<H> {
    /// Returns the links, which have brought nothing yet.
    pub(crate) fn new(word: Word<RunEvent, u64, RunRule>, seen: SeenRun<H>) -> LinksOnRecord<H>
        requires word { word ≡ word_of H.book 0 }
        requires none { events_by master seen ≡ 0 }
        requires linked { H.linked ≡ true }
        ensures { result ≡ seen }
    {
        LinksOnRecord {
            word,
            count: 0,
            seen,
        }
    }

    /// Puts a message on record that a link brought for the node of this number, as the next event
    /// of the run.
    pub fn bring<R: Wait>(
        &mut self,
        rt: &R,
        receiver: u8,
        message: Message<Command>,
    ) -> SentMessage<H>
        ensures message { result ≡ record { receiver = receiver; message = message } }
        ensures brought { HasBrought self.old receiver message self.new }
    {
        wait_unless_below(rt, self.count, EVENT_LIMIT);
        let told = Told::Brought(told::Brought {
            receiver,
            message: Snapshot::of(&message),
        });
        let mut seen = self.seen.again();
        seen.add_or_wait(rt, &self.word, self.count, &told);
        let sent = SentMessage::new(receiver, message, seen.again());
        self.count += 1;
        self.seen = seen;
        sent
    }
}
