// The items of lists in packets.

ghost use Rattle.std.specs.Prelude.{
  ◌≡◌,
  ◌+◌,
  ◌≤◌,
  ◌++◌,
  ℕ,
  List,
  length,
  vec_len,
  vec_capacity,
  IsOk,
};
ghost use Rattle.packet_base.specs.Outcome.{Reads, IsOutOfMemory};
ghost use Rattle.packet_base.specs.Lists.{ItemAt};

use crate::field_writers::put_text;
use crate::reader::Reader;
use crate::stop::Stop;
use std::alloc::Global;
use topics::Filter;

/// An item of a list that fills the rest of a body, such as a filter of an UNSUBSCRIBE (MQTT 3.8.3,
/// 3.9.3, 3.10.3). Each is read and written on its own, and takes at least one byte.
pub trait ListItem: Drop {
    // The bytes of an item, how one is read from the front of bytes, and the range in which each
    // item of a program is.
    ghost spelled: { Self → List ℕ };

    ghost item_at: { ItemAt Self };

    ghost Fits: { Self → Type 0 };

    /// Reads one item.
    fn read(alloc: Global, body: &mut Reader) -> Result<Self, Stop>
        ensures exact { Reads (λ value. value) result body.new (item_at body.old) }

        // Memory may run out only for an item without a fault.
        ensures memory { IsOutOfMemory result → IsOk (item_at body.old) };

    /// Returns how many bytes the item takes.
    fn spelled_len(&self) -> usize
        ensures { result ≡ length (spelled self.now) };

    /// Appends the item. The caller has reserved the capacity.
    fn put(&self, out: &mut Vec<u8>)
        requires { vec_len out.old + length (spelled self.now) ≤ vec_capacity out.old }
        ensures items { out.new.items ≡ out.old.items ++ spelled self.now }
        ensures len { vec_len out.new ≡ vec_len out.old + length (spelled self.now) }
        ensures capacity { vec_capacity out.old ≤ vec_capacity out.new };

    /// Ensures, for a proof, that this item is in its range; it does nothing else.
    fn ensure_ranges(&self)
        ensures { Fits self.now };
}

impl ListItem for Filter {
    ghost use Rattle.std.specs.Prelude.{IsTrue};
    ghost use Rattle.topics.specs.Text.{is_filter};
    ghost use Rattle.packet_base.specs.Spelling.{text};
    ghost use Rattle.packet_base.specs.TopicFields.{filter_at};

    ghost spelled = { text };

    ghost item_at = { filter_at };

    ghost Fits = { λ filter. IsTrue (is_filter filter) };

    fn read(alloc: Global, body: &mut Reader) -> Result<Filter, Stop> {
        body.filter(alloc)
    }

    fn spelled_len(&self) -> usize {
        2 + self.as_str().len()
    }

    fn put(&self, out: &mut Vec<u8>) {
        put_text(out, self.as_str());
    }

    fn ensure_ranges(&self) {
        let _text = self.as_str();
    }
}
