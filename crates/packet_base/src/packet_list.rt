// The lists in packets.

ghost use Rattle.std.specs.Prelude.{
  ◌≡◌,
  ◌+◌,
  ◌≤◌,
  ◌++◌,
  ◌==◌,
  length,
  min,
  vec_len,
  vec_capacity,
  IsOk,
};
ghost use Rattle.std.specs.List.{AllZip, All, flat_map};
ghost use Rattle.std.specs.Cmp.Lexicographic.{pointwise, lists_per, lists_equiv};
ghost use Rattle.packet_base.specs.Outcome.{Gives, IsOutOfMemory};
ghost use Rattle.packet_base.specs.Lists.{items_at, list_of};

use crate::item::ListItem;
use crate::reader::Reader;
use crate::stop::Stop;
use std::alloc::{AllocError, Global};
use std::marker::Model;
use topics::MalformedKind;

/// A list in a packet, such as the filters of a SUBSCRIBE. Its value in contracts is the list of
/// its items. Making it from a vector and getting the vector back take no memory.
#[derive(Debug)]
pub struct PacketList<T> {
    // In the order of their bytes in the packet. The list may be empty.
    items: Vec<T>,
}

impl<T: Drop> Drop for PacketList<T> {
    fn drop(self) {
        let PacketList { items: _items } = self;
    }
}

impl<T> Model for PacketList<T> {
    ghost use Rattle.std.specs.Prelude.{List};

    ghost Value = { List T };

    ghost view = { λ list. list.items.items };
}

impl<T> PacketList<T> {
    /// Returns the list of these items.
    pub fn new(items: Vec<T>) -> PacketList<T>
        ensures { result ≡ items.items }
    {
        PacketList { items }
    }

    /// Returns the items.
    pub fn as_slice(&self) -> &[T]
        ensures { result.now ≡ self.now }
    {
        self.items.as_slice()
    }
}

impl<T: ListItem> PacketList<T> {
    /// Reads items up to the end of the body. An empty list is `Shape` (MQTT 3.8.3, 3.9.3, 3.10.3).
    /// Memory may run out only if the first item has no fault.
    pub fn read(alloc: Global, body: &mut Reader) -> Result<PacketList<T>, Stop>
        ensures exact { Gives (λ value. value) result (list_of T.item_at body.old) }
        ensures memory { IsOutOfMemory result → IsOk (T.item_at body.old) }
    {
        let items = read_items(alloc, body)?;
        if items.is_empty() {
            return Err(Stop::Malformed(MalformedKind::Shape));
        }
        Ok(PacketList { items })
    }

    /// Returns `before` plus the length of the list in bytes, saturating at `usize::MAX`.
    pub fn len_after(&self, before: usize) -> usize
        ensures { result ≡ min (before + length (flat_map T.spelled self.now)) usize.MAX }
    {
        let mut len = before;
        for item in self.as_slice() {
            len = len.saturating_add(item.spelled_len());
        }
        len
    }

    /// Appends the items in order. The caller has reserved the capacity.
    pub fn put(&self, out: &mut Vec<u8>)
        requires { vec_len out.old + length (flat_map T.spelled self.now) ≤ vec_capacity out.old }
        ensures { out.new.items ≡ out.old.items ++ flat_map T.spelled self.now }
    {
        for item in self.as_slice() {
            item.put(out);
        }
    }

    /// Ensures, for a proof, that the items of this list are in their ranges; it does nothing else.
    pub fn ensure_ranges(&self)
        ensures { All T.Fits self.now }
    {
        for item in self.as_slice() {
            item.ensure_ranges();
        }
    }
}

// Reads items up to the end of the body.
#[tactic(auto, using(crate::proofs::ItemsInALoop::began_so))]
fn read_items<T: ListItem>(alloc: Global, body: &mut Reader) -> Result<Vec<T>, Stop>
    ensures exact { Gives (λ read. read.items) result (items_at T.item_at body.old) }
    ensures memory { IsOutOfMemory result → IsOk (T.item_at body.old) }
{
    let mut items = Vec::new(alloc);
    // Each item takes at least one byte, so there are no more items than bytes.
    for _ in 0..body.len() {
        if body.is_empty() {
            return Ok(items);
        }
        items.push(T::read(alloc, body)?)?;
    }
    Ok(items)
}

impl<T: Clone> Clone for PacketList<T> {
    ghost is_clone = { λ list copy. AllZip T.is_clone list copy
        × (((item other : T) → T.is_clone item other → other ≡ item) → copy ≡ list) };

    fn clone(&self) -> Result<PacketList<T>, AllocError> {
        let items = Vec::from_clones(*self.items.allocator(), self.items.as_slice())?;
        Ok(PacketList { items })
    }
}

impl<T: PartialEq> PartialEq for PacketList<T> {
    ghost eq = { pointwise T.eq };

    ghost laws = { lists_per T.laws };

    fn eq(&self, other: &PacketList<T>) -> bool {
        self.items == other.items
    }
}

impl<T: Eq> Eq for PacketList<T> {
    ghost laws = { lists_equiv T.Eq.laws };
}
