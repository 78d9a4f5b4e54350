// Reading a frozen session.

ghost use Rattle.std.specs.Prelude.{◌≡◌, ◌≤◌, [], length, IfOk};
ghost use Rattle.std.specs.List.Sorted.{IsStrictlySortedBy};
ghost use Rattle.std.specs.Ordering.{nat_cmp};
ghost use Rattle.packet_base.specs.Outcome.{Gives, Reads};
ghost use Rattle.packet_base.specs.Readers.{byte_at, number_at, id_at};
ghost use Rattle.session_base.specs.Counted.{counted_items_at, items_after, last_of, AddsItem};
ghost use Rattle.session_base.specs.Form.{is_new_filter, granted_subscription_at, is_above, may_follow, flight_at};
ghost use Rattle.session_base.specs.Form.{anything, was_released, waiting_at};
ghost use Rattle.session_base.specs.SessionForm.{state_at};
ghost use Rattle.session_base.specs.Identifiers.{max_id};
ghost use Rattle.lists.specs.Lists.{has_id};
ghost use Rattle.session_base.specs.Queue.{ids_of};
ghost use Rattle.session_base.specs.OrderTheorems.{IsReleasedFirst};

use crate::entry_packets::waits_for_pubcomp;
use crate::received::Received;
use crate::session::Session;
use crate::session_queue::{SessionQueue, put_last};
use crate::subscriptions::Subscriptions;
use indexmap::IndexMap;
use packet_base::{OUT_OF_MEMORY, PacketId, QoS, Reader, Stop};
use session_base::{
    Awaits, MAX_ENTRIES, MAX_SUBSCRIPTIONS, Publication, check_form, read_flight,
    read_granted_subscription, read_waiting,
};
use std::alloc::Global;
use std::collections::VecDeque;
use topics::Filter;

impl Subscriptions {
    /// Reads the subscriptions: their count, and as many filters, none of them twice.
    #[tactic(auto, unfolding(session_base::specs::Counted::counted_items_at))]
    pub(crate) fn read(alloc: Global, reader: &mut Reader) -> Result<Subscriptions, Stop>
        ensures { Reads (λ value. value) result reader.new
            (counted_items_at byte_at is_new_filter granted_subscription_at MAX_SUBSCRIPTIONS
            reader.old) }
    {
        let count = reader.byte()?;
        check_form(usize::from(count) <= MAX_SUBSCRIPTIONS)?;
        read_filters(alloc, count, reader)
    }

    // Appends a filter; `Shape` if it is there already.
    fn add(&mut self, filter: Filter, qos: QoS) -> Result<(), Stop>
        ensures { AddsItem is_new_filter self.old (filter, qos) result self.new }
    {
        check_form(!self.contains(&filter))?;
        match self.set(filter, qos) {
            Ok(()) => Ok(()),
            Err(_) => Err(OUT_OF_MEMORY),
        }
    }
}

// Reads this many filters with their QoS, none of them twice.
fn read_filters(alloc: Global, count: u8, reader: &mut Reader) -> Result<Subscriptions, Stop>
    ensures { Reads (λ value. value) result reader.new
        (items_after is_new_filter granted_subscription_at count [] reader.old) }
{
    let mut read = Subscriptions::new(alloc);
    for _ in 0..count {
        let (filter, qos) = read_granted_subscription(alloc, reader)?;
        read.add(filter, qos)?;
    }
    Ok(read)
}

impl Received {
    /// Reads the received identifiers: their count, and as many identifiers in ascending order.
    #[tactic(auto, unfolding(session_base::specs::Counted::counted_items_at))]
    pub(crate) fn read(alloc: Global, reader: &mut Reader) -> Result<Received, Stop>
        ensures { Reads (λ value. value) result reader.new
            (counted_items_at number_at is_above id_at max_id reader.old) }
    {
        let count = reader.number()?;
        read_ids(alloc, count, reader)
    }

    // Appends an identifier; `Shape` unless it is above the last one.
    #[tactic(auto, using(crate::proofs::LastIdentifiers::comes_last))]
    fn add(&mut self, id: PacketId) -> Result<(), Stop>
        ensures { AddsItem is_above self.old id result self.new }
    {
        check_form(self.is_above(id))?;
        match self.insert(id) {
            Ok(()) => Ok(()),
            Err(_) => Err(OUT_OF_MEMORY),
        }
    }

    // Returns true if the identifier is above the last one, and so above all.
    #[tactic(auto, using(crate::proofs::LastIdentifiers::above_last))]
    fn is_above(&self, id: PacketId) -> bool
        ensures test { result ≡ is_above self.now id }
        ensures rising { IsStrictlySortedBy nat_cmp self.now }
    {
        // This call shows that the identifiers are ascending.
        let _count = self.ids.len();
        match self.ids.last() {
            Some(last) => *last < id,
            None => true,
        }
    }
}

// Reads this many received identifiers, in ascending order.
fn read_ids(alloc: Global, count: u16, reader: &mut Reader) -> Result<Received, Stop>
    ensures { Reads (λ value. value) result reader.new
        (items_after is_above id_at count [] reader.old) }
{
    let mut read = Received::new(alloc);
    for _ in 0..count {
        let id = reader.id()?;
        read.add(id)?;
    }
    Ok(read)
}

impl Session {
    /// Reads a session. `Shape` if the bytes are not of the form: a filter or an identifier occurs
    /// twice, a part is out of its range, there is a 65th subscription or a 4,097th entry, or more
    /// entries are in flight than the window allows. `Memory` if memory runs out.
    #[tactic(auto, unfolding(session_base::specs::SessionForm::state_at))]
    pub fn read(alloc: Global, window: usize, reader: &mut Reader) -> Result<Session, Stop>
        requires { window ≤ MAX_ENTRIES }
        ensures { Reads (λ value. value) result reader.new (state_at window reader.old) }
    {
        let subscriptions = Subscriptions::read(alloc, reader)?;
        let received = Received::read(alloc, reader)?;
        let in_flight = read_in_flight(alloc, window, reader)?;
        let waiting = read_all_waiting(alloc, MAX_ENTRIES - in_flight.len(), reader)?;
        Ok(Session {
            subscriptions,
            received,
            queue: SessionQueue { in_flight, waiting },
        })
    }
}

// Reads the entries in flight: their count, and as many entries, the released ones first.
#[tactic(auto, using(session_base::proofs::FollowRead::read_first, session_base::proofs::FollowRead::read_few))]
fn read_in_flight(
    alloc: Global,
    window: usize,
    reader: &mut Reader,
) -> Result<IndexMap<PacketId, Awaits>, Stop>
    ensures exact { Reads (λ read. read.entries) result reader.new
        (counted_items_at number_at may_follow flight_at window reader.old) }
    ensures first { IfOk result (λ read. IsReleasedFirst read.entries) }
    ensures few { IfOk result (λ read. length read.entries ≤ window) }
{
    read_counted_flights(alloc, window, reader)
}

// Reads the entries in flight after their count; `Shape` if it is above the window.
#[tactic(auto, unfolding(session_base::specs::Counted::counted_items_at))]
fn read_counted_flights(
    alloc: Global,
    window: usize,
    reader: &mut Reader,
) -> Result<IndexMap<PacketId, Awaits>, Stop>
    ensures { Reads (λ read. read.entries) result reader.new
        (counted_items_at number_at may_follow flight_at window reader.old) }
{
    let count = reader.number()?;
    check_form(usize::from(count) <= window)?;
    read_flights(alloc, count, reader)
}

// Reads this many entries in flight, with distinct identifiers.
fn read_flights(
    alloc: Global,
    count: u16,
    reader: &mut Reader,
) -> Result<IndexMap<PacketId, Awaits>, Stop>
    ensures { Reads (λ read. read.entries) result reader.new
        (items_after may_follow flight_at count [] reader.old) }
{
    let mut read = IndexMap::new(alloc);
    for _ in 0..count {
        let (id, awaits) = read_flight(alloc, reader)?;
        add_flight(&mut read, id, awaits)?;
    }
    Ok(read)
}

// Appends an entry; `Shape` unless it may follow the others.
fn add_flight(
    in_flight: &mut IndexMap<PacketId, Awaits>,
    id: PacketId,
    awaits: Awaits,
) -> Result<(), Stop>
    ensures { AddsItem may_follow in_flight.old.entries (id, awaits) result in_flight.new.entries }
{
    check_form(may_follow(in_flight, id, &awaits))?;
    match put_last(in_flight, id, awaits) {
        Ok(()) => Ok(()),
        Err(_) => Err(OUT_OF_MEMORY),
    }
}

// Returns true if an entry may follow these: its identifier is new, and a released one comes only
// after released ones.
fn may_follow(in_flight: &IndexMap<PacketId, Awaits>, id: PacketId, awaits: &Awaits) -> bool
    ensures { result ≡ may_follow in_flight.now.entries (id, awaits.now) }
{
    !is_in_flight(in_flight, id) && (!waits_for_pubcomp(awaits) || last_is_released(in_flight))
}

fn is_in_flight(in_flight: &IndexMap<PacketId, Awaits>, id: PacketId) -> bool
    ensures { result ≡ has_id id (ids_of in_flight.now.entries) }
{
    in_flight.contains_key(&id)
}

// Returns true if there is no entry, or the last one is released.
#[tactic(auto, using(crate::proofs::LastIdentifiers::last_at))]
fn last_is_released(in_flight: &IndexMap<PacketId, Awaits>) -> bool
    ensures { result ≡ was_released (last_of in_flight.now.entries) }
{
    match in_flight.last() {
        Some((_, awaits)) => waits_for_pubcomp(awaits),
        None => true,
    }
}

// Reads the waiting publications: their count, which is at most `most`, and as many publications.
#[tactic(auto, unfolding(session_base::specs::Counted::counted_items_at))]
fn read_all_waiting(
    alloc: Global,
    most: usize,
    reader: &mut Reader,
) -> Result<VecDeque<Publication>, Stop>
    ensures { Reads (λ read. read.items) result reader.new
        (counted_items_at number_at anything waiting_at most reader.old) }
{
    let count = reader.number()?;
    check_form(usize::from(count) <= most)?;
    read_publications(alloc, count, reader)
}

// Reads this many waiting publications.
fn read_publications(
    alloc: Global,
    count: u16,
    reader: &mut Reader,
) -> Result<VecDeque<Publication>, Stop>
    ensures { Reads (λ read. read.items) result reader.new
        (items_after anything waiting_at count [] reader.old) }
{
    let mut read = VecDeque::new(alloc);
    for _ in 0..count {
        let publication = read_waiting(alloc, reader)?;
        add_waiting(&mut read, publication)?;
    }
    Ok(read)
}

// Appends a waiting publication.
fn add_waiting(waiting: &mut VecDeque<Publication>, publication: Publication) -> Result<(), Stop>
    ensures { AddsItem anything waiting.old.items publication result waiting.new.items }
{
    match waiting.push_back(publication) {
        Ok(()) => Ok(()),
        Err(_) => Err(OUT_OF_MEMORY),
    }
}
