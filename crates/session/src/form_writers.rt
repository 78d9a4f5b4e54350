// Writing a session to bytes.

ghost use Rattle.std.specs.Prelude.{◌≡◌, ◌≤◌, ◌++◌, length, OnOk};
ghost use Rattle.std.specs.List.{flat_map, AllByRecursion};
ghost use Rattle.packet_base.specs.Spelling.{number};
ghost use Rattle.session_base.specs.Counted.{counted_bytes};
ghost use Rattle.session_base.specs.Form.{one_byte, granted_subscription_bytes, flight_bytes, publication_bytes};
ghost use Rattle.session_base.specs.Form.{state_bytes, HasLength, IsWritable};
ghost use Rattle.session_base.specs.FormTheorems.{HasForm};
ghost use Rattle.session_base.specs.Identifiers.{max_id};
ghost use Rattle.session.specs.Inside.{AreWritable};

use crate::received::Received;
use crate::session::Session;
use crate::session_queue::SessionQueue;
use crate::subscriptions::Subscriptions;
use packet_base::PacketId;
use session_base::{
    Awaits, MAX_ENTRIES, MAX_SUBSCRIPTIONS, Publication, write_flight, write_granted_subscription,
    write_number, write_publication,
};
use std::alloc::AllocError;

impl Session {
    /// Appends the session's bytes. Requires that the session has a form: it is within its limits,
    /// and each part is in its range. If memory runs out, a part of the bytes may have been
    /// appended.
    pub fn write(&self, bytes: &mut Vec<u8>) -> Result<(), AllocError>
        requires { HasForm self.now }
        ensures { OnOk result (bytes.new.items ≡ bytes.old.items ++ state_bytes self.now) }
    {
        self.subscriptions.write(bytes)?;
        self.received.write(bytes)?;
        self.queue.write(bytes)
    }
}

impl Subscriptions {
    /// Appends the number of subscriptions, and each of them.
    pub(crate) fn write(&self, bytes: &mut Vec<u8>) -> Result<(), AllocError>
        requires { length self.now ≤ MAX_SUBSCRIPTIONS }
        ensures { OnOk result
            (bytes.new.items ≡ bytes.old.items
            ++ counted_bytes one_byte granted_subscription_bytes self.now) }
    {
        bytes.push(self.filters.len() as u8)?;
        self.write_each(bytes)
    }

    // Appends each filter with its QoS, without their count.
    fn write_each(&self, bytes: &mut Vec<u8>) -> Result<(), AllocError>
        ensures { OnOk result
            (bytes.new.items ≡ bytes.old.items ++ flat_map granted_subscription_bytes self.now) }
    {
        for (filter, qos) in &self.filters {
            write_granted_subscription(filter, *qos, bytes)?;
        }
        Ok(())
    }
}

impl Received {
    /// Appends the number of received identifiers, and each of them.
    pub(crate) fn write(&self, bytes: &mut Vec<u8>) -> Result<(), AllocError>
        requires { length self.now ≤ max_id }
        ensures { OnOk result
            (bytes.new.items ≡ bytes.old.items ++ counted_bytes number number self.now) }
    {
        write_number(self.ids.len() as u16, bytes)?;
        self.write_each(bytes)
    }

    // Appends each identifier, without their count.
    fn write_each(&self, bytes: &mut Vec<u8>) -> Result<(), AllocError>
        ensures { OnOk result (bytes.new.items ≡ bytes.old.items ++ flat_map number self.now) }
    {
        for id in &self.ids {
            write_number(id.number(), bytes)?;
        }
        Ok(())
    }
}

impl SessionQueue {
    /// Appends the entries in flight and the waiting publications, each list after its count.
    pub(crate) fn write(&self, bytes: &mut Vec<u8>) -> Result<(), AllocError>
        requires few { length self.now.in_flight ≤ MAX_ENTRIES }
        requires fewer { length self.now.waiting ≤ MAX_ENTRIES }
        requires flights { AllByRecursion AreWritable self.now.in_flight }
        requires waiting { AllByRecursion HasLength self.now.waiting }
        ensures { OnOk result
            (bytes.new.items
            ≡ bytes.old.items
            ++ (counted_bytes number flight_bytes self.now.in_flight
            ++ counted_bytes number publication_bytes self.now.waiting)) }
    {
        write_number(self.in_flight.len() as u16, bytes)?;
        self.write_flights(bytes)?;
        write_number(self.waiting.len() as u16, bytes)?;
        self.write_waiting(bytes)
    }

    // Appends the entries in flight, without their count.
    fn write_flights(&self, bytes: &mut Vec<u8>) -> Result<(), AllocError>
        requires { AllByRecursion AreWritable self.now.in_flight }
        ensures { OnOk result
            (bytes.new.items ≡ bytes.old.items ++ flat_map flight_bytes self.now.in_flight) }
    {
        for (id, awaits) in &self.in_flight {
            write_flight(*id, awaits, bytes)?;
        }
        Ok(())
    }

    // Appends the waiting publications, without their count.
    fn write_waiting(&self, bytes: &mut Vec<u8>) -> Result<(), AllocError>
        requires { AllByRecursion HasLength self.now.waiting }
        ensures { OnOk result
            (bytes.new.items ≡ bytes.old.items ++ flat_map publication_bytes self.now.waiting) }
    {
        for index in 0..self.waiting.len() {
            if let Some(publication) = self.waiting.get(index) {
                write_publication(publication, bytes)?;
            }
        }
        Ok(())
    }
}
