// The Packet Identifiers of a client (MQTT 2.3.1).

ghost use Rattle.std.specs.Prelude.{◌≡◌, ◌==◌, filter, not, IfSome, IsSome, IsTrue, ◌↔◌};
ghost use Rattle.std.specs.List.{list_any};
ghost use Rattle.lists.specs.Lists.{has_id};
ghost use Rattle.client_base.specs.State.{id_of_request, used_ids};
ghost use Rattle.client_base.specs.Answered.{awaits_puback, awaits_pubrec};
ghost use Rattle.client_base.specs.Answered.{is_subscribe, is_unsubscribe};
ghost use Rattle.session_base.specs.Identifiers.{without_id};
ghost use Rattle.client_base.specs.Publications.{next_id, has_free_id};

use crate::client_core::ClientCore;
use client_base::{Request, UnacknowledgedPublication};
use packet_base::{PacketId, QoS};
use session_base::least_identifier_is_free;

impl ClientCore {
    /// Returns the least identifier that no publication and no request uses; `None` if all 65,535
    /// are in use.
    pub(crate) fn free_id(&self) -> Option<PacketId>
        ensures least { IfSome result (λ id. id ≡ next_id self.now.state) }
        ensures found { IsSome result ↔ IsTrue (has_free_id self.now.state) }
    {
        least_identifier_is_free();
        for number in 1..u16::MAX {
            let id = PacketId::new(number);
            if !self.is_used(id) {
                return Some(id);
            }
        }
        let last = PacketId::new(u16::MAX);
        if self.is_used(last) { None } else { Some(last) }
    }

    // Returns true if a publication or a request uses this identifier.
    #[tactic(auto, using(crate::proofs::Used::used_in_parts))]
    fn is_used(&self, id: PacketId) -> bool
        ensures { result ≡ has_id id (used_ids self.now.state) }
    {
        has_id(&self.released, id)
            || is_kept(&self.sent, id)
            || is_kept(&self.queued, id)
            || is_asked(&self.requests, id)
    }
}

/// Returns true if the identifier is among these.
pub(crate) fn has_id(ids: &[PacketId], id: PacketId) -> bool
    ensures { result ≡ has_id id ids.now }
{
    ids.iter().any(|other| id == *other)
}

// Returns true if one of these publications uses it.
fn is_kept(kept: &[UnacknowledgedPublication], id: PacketId) -> bool
    ensures { result ≡ list_any (λ one. id == one.id) kept.now }
{
    kept.iter().any(|one| id == one.id)
}

// Returns true if one of these requests uses it.
fn is_asked(requests: &[Request], id: PacketId) -> bool
    ensures { result ≡ list_any (λ one. id == id_of_request one) requests.now }
{
    requests.iter().any(|request| id == id_of(*request))
}

fn id_of(request: Request) -> PacketId
    ensures { result ≡ id_of_request request }
{
    match request {
        Request::Subscribes(id) => id,
        Request::Unsubscribes(id) => id,
    }
}

/// Removes every occurrence of an identifier.
pub(crate) fn forget(ids: &mut Vec<PacketId>, id: PacketId)
    ensures { ids.new.items ≡ without_id id ids.old.items }
{
    ids.retain(|other| id != *other);
}

// Returns true if PUBACK with this identifier ends the publication.
fn awaits_puback(id: PacketId, kept: &UnacknowledgedPublication) -> bool
    ensures { result ≡ awaits_puback id kept.now }
{
    id == kept.id && kept.publication.qos == QoS::AtLeastOnce
}

/// Returns true if PUBREC with this identifier releases the publication.
pub(crate) fn awaits_pubrec(id: PacketId, kept: &UnacknowledgedPublication) -> bool
    ensures { result ≡ awaits_pubrec id kept.now }
{
    id == kept.id && kept.publication.qos != QoS::AtLeastOnce
}

// Returns true if SUBACK with this identifier answers the request.
fn is_subscribe(id: PacketId, request: Request) -> bool
    ensures { result ≡ is_subscribe id request }
{
    match request {
        Request::Subscribes(other) => id == other,
        Request::Unsubscribes(_) => false,
    }
}

// Returns true if UNSUBACK with this identifier answers the request.
fn is_unsubscribe(id: PacketId, request: Request) -> bool
    ensures { result ≡ is_unsubscribe id request }
{
    match request {
        Request::Subscribes(_) => false,
        Request::Unsubscribes(other) => id == other,
    }
}

/// Returns true if PUBREC with this identifier releases one of these.
pub(crate) fn has_unreleased(kept: &[UnacknowledgedPublication], id: PacketId) -> bool
    ensures { result ≡ list_any (awaits_pubrec id) kept.now }
{
    kept.iter().any(|one| awaits_pubrec(id, one))
}

/// Removes what PUBACK with this identifier ends.
pub(crate) fn end_acknowledged(kept: &mut Vec<UnacknowledgedPublication>, id: PacketId)
    ensures { kept.new.items ≡ filter (λ one. not (awaits_puback id one)) kept.old.items }
{
    kept.retain(|one| !awaits_puback(id, one));
}

/// Removes what PUBREC with this identifier releases.
pub(crate) fn take_released(kept: &mut Vec<UnacknowledgedPublication>, id: PacketId)
    ensures { kept.new.items ≡ filter (λ one. not (awaits_pubrec id one)) kept.old.items }
{
    kept.retain(|one| !awaits_pubrec(id, one));
}

/// Removes what SUBACK with this identifier answers.
pub(crate) fn end_subscribes(requests: &mut Vec<Request>, id: PacketId)
    ensures { requests.new.items ≡ filter (λ one. not (is_subscribe id one)) requests.old.items }
{
    requests.retain(|one| !is_subscribe(id, *one));
}

/// Removes what UNSUBACK with this identifier answers.
pub(crate) fn end_unsubscribes(requests: &mut Vec<Request>, id: PacketId)
    ensures { requests.new.items ≡ filter (λ one. not (is_unsubscribe id one)) requests.old.items }
{
    requests.retain(|one| !is_unsubscribe(id, *one));
}
