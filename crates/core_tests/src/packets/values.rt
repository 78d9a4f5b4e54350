// Texts, and what packets have in them: how it is printed and ordered.

use crate::told::is_told;
use packet::{ClientId, Delivery, QoS};
use packet_base::PacketId;
use std::alloc::Global;
use std::cmp::Ordering;
use topics::{Filter, Text, TopicName};

// Each returns true if the first of two texts is printed as it is, and comes before the other one,
// by their bytes.

fn are_texts_ordered(alloc: Global, first: &str, later: &str) -> bool {
    match (&Text::new(alloc, first), &Text::new(alloc, later)) {
        (Ok(one), Ok(other)) => *one < *other && is_told(alloc, one, first),
        _ => false,
    }
}

fn are_names_ordered(alloc: Global, first: &str, later: &str) -> bool {
    match (&TopicName::new(alloc, first), &TopicName::new(alloc, later)) {
        (Ok(one), Ok(other)) => *one < *other && *one != *other && is_told(alloc, one, first),
        _ => false,
    }
}

fn are_filters_ordered(alloc: Global, first: &str, later: &str) -> bool {
    match (&Filter::new(alloc, first), &Filter::new(alloc, later)) {
        (Ok(one), Ok(other)) => *one < *other && *one != *other && is_told(alloc, one, first),
        _ => false,
    }
}

fn are_clients_ordered(alloc: Global, first: &str, later: &str) -> bool {
    match (&ClientId::new(alloc, first), &ClientId::new(alloc, later)) {
        (Ok(one), Ok(other)) => *one < *other && *one != *other && is_told(alloc, one, first),
        _ => false,
    }
}

// A Client Identifier of 64 bytes, the most.
const LONGEST: &str = "0123456789012345678901234567890123456789012345678901234567890123";

#[test]
fn texts_are_printed_and_ordered_by_bytes(rt: HostRuntime) {
    assert!(rt; are_texts_ordered(rt.alloc(), "a/B", "b"));
    assert!(rt; are_names_ordered(rt.alloc(), "B", "a"));
    assert!(rt; are_filters_ordered(rt.alloc(), "#", "+"));
    assert!(rt; are_clients_ordered(rt.alloc(), LONGEST, "b"));
}

#[test]
fn levels_of_service_are_ordered(rt: HostRuntime) {
    assert_eq!(rt;
        (
            QoS::ExactlyOnce.number(),
            QoS::AtMostOnce.cmp(&QoS::AtLeastOnce)
        ),
        (2, Ordering::Less)
    );
}

#[test]
fn a_delivery_says_its_qos_and_identifier(rt: HostRuntime) {
    let id = PacketId::new(10);
    assert_eq!(rt; Delivery::ExactlyOnce(true, id).qos(), QoS::ExactlyOnce);
    assert_eq!(rt; Delivery::AtLeastOnce(true, id).id(), Some(id));
    assert_eq!(rt; Delivery::AtMostOnce.id(), None);
}

// The least and the greatest (MQTT 2.3.1).
#[test]
fn identifiers_are_printed_by_their_digits(rt: HostRuntime) {
    assert!(rt; is_told(rt.alloc(), &PacketId::new(1), "1"));
    assert!(rt; is_told(rt.alloc(), &PacketId::new(65_535), "65535"));
}
