// The fields that state a packet.

ghost use Rattle.std.specs.Prelude.{◌≡◌, ◌++◌, IfOk, OnOk};
ghost use Rattle.packet_rows.specs.PacketFields.{packet_fields, connect_fields, connack_fields};
ghost use Rattle.packet_rows.specs.PacketFields.{publish_fields, delivery_fields, id_alone_fields};
ghost use Rattle.packet_rows.specs.PacketFields.{subscribe_fields, suback_fields, flag_fields};
ghost use Rattle.packet_rows.specs.PacketFields.{unsubscribe_fields, number_fields};
ghost use Rattle.packet_rows.specs.PacketFields.{handshake_fields, code_fields, filter_fields};
ghost use Rattle.packet_rows.specs.PacketFields.{subscription_fields};
ghost use Rattle.std.specs.List.{flat_map};

use packet::{
    Connack, Connect, Delivery, Packet, PacketId, Publish, Suback, SubackCode, Subscribe,
    Subscription, Unsubscribe,
};
use rows::Fields;
use std::alloc::{AllocError, Global};
use topics::Filter;

/// Returns the fields that state a packet.
pub(crate) fn packet_fields(alloc: Global, packet: &Packet) -> Result<Fields, AllocError>
    ensures { IfOk result (λ fields. fields ≡ packet_fields packet.now) }
{
    let mut out = Fields::new(alloc);
    put_packet(packet, &mut out)?;
    Ok(out)
}

// Appends the fields that state a packet.
fn put_packet(packet: &Packet, out: &mut Fields) -> Result<(), AllocError>
    ensures { OnOk result (out.new ≡ out.old ++ packet_fields packet.now) }
{
    match packet {
        Packet::Connect(connect) => put_connect(connect, out),
        Packet::Connack(connack) => put_connack(*connack, out),
        Packet::Publish(publish) => put_publish(publish, out),
        Packet::Puback(id) => put_id_alone("puback", *id, out),
        Packet::Pubrec(id) => put_id_alone("pubrec", *id, out),
        Packet::Pubrel(id) => put_id_alone("pubrel", *id, out),
        Packet::Pubcomp(id) => put_id_alone("pubcomp", *id, out),
        Packet::Subscribe(subscribe) => put_subscribe(subscribe, out),
        Packet::Suback(suback) => put_suback(suback, out),
        Packet::Unsubscribe(unsubscribe) => put_unsubscribe(unsubscribe, out),
        Packet::Unsuback(id) => put_id_alone("unsuback", *id, out),
        Packet::Pingreq => out.text("pingreq"),
        Packet::Pingresp => out.text("pingresp"),
        Packet::Disconnect => out.text("disconnect"),
    }
}

fn put_connect(connect: &Connect, out: &mut Fields) -> Result<(), AllocError>
    ensures { OnOk result (out.new ≡ out.old ++ connect_fields connect.now) }
{
    out.text("connect")?;
    out.text("client")?;
    out.text(connect.client.as_str())?;
    put_flag("clean", connect.clean, out)?;
    put_number("keepalive", connect.keep_alive, out)
}

fn put_connack(connack: Connack, out: &mut Fields) -> Result<(), AllocError>
    ensures { OnOk result (out.new ≡ out.old ++ connack_fields connack) }
{
    out.text("connack")?;
    match connack {
        Connack::Accepted(present) => {
            put_flag("present", present, out)?;
            put_number("code", 0, out)
        }
        Connack::Refused(code) => {
            put_flag("present", false, out)?;
            put_number("code", u16::from(code.number()), out)
        }
    }
}

fn put_publish(publish: &Publish, out: &mut Fields) -> Result<(), AllocError>
    ensures { OnOk result (out.new ≡ out.old ++ publish_fields publish.now) }
{
    out.text("publish")?;
    out.text("topic")?;
    out.text(publish.topic.as_str())?;
    put_delivery(publish.delivery, out)?;
    put_flag("retain", publish.retain, out)?;
    out.text("payload")?;
    out.bytes(publish.payload.as_slice())
}

fn put_delivery(delivery: Delivery, out: &mut Fields) -> Result<(), AllocError>
    ensures { OnOk result (out.new ≡ out.old ++ delivery_fields delivery) }
{
    match delivery {
        Delivery::AtMostOnce => put_number("qos", 0, out),
        Delivery::AtLeastOnce(dup, id) => put_handshake(1, dup, id, out),
        Delivery::ExactlyOnce(dup, id) => put_handshake(2, dup, id, out),
    }
}

fn put_handshake(qos: u16, dup: bool, id: PacketId, out: &mut Fields) -> Result<(), AllocError>
    ensures { OnOk result (out.new ≡ out.old ++ handshake_fields qos dup id) }
{
    put_number("qos", qos, out)?;
    put_flag("dup", dup, out)?;
    put_number("id", id.number(), out)
}

fn put_id_alone(word: &str, id: PacketId, out: &mut Fields) -> Result<(), AllocError>
    ensures { OnOk result (out.new ≡ out.old ++ id_alone_fields word.now id) }
{
    out.text(word)?;
    put_number("id", id.number(), out)
}

fn put_subscribe(subscribe: &Subscribe, out: &mut Fields) -> Result<(), AllocError>
    ensures { OnOk result (out.new ≡ out.old ++ subscribe_fields subscribe.now) }
{
    put_id_alone("subscribe", subscribe.id, out)?;
    put_subscriptions(subscribe.filters.as_slice(), out)
}

fn put_subscriptions(filters: &[Subscription], out: &mut Fields) -> Result<(), AllocError>
    ensures { OnOk result (out.new ≡ out.old ++ flat_map subscription_fields filters.now) }
{
    if let [asked, rest @ ..] = filters {
        out.text("filter")?;
        out.text(asked.filter.as_str())?;
        put_number("qos", u16::from(asked.qos.number()), out)?;
        put_subscriptions(rest, out)?;
    }
    Ok(())
}

fn put_suback(suback: &Suback, out: &mut Fields) -> Result<(), AllocError>
    ensures { OnOk result (out.new ≡ out.old ++ suback_fields suback.now) }
{
    put_id_alone("suback", suback.id, out)?;
    put_codes(suback.codes.as_slice(), out)
}

fn put_codes(codes: &[SubackCode], out: &mut Fields) -> Result<(), AllocError>
    ensures { OnOk result (out.new ≡ out.old ++ flat_map code_fields codes.now) }
{
    if let [code, rest @ ..] = codes {
        put_number("code", u16::from(code.number()), out)?;
        put_codes(rest, out)?;
    }
    Ok(())
}

fn put_unsubscribe(unsubscribe: &Unsubscribe, out: &mut Fields) -> Result<(), AllocError>
    ensures { OnOk result (out.new ≡ out.old ++ unsubscribe_fields unsubscribe.now) }
{
    put_id_alone("unsubscribe", unsubscribe.id, out)?;
    put_filters(unsubscribe.filters.as_slice(), out)
}

fn put_filters(filters: &[Filter], out: &mut Fields) -> Result<(), AllocError>
    ensures { OnOk result (out.new ≡ out.old ++ flat_map filter_fields filters.now) }
{
    if let [filter, rest @ ..] = filters {
        out.text("filter")?;
        out.text(filter.as_str())?;
        put_filters(rest, out)?;
    }
    Ok(())
}

// Appends a word and a number.
fn put_number(word: &str, number: u16, out: &mut Fields) -> Result<(), AllocError>
    ensures { OnOk result (out.new ≡ out.old ++ number_fields word.now number) }
{
    out.text(word)?;
    out.number(u64::from(number))
}

// Appends a word and a flag, 0 or 1.
fn put_flag(word: &str, flag: bool, out: &mut Fields) -> Result<(), AllocError>
    ensures { OnOk result (out.new ≡ out.old ++ flag_fields word.now flag) }
{
    put_number(word, u16::from(flag), out)
}
