// Publications through one node, each with all handshakes, as bytes: items by themselves, and with
// what is handed over.

use crate::brokers::traffic::{Part, Traffic, connect, packets_of, subscribe};
use crate::measures::nanos_each;
use anyhow::{Result, anyhow, ensure};
use ballot_base::{Config, Members};
use packet_base::QoS;
use std::alloc::Global;
use std::time::CpuClock;
use world_base::node_connections::{Piece, Port};
use world_base::node_core::{Item, NodeCore};

/// How many publications a figure rests on.
const PUBLICATIONS: u32 = 61_440;

/// Prints the time of a publication at each QoS, with 12 and 60 connections of which every other
/// one publishes to the one after it, in pieces of one packet and of 64.
pub fn run(rt: &HostRuntime) -> Result<()> {
    for connections in &[12, 60] {
        for qos in &[QoS::AtMostOnce, QoS::AtLeastOnce, QoS::ExactlyOnce] {
            for packets in &[1, 64] {
                compare(rt, *connections, *qos, *packets)?;
            }
        }
    }
    Ok(())
}

// Prints the time of one traffic with nothing handed over, and with all. What is large is lent
// below, so that no early return has to drop it.
fn compare(rt: &HostRuntime, connections: u64, qos: QoS, packets: u8) -> Result<()> {
    let traffic = Traffic::new(rt.alloc(), connections, qos, packets)?;
    compare_with(rt, connections, qos, packets, &traffic)
}

fn compare_with(
    rt: &HostRuntime,
    connections: u64,
    qos: QoS,
    packets: u8,
    traffic: &Traffic,
) -> Result<()> {
    // Each packet becomes a place of the log: the CONNECTs, the SUBSCRIBEs, and those of all
    // publications.
    let places = u64::from(PUBLICATIONS)
        .saturating_mul(packets_of(qos))
        .saturating_add(connections)
        .saturating_add(connections / 2);
    let alone = measure(rt, connections, traffic, places, false)?;
    let with = measure(rt, connections, traffic, places, true)?;
    let number = qos.number();
    println!(rt;
        "{connections} connections, QoS {number}, pieces of {packets}: {alone} ns a publication, \
         handed over {with} ns"
    )?;
    Ok(())
}

// Returns the time of a publication with a node of its own.
fn measure(
    rt: &HostRuntime,
    connections: u64,
    traffic: &Traffic,
    places: u64,
    looks: bool,
) -> Result<u128> {
    let mut node = fresh(rt.alloc())?;
    let nanos = figure(rt, &mut node, connections, traffic, places, looks);
    drop(node);
    nanos
}

fn fresh(alloc: Global) -> Result<NodeCore> {
    let members = Members::from_slice(alloc, &[1])?;
    let config = Config {
        members,
        primary: 1,
    };
    Ok(NodeCore::new(alloc, 1, &config)?)
}

// Returns the time of a publication with a node that nothing came to yet.
fn figure(
    rt: &HostRuntime,
    node: &mut NodeCore,
    connections: u64,
    traffic: &Traffic,
    places: u64,
    looks: bool,
) -> Result<u128> {
    let mut out = Vec::new(rt.alloc());
    figure_in(rt, node, connections, traffic, places, looks, &mut out)
}

fn figure_in(
    rt: &HostRuntime,
    node: &mut NodeCore,
    connections: u64,
    traffic: &Traffic,
    places: u64,
    looks: bool,
    out: &mut Vec<u8>,
) -> Result<u128> {
    gather(rt.alloc(), node, connections, out)?;
    let nanos = time(rt, node, traffic, looks, out)?;
    ensure!(node.losses() == 0, "a step ran out of memory");
    ensure!(node.status().committed == places, "packets are missing");
    Ok(nanos)
}

fn time(
    rt: &HostRuntime,
    node: &mut NodeCore,
    traffic: &Traffic,
    looks: bool,
    out: &mut Vec<u8>,
) -> Result<u128> {
    let rounds = PUBLICATIONS / traffic.publications().max(1);
    let start = rt.process_cpu_time()?;
    for _round in 0..rounds {
        for part in &traffic.parts {
            take(rt.alloc(), node, part, looks, out)?;
        }
    }
    nanos_each(rt, start, PUBLICATIONS)
}

// Connects all clients, and has each second one subscribe to what the one before it publishes.
fn gather(alloc: Global, node: &mut NodeCore, connections: u64, out: &mut Vec<u8>) -> Result<()> {
    for port in 0..connections {
        step(alloc, node, Item::Opened(Port(port), 0));
        join(alloc, node, port, out)?;
        if port % 2 == 1 {
            listen(alloc, node, port, out)?;
        }
    }
    Ok(())
}

// Connects the client by a port.
fn join(alloc: Global, node: &mut NodeCore, port: u64, out: &mut Vec<u8>) -> Result<()> {
    let connect = connect(alloc, port)?;
    take(alloc, node, &connect, true, out)
}

// Subscribes the client of a port.
fn listen(alloc: Global, node: &mut NodeCore, port: u64, out: &mut Vec<u8>) -> Result<()> {
    let subscribe = subscribe(alloc, port)?;
    take(alloc, node, &subscribe, true, out)
}

fn step(alloc: Global, node: &mut NodeCore, item: Item) {
    let mut effects = Vec::new(alloc);
    node.step(item, &mut effects);
}

// Brings the bytes of a part, and takes what is sent to its client and to the other client of the
// pair.
fn take(
    alloc: Global,
    node: &mut NodeCore,
    part: &Part,
    looks: bool,
    out: &mut Vec<u8>,
) -> Result<()> {
    let piece = Piece::from_slice(alloc, part.bytes.as_slice())?;
    step(alloc, node, Item::Bytes(Port(part.port), piece, 0));
    if looks {
        look(node, part.port, out)?;
        look(node, part.other, out)?;
    }
    Ok(())
}

fn look(node: &mut NodeCore, port: u64, out: &mut Vec<u8>) -> Result<()> {
    out.clear();
    match node.outgoing(Port(port), out) {
        Ok(_) => Ok(()),
        Err(_) => Err(anyhow!("out of memory for the bytes to send")),
    }
}
