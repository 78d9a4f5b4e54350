// A broker with its clients, each of which answers at once what it gets.

use anyhow::{Result, anyhow};
use broker::BrokerMachine;
use broker_spec::{Command, ConnectionName, Output, SizedPacket};
use machine::Machine;
use packet::{Delivery, Packet, Publish, Subscribe, Subscription};
use packet_base::{ClientId, PacketId, PacketList, Payload, QoS};
use std::alloc::Global;
use std::collections::VecDeque;
use topics::{Filter, TopicName};

/// How many bytes a publication carries.
const PAYLOAD: [u8; 64] = [7; 64];

/// A broker, and what its clients have put on the way to it.
#[derive(Drop)]
pub struct Clients {
    /// The broker.
    pub broker: BrokerMachine,
    under_way: VecDeque<Command>,
    alloc: Global,
}

impl Clients {
    /// Returns a broker that begins in ballot 1.
    pub fn new(alloc: Global) -> Result<Clients> {
        let mut clients = Clients {
            broker: BrokerMachine::fresh(alloc)?,
            under_way: VecDeque::new(alloc),
            alloc,
        };
        match clients.put(Command::Start(1)) {
            Ok(()) => Ok(clients),
            Err(error) => {
                drop(clients);
                Err(error)
            }
        }
    }

    /// Opens a connection of a client with this number, with CleanSession 0.
    pub fn connect(&mut self, count: u64, client: &str) -> Result<()> {
        let name = name_of(count)?;
        let client = ClientId::new(self.alloc, client)?;
        self.put(Command::Connect(name, client, false))
    }

    /// Loses a connection.
    pub fn lose(&mut self, count: u64) -> Result<()> {
        self.put(Command::Lost(name_of(count)?))
    }

    /// Ends the session of a client, as an administrator does.
    pub fn expel(&mut self, client: &str) -> Result<()> {
        self.put(Command::Expel(ClientId::new(self.alloc, client)?))
    }

    /// Subscribes a client to these filters, by one packet.
    pub fn subscribe(&mut self, count: u64, wanted: Vec<Subscription>) -> Result<()> {
        let name = name_of(count)?;
        let subscribe = Subscribe {
            id: PacketId::new(1),
            filters: PacketList::new(wanted),
        };
        self.send(name, Packet::Subscribe(subscribe))
    }

    /// Subscribes a client to one filter.
    pub fn subscribe_one(&mut self, count: u64, text: &str, qos: QoS) -> Result<()> {
        let mut wanted = Vec::new(self.alloc);
        put_filter(self.alloc, text, qos, &mut wanted)?;
        self.subscribe(count, wanted)
    }

    /// Publishes under identifier 1, and lets all clients answer the result of it until nothing is
    /// in transit.
    pub fn publish(&mut self, count: u64, topic: &TopicName, qos: QoS) -> Result<()> {
        let name = name_of(count)?;
        let publish = publication(self.alloc, topic, qos)?;
        self.send(name, Packet::Publish(publish))
    }

    fn send(&mut self, name: ConnectionName, packet: Packet) -> Result<()> {
        self.put(Command::Packet(name, SizedPacket::new(packet)?))
    }

    // Does a command, and all that the clients answer.
    fn put(&mut self, command: Command) -> Result<()> {
        self.under_way.push_back(command)?;
        for _ in 0..u64::MAX {
            if !self.take_next()? {
                break;
            }
        }
        Ok(())
    }

    // Does the command that comes next. Returns whether there was one.
    fn take_next(&mut self) -> Result<bool> {
        match self.under_way.pop_front() {
            Some(command) => {
                let taken = self.take(&command);
                drop(command);
                taken
            }
            None => Ok(false),
        }
    }

    // Does one command, and keeps what the clients answer.
    fn take(&mut self, command: &Command) -> Result<bool> {
        let mut given = Vec::new(self.alloc);
        self.apply_and_answer(command, &mut given)
    }

    // Does a command, and all that the clients answer is under way then. What the broker sends is
    // lent, so that no early return has to drop it.
    fn apply_and_answer(&mut self, command: &Command, given: &mut Vec<Output>) -> Result<bool> {
        self.broker.apply(command, given)?;
        self.answer_all(given.as_slice())?;
        Ok(true)
    }

    fn answer_all(&mut self, given: &[Output]) -> Result<()> {
        for output in given {
            if let Output::Send(name, packet) = output {
                self.answer(*name, packet)?;
            }
        }
        Ok(())
    }

    fn answer(&mut self, name: ConnectionName, packet: &Packet) -> Result<()> {
        if let Some(answer) = answer_to(packet) {
            let answer = SizedPacket::new(answer)?;
            self.under_way.push_back(Command::Packet(name, answer))?;
        }
        Ok(())
    }
}

// Adds a filter. The list is lent, so that no early return has to drop it.
fn put_filter(alloc: Global, text: &str, qos: QoS, wanted: &mut Vec<Subscription>) -> Result<()> {
    let filter = Filter::new(alloc, text)?;
    wanted.push(Subscription { filter, qos })?;
    Ok(())
}

fn publication(alloc: Global, topic: &TopicName, qos: QoS) -> Result<Publish> {
    Ok(Publish {
        topic: topic.clone()?,
        delivery: delivery_at(qos),
        retain: false,
        payload: Payload::new(alloc, &PAYLOAD)?,
    })
}

// Returns the name of a connection of ballot 1.
fn name_of(count: u64) -> Result<ConnectionName> {
    ConnectionName::new(1, count).ok_or_else(|| anyhow!("no connection has the number {count}"))
}

fn delivery_at(qos: QoS) -> Delivery {
    match qos {
        QoS::AtMostOnce => Delivery::AtMostOnce,
        QoS::AtLeastOnce => Delivery::AtLeastOnce(false, PacketId::new(1)),
        QoS::ExactlyOnce => Delivery::ExactlyOnce(false, PacketId::new(1)),
    }
}

// Returns what a client answers to a packet (MQTT 4.3).
fn answer_to(packet: &Packet) -> Option<Packet> {
    match packet {
        Packet::Publish(publish) => match publish.delivery {
            Delivery::AtMostOnce => None,
            Delivery::AtLeastOnce(_, id) => Some(Packet::Puback(id)),
            Delivery::ExactlyOnce(_, id) => Some(Packet::Pubrec(id)),
        },
        Packet::Pubrec(id) => Some(Packet::Pubrel(*id)),
        Packet::Pubrel(id) => Some(Packet::Pubcomp(*id)),
        _ => None,
    }
}
