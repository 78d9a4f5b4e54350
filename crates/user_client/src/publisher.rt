// Publishing once.

ghost use Rattle.std.specs.Prelude.{◌≡◌, ◌≢◌, true, false, [], OnOk, IfErr, IfOk};
ghost use Rattle.client.specs.Core.{publication_with};
ghost use Rattle.client_base.specs.State.{kept_count};
ghost use Rattle.client_base.specs.Publications.{is_over_limit};
ghost use Rattle.packet.specs.declared.packet.Packet.TheVariants as packets;
ghost use Rattle.packet_base.specs.declared.qos.QoS.TheVariants as qos_levels;
ghost use Rattle.session_base.specs.Publication.{is_answered};
ghost use Rattle.user_client.specs.Losses.{IsEndedBy, IsGivenUp, ends_client};
ghost use Rattle.user_client.specs.Traces.{Trace};
ghost use Rattle.user_client.specs.Publisher.{HasPublication, IsAcknowledged, IsAcknowledgedBy, TakesPublish, unkept};
ghost use Rattle.user_client.specs.Refusals.{IsPublishable, RefusesPacket, RefusesPublisher, first_publish};

use crate::caller::{Caller, News};
use crate::checks::{checked_id, checked_topic};
use crate::denial::Denial;
use crate::servers::Servers;
use crate::user_client_error::UserClientError;
use crate::visits::{disconnect, exchange, next_stream, send};
use client_base::ClientError;
use node_base::devices::{Counted, PIECE_BYTES};
use packet::{Delivery, Packet, Publish};
use packet_base::{ClientId, Payload, QoS};
use std::alloc::Global;
use std::io::{Read, Write};
use std::marker::Model;
use topics::TopicName;

/// A client that publishes once.
#[derive(Drop)]
pub struct Publisher {
    alloc: Global,
    // At QoS 1 and 2 it keeps the publication (see `once`).
    caller: Caller,
    // The publication at QoS 0: it is sent on each connection until one has taken it. None at QoS 1
    // and 2, where the client keeps it until its handshake has ended.
    once: Option<Publish>,
}

impl Model for Publisher {
    ghost use Rattle.user_client.specs.Publisher.{PublisherView};

    ghost Value = { PublisherView };

    ghost view = { λ publisher. record { caller = publisher.caller; once = publisher.once } };
}

// How far a publisher is on one connection.
#[derive(Clone, Copy, Debug, PartialEq, Eq)]
enum Progress {
    // It waits for the server.
    Waits,
    // The publication is acknowledged; at QoS 0, written.
    Done,
    // The connection is lost.
    Lost,
}

impl Publisher {
    /// Returns a client with this identifier and publication. At QoS 1 and 2 the client keeps the
    /// publication, and no other, until its handshake has ended. Fails with `Refused` for the first
    /// fault of identifier, topic and the size of the packet, in this order; without one, only with
    /// `Memory`.
    pub fn new(
        alloc: Global,
        id: &str,
        topic: &str,
        qos: QoS,
        retain: bool,
        message: &str,
    ) -> Result<Publisher, UserClientError>
        ensures ok { OnOk result
            (IsPublishable id.now (publication_with retain qos topic.now message.now)) }
        ensures made { IfOk result (HasPublication qos id.now
            (publication_with retain qos topic.now message.now)) }
        ensures err { IfErr result
            (RefusesPublisher id.now (publication_with retain qos topic.now message.now)) }
    {
        let id = checked_id(alloc, id)?;
        let topic = checked_topic(alloc, topic)?;
        let payload = Payload::new(alloc, message.as_bytes())?;
        let publisher = publisher_of(alloc, id, topic, qos, retain, payload)?;
        Ok(publisher)
    }

    /// Publishes over at most `tries` connections: at QoS 1 and 2 until the handshake has ended, at
    /// QoS 0 until a connection has taken the bytes. No clause says which one took them, or counts
    /// the connections of a run that succeeds. Whether the DISCONNECT arrives does not matter.
    pub fn run<S: Servers>(&mut self, servers: &mut S, tries: u32) -> Result<(), UserClientError>
        ensures acknowledged { OnOk result (IsAcknowledged S.Stream.contents self.new) }
        ensures trace { OnOk result (Trace self.old.caller [] self.new.caller) }
        ensures same { self.new.once ≡ self.old.once }

        // `Lost` comes once all `tries` connections were requested, `SessionLost` if the server lost
        // the session, `Denied` if it denied for good what was asked for.
        ensures ended { IfErr result (IsGivenUp S.opens S.pauses tries
            servers.old servers.new self.old.caller self.new.caller) }
    {
        for opened in 0..tries {
            let Some(stream) = next_stream(servers, opened) else {
                continue;
            };
            if self.publish_over(stream)? {
                return Ok(());
            }
        }
        Err(UserClientError::Lost)
    }

    /// Returns what the server denied the client on the last connection, if it did.
    pub fn denial(&self) -> Option<Denial>
        ensures { result ≡ self.now.caller.answers.denial }
    {
        self.caller.answers.denial
    }

    // Publishes over one connection. Returns true once the publication is acknowledged, or written
    // at QoS 0.
    fn publish_over<D: Read + Write + Drop>(&mut self, stream: D) -> Result<bool, UserClientError>
        ensures acknowledged { IfOk result (λ done.
            done ≡ true → IsAcknowledged D.contents self.new) }
        ensures trace { OnOk result (Trace self.old.caller [] self.new.caller) }
        ensures same { self.new.once ≡ self.old.once }
        ensures ended { IfErr result (IsEndedBy self.old.caller self.new.caller) }
    {
        let mut stream = Counted::new(stream);
        let mut buffer = Vec::from_elem(self.alloc, 0u8, PIECE_BYTES)?;
        self.caller.open()?;
        for _ in 0..u64::MAX {
            match self.continue_once(&mut stream, buffer.as_mut_slice())? {
                Progress::Waits => {}
                Progress::Lost => return Ok(false),
                Progress::Done => {
                    disconnect(self.alloc, &mut stream, &mut self.caller);
                    return Ok(true);
                }
            }
        }
        Ok(false)
    }

    // Does one round of a connection: writes, reads once, and acts on what was read.
    fn continue_once<D: Read + Write>(
        &mut self,
        stream: &mut Counted<D>,
        buffer: &mut [u8],
    ) -> Result<Progress, UserClientError>
        ensures acknowledged { IfOk result (λ progress.
            progress ≡ Progress.Done
            → IsAcknowledgedBy D.contents stream.new.device self.new) }
        ensures trace { OnOk result (Trace self.old.caller [] self.new.caller) }
        ensures same { self.new.once ≡ self.old.once }
        ensures ended { IfErr result (IsEndedBy self.old.caller self.new.caller) }
    {
        let news = exchange(self.alloc, stream, buffer, &mut self.caller)?;
        self.continue_by_news(news, stream)
    }

    // Acts on the result of a read.
    fn continue_by_news<D: Read + Write>(
        &mut self,
        news: News,
        stream: &mut Counted<D>,
    ) -> Result<Progress, UserClientError>
        ensures acknowledged { IfOk result (λ progress.
            progress ≡ Progress.Done
            → IsAcknowledgedBy D.contents stream.new.device self.new) }
        ensures trace { OnOk result (Trace self.old.caller [] self.new.caller) }
        ensures same { self.new.once ≡ self.old.once }
        ensures ended { IfErr result (λ error. ends_client error ≡ false) }
    {
        match &self.once {
            None => Ok(progress_of_kept(news, &self.caller)),
            Some(publish) if news == News::Accepted => {
                send_once(self.alloc, publish, stream, &mut self.caller)
            }
            Some(_) => Ok(unfinished_progress(news)),
        }
    }
}

fn publisher_of(
    alloc: Global,
    id: ClientId,
    topic: TopicName,
    qos: QoS,
    retain: bool,
    payload: Payload,
) -> Result<Publisher, UserClientError>
    ensures made { IfOk result
        (HasPublication qos id (publication_with retain qos topic payload)) }
    ensures fits { OnOk result
        (is_over_limit (first_publish id (publication_with retain qos topic payload)) ≡ false) }
    ensures err { IfErr result
        (RefusesPacket (first_publish id (publication_with retain qos topic payload))) }
{
    match qos {
        QoS::AtMostOnce => unanswered_publisher(alloc, id, topic, qos, retain, payload),
        QoS::AtLeastOnce | QoS::ExactlyOnce => answered_publisher(
            alloc, id, topic, qos, retain, payload,
        ),
    }
}

// Returns a publisher at QoS 0, which has its publication itself.
fn unanswered_publisher(
    alloc: Global,
    id: ClientId,
    topic: TopicName,
    qos: QoS,
    retain: bool,
    payload: Payload,
) -> Result<Publisher, UserClientError>
    requires { qos ≡ qos_levels.AtMostOnce }
    ensures made { IfOk result
        (HasPublication qos id (publication_with retain qos topic payload)) }
    ensures fits { OnOk result
        (is_over_limit (first_publish id (publication_with retain qos topic payload)) ≡ false) }
    ensures err { IfErr result
        (RefusesPacket (first_publish id (publication_with retain qos topic payload))) }
{
    let publish = unanswered_publish(topic, retain, payload)?;
    let caller = Caller::new(alloc, id);
    Ok(Publisher {
        alloc,
        caller,
        once: Some(publish),
    })
}

// Returns a publisher at QoS 1 or 2, whose client keeps its publication.
fn answered_publisher(
    alloc: Global,
    id: ClientId,
    topic: TopicName,
    qos: QoS,
    retain: bool,
    payload: Payload,
) -> Result<Publisher, UserClientError>
    requires { is_answered qos ≡ true }
    ensures made { IfOk result
        (HasPublication qos id (publication_with retain qos topic payload)) }
    ensures fits { OnOk result
        (is_over_limit (first_publish id (publication_with retain qos topic payload)) ≡ false) }
    ensures err { IfErr result
        (RefusesPacket (first_publish id (publication_with retain qos topic payload))) }
{
    let mut caller = Caller::new(alloc, id);
    caller.publish(topic, qos, retain, payload)?;
    Ok(Publisher {
        alloc,
        caller,
        once: None,
    })
}

fn progress_of_kept(news: News, caller: &Caller) -> Progress
    ensures { result ≡ Progress.Done → kept_count caller.now.core.state ≡ 0 }
{
    if caller.core.kept() == 0 {
        Progress::Done
    } else {
        unfinished_progress(news)
    }
}

// Sends a publication at QoS 0 on a connection that was just accepted.
fn send_once<D: Read + Write>(
    alloc: Global,
    publish: &Publish,
    stream: &mut Counted<D>,
    caller: &mut Caller,
) -> Result<Progress, UserClientError>
    ensures trace { OnOk result (Trace caller.old [] caller.new) }
    ensures taken { IfOk result (λ progress.
        progress ≡ Progress.Done → TakesPublish D.contents publish.now
        stream.old.device stream.new.device) }
    ensures ended { IfErr result (λ error. ends_client error ≡ false) }
{
    let topic = publish.topic.clone()?;
    let payload = publish.payload.clone()?;
    caller.publish(topic, QoS::AtMostOnce, publish.retain, payload)?;
    let is_whole = send(alloc, stream, caller)?;
    Ok(progress_of_written(is_whole))
}

fn progress_of_written(is_whole: bool) -> Progress
    ensures { result ≡ Progress.Done → is_whole ≡ true }
{
    if is_whole {
        Progress::Done
    } else {
        Progress::Lost
    }
}

fn unfinished_progress(news: News) -> Progress
    ensures { result ≢ Progress.Done }
{
    if news == News::Lost {
        Progress::Lost
    } else {
        Progress::Waits
    }
}

// Returns a publication at QoS 0. Fails if its packet would be too large.
fn unanswered_publish(
    topic: TopicName,
    retain: bool,
    payload: Payload,
) -> Result<Publish, UserClientError>
    ensures made { IfOk result (λ publish. publish ≡
        unkept (publication_with retain qos_levels.AtMostOnce topic payload)) }
    ensures fits { OnOk result (is_over_limit (packets.Publish
        (unkept (publication_with retain qos_levels.AtMostOnce topic payload))) ≡ false) }
    ensures err { IfErr result (RefusesPacket (packets.Publish
        (unkept (publication_with retain qos_levels.AtMostOnce topic payload)))) }
{
    let publish = Publish {
        topic,
        delivery: Delivery::AtMostOnce,
        retain,
        payload,
    };
    if Packet::Publish(publish.clone()?).is_too_large() {
        return Err(UserClientError::from(ClientError::TooLarge));
    }
    Ok(publish)
}
