// A client with the trace of its connections.
//
// `Caller` is the only way to the `ClientCore`, and each of its calls is a step of `Trace`. So
// whatever a publisher or subscriber does over many connections is one trace, of which the clauses
// speak. Before a connection was accepted for the first time, a server that has a session of the
// client is refused; after that, one that lost it. Both end the client for good: a session of
// somebody else, or a lost one, cannot be made good by another connection.

ghost use Rattle.std.specs.Prelude.{◌≡◌, ◌≢◌, ◌⊎◌, ◌++◌, true, false, Some, IfErr, IfOk, OnOk, OnErr, Err, []};
ghost use Rattle.std.specs.Result.{is_ok};
ghost use Rattle.client_base.specs.declared.error.ClientError.TheVariants as errors;
ghost use Rattle.client_base.specs.State.{kept_count};
ghost use Rattle.client_base.specs.Steps.{Call, keeper_step};
ghost use Rattle.client.specs.Core.{publication_with};
ghost use Rattle.user_client.specs.Reports.{IsNews, news_of};
ghost use Rattle.user_client.specs.Answers.{is_final, may_go_on};
ghost use Rattle.user_client.specs.Losses.{IsEndedBy, ends_client};
ghost use Rattle.user_client.specs.Refusals.{IsRefusedFor};
ghost use Rattle.user_client.specs.declared.denial.Denial.{Denial};
ghost use Rattle.user_client.specs.declared.user_client_error.UserClientError.TheVariants as clients;
ghost use Rattle.user_client.specs.Traces.{IsAsked, IsFirst, Trace, new_called};

use crate::answers::Answers;
use crate::user_client_error::UserClientError;
use client::ClientCore;
use client_base::{Accepted, ClientError};
use packet_base::{ClientId, Payload, QoS};
use std::alloc::Global;
use std::marker::Model;
use topics::{Filter, TopicName};

/// The result of reading bytes from the server.
#[derive(Clone, Copy, Debug, PartialEq, Eq)]
pub(crate) enum News {
    /// No CONNACK yet.
    Waits,
    /// The server has just accepted the connection.
    Accepted,
    /// Packets were read, or parts of packets.
    Packets,
    /// The connection is lost.
    Lost,
}

/// A client, and whether a connection of it was ever accepted.
#[derive(Drop)]
pub(crate) struct Caller {
    /// The client, with keep alive 0.
    pub(crate) core: ClientCore,
    /// True once a CONNACK was accepted. Before, a server that has a session of the client is at
    /// fault.
    pub(crate) was_accepted: bool,
    /// What the server has answered on the last connection.
    pub(crate) answers: Answers,
    alloc: Global,
}

impl Model for Caller {
    ghost use Rattle.user_client.specs.Traces.{CallerView};

    ghost Value = { CallerView };

    ghost view = { λ caller. record {
      core = caller.core;
      was_accepted = caller.was_accepted;
      answers = caller.answers;
    } };
}

impl Caller {
    /// Returns a client with this identifier and keep alive 0 that was never connected.
    pub(crate) fn new(alloc: Global, id: ClientId) -> Caller
        ensures { result ≡ new_called id }
    {
        Caller {
            core: ClientCore::new(alloc, id, 0),
            was_accepted: false,
            answers: Answers::new(alloc),
            alloc,
        }
    }

    /// Opens a connection: queues its CONNECT. One that is still open counts as lost. The only
    /// error is that memory ran out.
    pub(crate) fn open(&mut self) -> Result<(), UserClientError>
        ensures trace { OnOk result (Trace self.old [] self.new) }
        ensures err { IfErr result (λ error. error ≡ UserClientError.Memory) }
    {
        self.core.open()?;
        self.answers = Answers::new(self.alloc);
        Ok(())
    }

    /// Publishes: at QoS 1 or 2 the client keeps the publication until it is acknowledged, at QoS 0
    /// it is only written. If the client refuses it or memory runs out, nothing changes.
    pub(crate) fn publish(
        &mut self,
        topic: TopicName,
        qos: QoS,
        retain: bool,
        payload: Payload,
    ) -> Result<(), UserClientError>
        ensures trace { OnOk result (Trace self.old [] self.new) }
        ensures asked { OnOk result
            (IsAsked (publication_with retain qos topic payload) self.old self.new) }

        // The client refused it for this cause, or memory ran out.
        ensures refused { let call = Call.Publishes (publication_with retain qos topic payload) in
            IfErr result (IsRefusedFor (keeper_step call self.old.core.state).refusal) }
        ensures same { OnErr result (self.new ≡ self.old) }
    {
        Ok(self.core.publish(topic, qos, retain, payload)?)
    }

    /// Subscribes to a filter, at this QoS at most.
    pub(crate) fn subscribe(&mut self, filter: &Filter, qos: QoS) -> Result<(), UserClientError>
        ensures trace { OnOk result (Trace self.old [] self.new) }
        ensures ended { IfErr result (λ error. ends_client error ≡ false) }
    {
        Ok(self.core.subscribe(filter.clone()?, qos)?)
    }

    /// Returns the publications accepted since the last call, in order.
    pub(crate) fn take_accepted(&mut self) -> Vec<Accepted>
        ensures trace { Trace self.old result.items self.new }
    {
        self.core.take_accepted()
    }

    /// Appends the bytes that the client has for the server.
    pub(crate) fn outgoing(&mut self, out: &mut Vec<u8>) -> Result<(), UserClientError>
        ensures trace { Trace self.old [] self.new }
        ensures kept { self.new.core.state ≡ self.old.core.state }
        ensures bytes { OnOk result (out.new.items ≡ out.old.items ++ self.old.core.out) }
        ensures err { IfErr result (λ error. error ≡ UserClientError.Memory) }
    {
        Ok(self.core.outgoing(out)?)
    }

    /// Disconnects, with a DISCONNECT if there is memory for it.
    pub(crate) fn disconnect(&mut self)
        ensures trace { Trace self.old [] self.new }
        ensures kept { kept_count self.new.core.state ≡ kept_count self.old.core.state }
    {
        let _ = self.core.disconnect();
    }

    /// Reads bytes of the server. Fails if the server had a session before a connection was first
    /// accepted, or lost it later, or denies for good what was asked for.
    pub(crate) fn receive(&mut self, piece: &[u8]) -> Result<News, UserClientError>
        ensures trace { OnOk result (Trace self.old [] self.new) }
        ensures news { IfOk result (IsNews self.old self.new) }
        ensures granted { OnOk result (may_go_on self.new.answers.denial ≡ true) }
        ensures ended { IfErr result (IsEndedBy self.old self.new) }
    {
        let news = self.hear(piece)?;
        self.check_denial()?;
        Ok(news)
    }

    // Reads bytes of the server, whatever it denies.
    fn hear(&mut self, piece: &[u8]) -> Result<News, UserClientError>
        ensures trace { OnOk result (Trace self.old [] self.new) }
        ensures news { IfOk result (IsNews self.old self.new) }
        ensures ended { IfErr result (IsEndedBy self.old self.new) }
    {
        self.answers.hear(piece)?;
        let was_connected = self.core.connected();
        let is_open = stays_open(self.core.on_bytes(piece))?;
        self.check_first_session()?;
        let is_connected = self.core.connected();
        self.was_accepted = self.was_accepted || is_connected;
        Ok(news_of(is_open, was_connected, is_connected))
    }

    // Fails if the server denied for good what was asked for.
    fn check_denial(&self) -> Result<(), UserClientError>
        ensures ok { OnOk result (may_go_on self.now.answers.denial ≡ true) }
        ensures err { IfErr result (λ error. (denial : Denial) × (error ≡ clients.Denied denial)
            × (self.now.answers.denial ≡ Some denial) × (is_final denial ≡ true)) }
    {
        match self.answers.denial {
            Some(denial) if denial.is_final() => Err(UserClientError::Denied(denial)),
            _ => Ok(()),
        }
    }

    // Fails if the server had a session before a connection was first accepted.
    fn check_first_session(&self) -> Result<(), UserClientError>
        ensures ok { OnOk result (IsFirst self.now self.now.core) }
        ensures err { IfErr result (λ error. error ≡ UserClientError.SessionPresent) }
    {
        if !self.was_accepted && self.core.present() {
            return Err(UserClientError::SessionPresent);
        }
        Ok(())
    }
}

// Returns true if the connection stays open. Fails if the session was lost or memory ran out.
fn stays_open(heard: Result<(), ClientError>) -> Result<bool, UserClientError>
    ensures ok { OnOk result (heard ≢ Err errors.SessionLost) }
    ensures open { IfOk result (λ is_open. is_open ≡ is_ok heard) }
    ensures lost { IfErr result (λ error.
        error ≡ UserClientError.SessionLost → heard ≡ Err errors.SessionLost) }
    ensures other { IfErr result (λ error.
        (error ≡ UserClientError.SessionLost) ⊎ (error ≡ UserClientError.Memory)) }
{
    match heard {
        Ok(()) => Ok(true),
        Err(ClientError::Memory) => Err(UserClientError::Memory),
        Err(ClientError::SessionLost) => Err(UserClientError::SessionLost),
        Err(_) => Ok(false),
    }
}

// Returns the result of a read, by whether the connection is open, and whether it was accepted
// before, and is now.
fn news_of(is_open: bool, was_connected: bool, is_connected: bool) -> News
    ensures { result ≡ news_of is_open was_connected is_connected }
{
    if !is_open {
        News::Lost
    } else if !is_connected {
        News::Waits
    } else if was_connected {
        News::Packets
    } else {
        News::Accepted
    }
}
