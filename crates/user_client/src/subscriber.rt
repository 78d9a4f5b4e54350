// Printing publications.

ghost use Rattle.std.specs.Prelude.{◌≡◌, None, true, false, [], ◌∷◌, OnOk, IfErr, IfOk};
ghost use Rattle.std.specs.Io.KnownBytes.{Appends};
ghost use Rattle.packet_base.specs.ClientId.{client_fault};
ghost use Rattle.topics.specs.Text.{filter_fault};
ghost use Rattle.client_base.specs.printed.Lines.{printed_line};
ghost use Rattle.user_client.specs.Subscriber.{PrintsNothing, PrintsAccepted, Shows, listening_anew, new_listening};
ghost use Rattle.user_client.specs.Losses.{IsEndedBy, IsGivenUp, ends_client};
ghost use Rattle.user_client.specs.Refusals.{RefusesListener};

use crate::caller::{Caller, News};
use crate::checks::{checked_filter, checked_id};
use crate::denial::Denial;
use crate::servers::Servers;
use crate::user_client_error::UserClientError;
use crate::visits::{disconnect, exchange, next_stream};
use client_base::Accepted;
use client_base::printed::print_line;
use node_base::devices::{Counted, PIECE_BYTES};
use packet_base::QoS;
use std::alloc::Global;
use std::io::{Read, Write};
use std::marker::Model;
use topics::Filter;

/// A client that prints publications.
#[derive(Drop)]
pub struct Subscriber {
    alloc: Global,
    // The client. It subscribes on each connection until something was printed.
    caller: Caller,
    filter: Filter,
    qos: QoS,
    // How many publications it prints in all.
    count: u32,
    // How many are left to print. Once one is printed, the server has the subscription.
    left: u32,
}

impl Model for Subscriber {
    ghost use Rattle.user_client.specs.Subscriber.{SubscriberView};

    ghost Value = { SubscriberView };

    ghost view = { λ subscriber.
        record { caller = subscriber.caller; count = subscriber.count; left = subscriber.left } };
}

impl Subscriber {
    /// Returns a client with this identifier that subscribes to a filter, and stops after `count`
    /// publications. Fails with `Refused` for the first fault of identifier and filter, in this
    /// order; without one, only with `Memory`.
    pub fn new(
        alloc: Global,
        id: &str,
        filter: &str,
        qos: QoS,
        count: u32,
    ) -> Result<Subscriber, UserClientError>
        ensures made { IfOk result (λ subscriber. subscriber ≡ new_listening id.now count) }
        ensures ok { OnOk result
            ((client_fault id.now ≡ None) × (filter_fault filter.now ≡ None)) }
        ensures err { IfErr result (RefusesListener id.now filter.now) }
    {
        let id = checked_id(alloc, id)?;
        let filter = checked_filter(alloc, filter)?;
        Ok(Subscriber {
            alloc,
            caller: Caller::new(alloc, id),
            filter,
            qos,
            count,
            left: count,
        })
    }

    /// Prints publications over at most `tries` connections, a line each, which is flushed before
    /// the publication is answered. No clause says when a line is flushed, or counts the
    /// connections of a run that succeeds. Whether the last answers and the DISCONNECT arrive does
    /// not matter.
    pub fn run<S: Servers, W: Write + Drop>(
        &mut self,
        servers: &mut S,
        output: &mut W,
        tries: u32,
    ) -> Result<(), UserClientError>
        ensures printed { OnOk result
            (PrintsAccepted (listening_anew self.old) (W.contents output.old) self.new
            (W.contents output.new)) }
        ensures all { OnOk result (self.new.left ≡ 0) }

        // `Lost` comes once all `tries` connections were requested, `SessionLost` if the server lost
        // the session, `Denied` if it denied for good what was asked for.
        ensures ended { IfErr result (IsGivenUp S.opens S.pauses tries
            servers.old servers.new self.old.caller self.new.caller) }
    {
        self.left = self.count;
        for opened in 0..tries {
            let Some(stream) = next_stream(servers, opened) else {
                continue;
            };
            if self.print_over(stream, output)? {
                return Ok(());
            }
        }
        Err(UserClientError::Lost)
    }

    /// Returns what the server denied the client on the last connection, if it did.
    pub fn denial(&self) -> Option<Denial>
        ensures { result ≡ self.now.caller.answers.denial }
    {
        self.caller.answers.denial
    }

    // Prints over one connection. Returns true once all is printed.
    fn print_over<D: Read + Write + Drop, W: Write>(
        &mut self,
        stream: D,
        output: &mut W,
    ) -> Result<bool, UserClientError>
        ensures printed { OnOk result
            (PrintsAccepted self.old (W.contents output.old) self.new (W.contents output.new)) }
        ensures all { IfOk result (λ done. done ≡ true → self.new.left ≡ 0) }
        ensures ended { IfErr result (IsEndedBy self.old.caller self.new.caller) }
    {
        let mut stream = Counted::new(stream);
        let mut buffer = Vec::from_elem(self.alloc, 0u8, PIECE_BYTES)?;
        self.caller.open()?;
        for _ in 0..u64::MAX {
            let is_lost = self.continue_once(&mut stream, buffer.as_mut_slice(), output)?;
            if self.left == 0 {
                disconnect(self.alloc, &mut stream, &mut self.caller);
                return Ok(true);
            }
            if is_lost {
                return Ok(false);
            }
        }
        Ok(false)
    }

    // Does one round of a connection: writes, reads once, and acts on what was read. Returns true
    // if the connection is lost.
    fn continue_once<D: Read + Write, W: Write>(
        &mut self,
        stream: &mut Counted<D>,
        buffer: &mut [u8],
        output: &mut W,
    ) -> Result<bool, UserClientError>
        ensures printed { OnOk result
            (PrintsAccepted self.old (W.contents output.old) self.new (W.contents output.new)) }
        ensures ended { IfErr result (IsEndedBy self.old.caller self.new.caller) }
    {
        let news = exchange(self.alloc, stream, buffer, &mut self.caller)?;
        self.subscribe_and_print(news, output)?;
        Ok(news == News::Lost)
    }

    // Subscribes if the connection is new, and prints what was accepted.
    fn subscribe_and_print<W: Write>(
        &mut self,
        news: News,
        output: &mut W,
    ) -> Result<(), UserClientError>
        ensures printed { OnOk result
            (PrintsAccepted self.old (W.contents output.old) self.new (W.contents output.new)) }
        ensures ended { IfErr result (λ error. ends_client error ≡ false) }
    {
        self.subscribe_if_accepted(news)?;
        self.print_accepted(output)
    }

    // Subscribes if the connection was just accepted and nothing is printed yet: an earlier
    // SUBSCRIBE may have been lost with its connection.
    fn subscribe_if_accepted(&mut self, news: News) -> Result<(), UserClientError>
        ensures asked { OnOk result (PrintsNothing self.old self.new) }
        ensures ended { IfErr result (λ error. ends_client error ≡ false) }
    {
        if !is_to_subscribe(news, self.left, self.count) {
            return Ok(());
        }
        self.caller.subscribe(&self.filter, self.qos)
    }

    // Prints what was accepted, as far as it is left to print.
    fn print_accepted<W: Write>(&mut self, output: &mut W) -> Result<(), UserClientError>
        ensures printed { OnOk result
            (PrintsAccepted self.old (W.contents output.old) self.new (W.contents output.new)) }
        ensures ended { IfErr result (λ error. ends_client error ≡ false) }
    {
        let accepted = self.caller.take_accepted();
        self.left = print_all(self.alloc, accepted.as_slice(), self.left, output)?;
        Ok(())
    }
}

fn is_to_subscribe(news: News, left: u32, count: u32) -> bool {
    news == News::Accepted && left == count
}

// Prints these, as many as are left to print. Returns how many are left then.
fn print_all<W: Write>(
    alloc: Global,
    accepted: &[Accepted],
    left: u32,
    output: &mut W,
) -> Result<u32, UserClientError>
    ensures printed { IfOk result (λ rest.
        Shows accepted.now left rest (W.contents output.old) (W.contents output.new)) }
    ensures ended { IfErr result (λ error. ends_client error ≡ false) }
{
    let mut rest = left;
    for one in accepted {
        rest = print_next(alloc, one, rest, output)?;
    }
    Ok(rest)
}

// Prints one more, if one is left to print.
fn print_next<W: Write>(
    alloc: Global,
    accepted: &Accepted,
    left: u32,
    output: &mut W,
) -> Result<u32, UserClientError>
    ensures printed { IfOk result (λ rest.
        Shows (accepted.now ∷ []) left rest (W.contents output.old) (W.contents output.new)) }
    ensures ended { IfErr result (λ error. ends_client error ≡ false) }
{
    if left == 0 {
        return Ok(0);
    }
    print(alloc, accepted, output)?;
    Ok(left - 1)
}

// Prints one line, and flushes it.
fn print<W: Write>(
    alloc: Global,
    accepted: &Accepted,
    output: &mut W,
) -> Result<(), UserClientError>
    ensures printed { OnOk result
        (Appends (W.contents output.old) (W.contents output.new) (printed_line accepted.now)) }
    ensures ended { IfErr result (λ error. ends_client error ≡ false) }
{
    let mut line = Vec::new(alloc);
    print_line(accepted, &mut line)?;
    if output.write_all(line.as_slice()).is_err() || output.flush().is_err() {
        return Err(UserClientError::Output);
    }
    Ok(())
}
