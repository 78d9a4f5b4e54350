// The two clients over TCP.

ghost use Rattle.std.specs.Prelude.{◌≡◌, IfErr, OnOk};
ghost use Rattle.jobs.specs.Done.{PrintsAll};
ghost use Rattle.jobs.specs.Failures.{CanPublish, CanSubscribe, FailsToPublish, FailsToSubscribe};

use crate::job_error::JobError;
use crate::loss_cause::LossCause;
use command_line::{Publish, Subscribe};
use std::alloc::Global;
use std::io::{ErrorKind, Write};
use std::net::{Net, TcpStream};
use std::time::{Clock, Duration};
use std::{io, thread};
use user_client::{Denial, Publisher, Servers, Subscriber, UserClientError};

/// How long a client waits after a lost connection, in milliseconds.
const PAUSE_MILLIS: u64 = 200;

// The servers at these addresses, tried in turn.
#[derive(Drop)]
struct TcpServers<'a, R> {
    // Connects to them, and sleeps.
    rt: &'a R,
    // In the order in which they are tried.
    addresses: &'a [&'a str],
    // The index of the address to try next; 0 after the last.
    next: usize,
    // The address that was tried last, and why no connection to it could be opened, if so.
    failed: Option<(&'a str, ErrorKind)>,
}

impl<'a, R> TcpServers<'a, R> {
    fn new(rt: &'a R, addresses: &'a [&'a str]) -> TcpServers<'a, R> {
        TcpServers {
            rt,
            addresses,
            next: 0,
            failed: None,
        }
    }
}

impl<'a, R: Net<Stream = TcpStream> + Clock> Servers for TcpServers<'a, R> {
    ghost opens = { λ _ _. Unit {0} };

    ghost pauses = { λ _ _. Unit {0} };

    type Stream = TcpStream;

    fn open(&mut self) -> Option<TcpStream> {
        let address = *self.addresses.get(self.next).or(self.addresses.first())?;
        self.next = self.next.saturating_add(1);
        if self.next >= self.addresses.len() {
            self.next = 0;
        }
        match connect(self.rt, address) {
            Ok(stream) => {
                self.failed = None;
                Some(stream)
            }
            Err(error) => {
                self.failed = Some((address, error.kind()));
                None
            }
        }
    }

    fn pause(&mut self) {
        thread::sleep(self.rt, Duration::from_millis(PAUSE_MILLIS));
    }
}

fn connect<R: Net<Stream = TcpStream>>(rt: &R, address: &str) -> io::Result<TcpStream> {
    let stream = TcpStream::connect(rt, address)?;
    stream.set_nodelay(true)?;
    Ok(stream)
}

/// Publishes once, and waits until that is acknowledged. Tries the addresses in turn. The clauses
/// are about the words of the job alone: none says that anything is sent.
pub fn publish<R>(rt: &R, job: &Publish<'_>) -> Result<(), JobError>
where
    R: Clock + AllocGlobal + Net<Stream = TcpStream>,
    ensures ok { OnOk result (CanPublish job.now) }
    ensures refused { IfErr result (FailsToPublish job.now) }
{
    let mut publisher = Publisher::new(
        rt.alloc(),
        job.id,
        job.topic,
        job.qos,
        job.retain,
        job.message,
    )?;
    let mut servers = TcpServers::new(rt, job.addresses.as_slice());
    match publisher.run(&mut servers, job.tries) {
        Ok(()) => Ok(()),
        Err(error) => Err(failure(rt.alloc(), error, servers.failed, publisher.denial())),
    }
}

/// Prints publications, a line each, until as many were printed as the job's `count`. Tries the
/// addresses in turn. No clause says that a server sent them.
pub fn subscribe<R, O>(rt: &R, job: &Subscribe<'_>, output: &mut O) -> Result<(), JobError>
where
    R: Clock + AllocGlobal + Net<Stream = TcpStream>,
    O: Write + Drop,
    ensures ok { OnOk result (CanSubscribe job.now) }
    ensures printed { OnOk result
        (PrintsAll job.now.id.now job.now.count (O.contents output.old) (O.contents output.new)) }

    // Words that are refused print nothing.
    ensures refused { IfErr result (FailsToSubscribe job.now) }
    ensures untouched { (CanSubscribe job.now → ⊥)
        → O.contents output.new ≡ O.contents output.old }
{
    let mut subscriber = Subscriber::new(rt.alloc(), job.id, job.filter, job.qos, job.count)?;
    let mut servers = TcpServers::new(rt, job.addresses.as_slice());
    match subscriber.run(&mut servers, output, job.tries) {
        Ok(()) => Ok(()),
        Err(error) => Err(failure(rt.alloc(), error, servers.failed, subscriber.denial())),
    }
}

// Returns the error of a client. One that lost all its connections has the cause of the last: the
// address that could not be reached, or the server's denial.
fn failure(
    alloc: Global,
    error: UserClientError,
    failed: Option<(&str, ErrorKind)>,
    denial: Option<Denial>,
) -> JobError {
    match (error, failed, denial) {
        (UserClientError::Lost, Some((address, kind)), _) => match String::from_str(
            alloc, address,
        ) {
            Ok(address) => JobError::Lost(LossCause::Address(address, kind)),
            Err(_) => JobError::Memory,
        },
        (UserClientError::Lost, None, Some(Denial::Connack(code))) => {
            JobError::Lost(LossCause::Connack(code))
        }
        (error, _, _) => JobError::from(error),
    }
}
