// What a command line asks for.

use packet_base::QoS;

/// The job that a command line asks for: a subcommand with its values. The texts are the user's
/// words.
#[derive(Debug, Drop)]
pub enum Job<'a> {
    /// Serves clients.
    Serve(Serve<'a>),
    /// Publishes once.
    Publish(Publish<'a>),
    /// Prints publications.
    Subscribe(Subscribe<'a>),
    /// Plays a script.
    Play(Play<'a>),
}

/// The words of `serve`.
#[derive(Debug, Drop)]
pub struct Serve<'a> {
    /// The file with the table of nodes.
    pub config: &'a str,
    /// Which lines are told on standard error: `off`, `error`, `warn`, `info` or `debug`. It is not
    /// checked here.
    pub log: &'a str,
    /// The address at which a monitor may ask over HTTP, which is not checked here; none for no such
    /// address.
    pub admin: Option<&'a str>,
}

/// The words of `pub`.
#[derive(Debug, Drop)]
pub struct Publish<'a> {
    /// The Client Identifier, which is not checked here.
    pub id: &'a str,
    /// The Topic Name, which is not checked here.
    pub topic: &'a str,
    /// The QoS at which it is published.
    pub qos: QoS,
    /// The payload.
    pub message: &'a str,
    /// The RETAIN flag: whether a server keeps it for later subscribers.
    pub retain: bool,
    /// How many connections are opened at most, 1 to 1,000.
    pub tries: u32,
    /// The addresses of servers, at least one; they are not checked here.
    pub addresses: Vec<&'a str>,
}

/// The words of `sub`.
#[derive(Debug, Drop)]
pub struct Subscribe<'a> {
    /// The Client Identifier, which is not checked here.
    pub id: &'a str,
    /// The Topic Filter, which is not checked here.
    pub filter: &'a str,
    /// The greatest QoS that is requested.
    pub qos: QoS,
    /// How many publications are printed, 1 to 1,000,000.
    pub count: u32,
    /// How many connections are opened at most, 1 to 1,000.
    pub tries: u32,
    /// The addresses of servers, at least one; they are not checked here.
    pub addresses: Vec<&'a str>,
}

/// The words of `play`.
#[derive(Debug, Drop)]
pub struct Play<'a> {
    /// The file with the script; none for standard input.
    pub script: Option<&'a str>,
    /// The recovery to print in place of the transcript, if the words ask for one.
    pub escape: Option<Escape<'a>>,
}

/// The words for a recovery of the world in which a script ends.
#[derive(Debug, Drop)]
pub struct Escape<'a> {
    /// The members of the next ballot, with commas between them; they are not checked here.
    pub members: &'a str,
    /// The Client Identifier, which is not checked here.
    pub client: &'a str,
}
