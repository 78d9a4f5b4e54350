// What is known of a broker when a request comes.

ghost use Rattle.std.specs.Prelude.{◌≡◌};
ghost use Rattle.admin.specs.View.{primary_held, role_text};

/// What a node does.
#[derive(Clone, Copy, Debug, PartialEq, Eq)]
pub enum Role {
    /// It serves the clients of the active ballot.
    Primary,
    /// It holds what the primary of its ballot sends.
    Backup,
    /// It is about to become the primary, and asks members for their logs.
    Fetching,
    /// It is about to become the primary, and sends its log to the members.
    Installing,
    /// It has no ballot yet.
    None,
    /// It stopped: by an order, or because memory ran out.
    Crashed,
}

impl Role {
    /// Returns its word, as in the answer to the order `status`.
    pub fn text(self) -> &'static str
        ensures { result.now ≡ role_text self }
    {
        match self {
            Role::Primary => "primary",
            Role::Backup => "backup",
            Role::Fetching => "fetching",
            Role::Installing => "installing",
            Role::None => "none",
            Role::Crashed => "crashed",
        }
    }
}

/// The active ballot.
#[derive(Drop)]
pub struct ActiveBallot {
    pub number: u64,
    /// In rising order.
    pub members: Vec<u8>,
    pub primary: u8,
}

/// The status of a node.
#[derive(Clone, Copy)]
pub struct NodeLine {
    pub number: u8,
    pub ballot: u64,
    pub role: Role,
    /// Is it a member of the active ballot?
    pub is_member: bool,
    /// How many commands it holds.
    pub held: u64,
    /// Of how many it knows that all members hold them.
    pub committed: u64,
}

/// A session.
#[derive(Drop)]
pub struct SessionLine {
    pub client: String,
    /// How long its client has been connected; `None` if it is away.
    pub connected_seconds: Option<u64>,
    /// How many messages are in its queue, those in flight among them.
    pub queued: u64,
    /// How many messages its client has not answered.
    pub in_flight: u64,
    pub subscriptions: u64,
}

/// A connection.
#[derive(Drop)]
pub struct ConnectionLine {
    /// `None` before its CONNECT.
    pub client: Option<String>,
    pub node: u8,
    pub connected_seconds: u64,
    /// How many bytes wait until its client reads them.
    pub unread_bytes: u64,
}

/// How many there are, and how many there may be.
#[derive(Clone, Copy)]
pub struct Filled {
    pub count: u64,
    pub limit: u64,
}

/// How often an order was refused with this number.
#[derive(Clone, Copy)]
pub struct RefusalCount {
    pub number: u8,
    pub count: u64,
}

/// What orders did since the program started.
#[derive(Drop)]
pub struct OrderCounts {
    pub takeovers: u64,
    /// One for each number that came.
    pub refusals: Vec<RefusalCount>,
}

/// Counts since the program started, and levels.
#[derive(Clone, Copy)]
pub struct Counters {
    pub connections: Filled,
    pub sessions: Filled,
    pub retained: Filled,
    /// The longest queue of a session.
    pub queue: Filled,
    pub publications: u64,
    /// In how many steps memory ran out.
    pub losses: u64,
    /// Bytes of clients.
    pub received_bytes: u64,
    /// Bytes for clients.
    pub sent_bytes: u64,
}

/// What only a look into the nodes shows.
#[derive(Drop)]
pub struct Details {
    /// By rising identifier.
    pub sessions: Vec<SessionLine>,
    pub connections: Vec<ConnectionLine>,
    pub counters: Counters,
}

/// What is known of a broker.
#[derive(Drop)]
pub struct AdminView {
    /// `None` before the first ballot is active.
    pub active: Option<ActiveBallot>,
    /// In the order of their numbers.
    pub nodes: Vec<NodeLine>,
    pub orders: OrderCounts,
    /// `None` if nobody looked into the nodes.
    pub details: Option<Details>,
}

impl AdminView {
    // Returns how many commands the active primary holds; `None` if there is none.
    pub(crate) fn primary_held(&self) -> Option<u64>
        ensures { result ≡ primary_held self.now }
    {
        for node in &self.nodes {
            if node.role == Role::Primary {
                return Some(node.held);
            }
        }
        None
    }
}
