// What goes over a link.

ghost use Rattle.std.specs.Prelude.{◌≡◌};
ghost use Rattle.links.specs.Ways.{fault_of, notice_fault, sender_of};

use ballot_base::{Message, Status};
use broker_spec::Command;
use packet_base::ClientId;

/// What goes over a link between two nodes, or between a node and the master.
#[derive(Drop)]
pub enum Parcel {
    /// A message of the protocol.
    Message(Message<Command>),
    /// The master tells a node its number.
    Welcome(u8),
    /// A node reports its status.
    Report(Status),
    /// The master passes on the order to end a client's session.
    Expel(ClientId),
    /// The master passes on the order to crash.
    Crash,
}

/// Which way parcels go over a link. The number is that of the node that sends them.
#[derive(Clone, Copy, Debug, PartialEq, Eq)]
pub enum Way {
    /// From a node to another.
    NodeToNode(u8),
    /// From a node to the master.
    NodeToMaster(u8),
    /// From the master to a node.
    MasterToNode,
}

/// Why a parcel may not come this way.
#[derive(Clone, Copy, Debug, PartialEq, Eq)]
pub enum WayFault {
    /// A message names another sender than the node at the other end.
    Sender,
    /// A notice that goes another way.
    Notice,
}

impl Way {
    /// Returns why a parcel may not come this way, if it may not.
    pub fn fault_of(self, parcel: &Parcel) -> Option<WayFault>
        ensures { result ≡ fault_of self parcel.now }
    {
        match parcel {
            Parcel::Message(message) => {
                if message.from == self.sender() {
                    None
                } else {
                    Some(WayFault::Sender)
                }
            }
            notice => self.notice_fault(notice),
        }
    }

    /// Returns the number of the end that sends; the master has 0.
    pub fn sender(self) -> u8
        ensures { result ≡ sender_of self }
    {
        match self {
            Way::NodeToNode(number) | Way::NodeToMaster(number) => number,
            Way::MasterToNode => 0,
        }
    }

    // Returns why a notice may not come this way, if it may not.
    fn notice_fault(self, notice: &Parcel) -> Option<WayFault>
        ensures { result ≡ notice_fault self notice.now }
    {
        match (self, notice) {
            (Way::NodeToMaster(_), Parcel::Report(_))
            | (Way::MasterToNode, Parcel::Welcome(_) | Parcel::Expel(_) | Parcel::Crash) => None,
            _ => Some(WayFault::Notice),
        }
    }
}
