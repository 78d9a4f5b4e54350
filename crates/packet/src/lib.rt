//! MQTT 3.1.1 Control Packets and their bytes: `decode` reads the packet at the front of a slice,
//! `encode` appends a packet to a vector.
#![tactic(auto)]

mod connack;
mod connect;
mod decoder;
mod delivery;
mod encoder;
mod error;
mod id_alone;
mod packet;
mod publish;
mod rows;
mod suback;
mod subscribe;
mod theorems;
mod unsubscribe;

pub use connack::Connack;
pub use connect::Connect;
pub use decoder::{Step, decode};
pub use delivery::Delivery;
pub use encoder::encode;
pub use error::{DecodeFault, EncodeFault};
pub use packet::{MAX_BODY, Packet};
pub use packet_base::{ClientId, PacketId, PacketList, Payload, QoS, RefusalCode};
pub use publish::Publish;
pub use rows::{first_fault_counts, numbers_of_packets};
pub use suback::{Suback, SubackCode};
pub use subscribe::{Subscribe, Subscription};
pub use theorems::{
    faults_stay, fronts_are_unfinished, no_spelling_begins_another, one_spelling, spelling_spells,
};
pub use unsubscribe::Unsubscribe;
