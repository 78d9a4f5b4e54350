//! The fields of MQTT packets (MQTT 3.1.1, sections 1.5 and 2): a reader over the unread bytes of a
//! packet, and functions that append a field to a vector.
#![tactic(auto)]

mod client_id;
mod field_writers;
mod header;
mod item;
mod packet_id;
mod packet_list;
mod payload;
mod qos;
mod reader;
mod refusal_code;
mod remaining_length;
mod rows;
mod stop;

pub use client_id::{ClientId, has_client_length};
pub use field_writers::{put_byte, put_bytes, put_number, put_text};
pub use header::{DeliveryFlags, Header};
pub use item::ListItem;
pub use packet_id::PacketId;
pub use packet_list::PacketList;
pub use payload::Payload;
pub use qos::QoS;
pub use reader::Reader;
pub use refusal_code::RefusalCode;
pub use remaining_length::{length_size, put_length, take_length};
pub use rows::numbers_of_fields;
pub use stop::{OUT_OF_MEMORY, Stop};
