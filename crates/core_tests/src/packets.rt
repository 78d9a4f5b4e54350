// Texts, packets and streams: what is printed, orders, and bytes that are there before a packet.

mod refusals;
mod values;
mod writing;
