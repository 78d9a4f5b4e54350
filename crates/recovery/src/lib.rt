//! Recovery: from any reachable state of a group or a world, the messages and events that lead to
//! an active ballot and a client that is online again. `replicas` is about replicas alone,
//! `one_node` about one node with its connections, `one_client` about the client.
#![tactic(auto)]

pub mod one_client;
pub mod one_node;
pub mod replicas;
