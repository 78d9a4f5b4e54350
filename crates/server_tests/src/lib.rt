//! Tests of what serves: inboxes, connections over devices that fail, nodes and what goes between
//! them, and servers over sockets, with threads of their own and with nodes held at gates.
#![tactic(auto)]

#[cfg(test)]
mod clients;
#[cfg(test)]
mod engines;
#[cfg(test)]
mod gates;
#[cfg(test)]
mod inboxes;
#[cfg(test)]
mod nodes;
#[cfg(test)]
mod opened_run;
#[cfg(test)]
mod over_links;
#[cfg(test)]
mod posts;
#[cfg(test)]
mod tests;
