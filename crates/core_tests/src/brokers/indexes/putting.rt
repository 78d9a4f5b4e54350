// What a client's filters are once others are put in their place.

use packet_base::{ClientId, QoS};
use std::alloc::Global;
use std::collections::BTreeMap;
use subs_base::{ListIndex, SubIndex};
use topics::Filter;

// Puts one filter of a client, and then none. Returns how many clients had one after each; none if
// memory ran out.
fn clients_after(alloc: Global) -> Option<(usize, usize)> {
    let client = ClientId::new(alloc, "a").ok()?;
    let mut filters = BTreeMap::new(alloc);
    filters
        .insert(Filter::new(alloc, "t").ok()?, QoS::AtMostOnce)
        .ok()?;
    let mut index = ListIndex::new(alloc);
    index.put(&client, filters).ok()?;
    let with_one = index.clients().len();
    index.put(&client, BTreeMap::new(alloc)).ok()?;
    Some((with_one, index.clients().len()))
}

#[test]
fn filters_that_are_put_replace_those_before(rt: HostRuntime) {
    assert_eq!(rt; clients_after(rt.alloc()), Some((1, 0)));
}
