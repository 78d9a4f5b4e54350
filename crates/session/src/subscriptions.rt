// The subscriptions of a session (MQTT 3.8.4, 3.10.4).

ghost use Rattle.std.specs.Prelude.{◌≡◌, [], true, IsOk, OnOk, OnErr, length};
ghost use Rattle.session_base.specs.Subscriptions.{is_subscribed, with_subscription};
ghost use Rattle.session_base.specs.Subscriptions.{without_filter, granted_qos};

use indexmap::IndexMap;
use packet_base::QoS;
use std::alloc::{AllocError, Global};
use std::marker::Model;
use topics::{Filter, TopicName, matches};

/// Filters with the QoS that was granted last, in the order in which they were first granted.
#[derive(Drop)]
pub(crate) struct Subscriptions {
    /// A filter that is granted again keeps its place and gets the new QoS.
    pub(crate) filters: IndexMap<Filter, QoS>,
}

impl Model for Subscriptions {
    ghost use Rattle.std.specs.Prelude.{List};
    ghost use Rattle.session_base.specs.Subscriptions.{GrantedSubscription};

    ghost Value = { List GrantedSubscription };

    ghost view = { λ subscriptions. subscriptions.filters.entries };
}

impl Subscriptions {
    /// Returns an empty list.
    pub(crate) fn new(alloc: Global) -> Subscriptions
        ensures { result ≡ [] }
    {
        Subscriptions {
            filters: IndexMap::new(alloc),
        }
    }

    /// Returns the number of filters.
    pub(crate) fn len(&self) -> usize
        ensures { result ≡ length self.now }
    {
        self.filters.len()
    }

    /// Returns all filters with their QoS.
    pub(crate) fn all(&self) -> &IndexMap<Filter, QoS>
        ensures { result.now.entries ≡ self.now }
    {
        &self.filters
    }

    /// Returns true if the filter is among them.
    pub(crate) fn contains(&self, filter: &Filter) -> bool
        ensures { result ≡ is_subscribed filter.now self.now }
    {
        self.filters.contains_key(filter)
    }

    /// Sets a filter: an identical one keeps its place and gets the new QoS, a new one is appended.
    pub(crate) fn set(&mut self, filter: Filter, qos: QoS) -> Result<(), AllocError>
        ensures ok { OnOk result (self.new ≡ with_subscription (filter, qos) self.old) }
        ensures err { OnErr result (self.new ≡ self.old) }
        ensures subscribed { is_subscribed filter self.old ≡ true → IsOk result }
    {
        self.filters.insert(filter, qos)?;
        Ok(())
    }

    /// Removes the filter, if it is there. Takes no memory.
    pub(crate) fn remove(&mut self, filter: &Filter)
        ensures { self.new ≡ without_filter filter.now self.old }
    {
        self.filters.retain(|granted, _qos| !(*filter == *granted));
    }

    /// Returns the greatest QoS of the filters that match the topic, if any does.
    #[tactic(auto, using(crate::proofs::GreatestOfAll::one_more))]
    pub(crate) fn granted(&self, topic: &TopicName) -> Option<QoS>
        ensures { result ≡ granted_qos topic.now self.now }
    {
        let mut best = None;
        for (filter, qos) in &self.filters {
            if matches(filter, topic) {
                best = Some(qos.greater(best));
            }
        }
        best
    }
}
