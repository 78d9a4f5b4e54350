// Checks of a client's texts, before the first connection.

ghost use Rattle.std.specs.Prelude.{◌≡◌, None, IfErr, IfOk, OnOk};
ghost use Rattle.packet_base.specs.ClientId.{client_fault};
ghost use Rattle.topics.specs.Text.{filter_fault, topic_fault};
ghost use Rattle.user_client.specs.Refusals.{IsRefusedBy};

use crate::user_client_error::UserClientError;
use packet_base::ClientId;
use std::alloc::Global;
use topics::{Filter, TopicName};

/// Returns the text as a Client Identifier. Fails with its first fault, or if memory ran out.
pub(crate) fn checked_id(alloc: Global, text: &str) -> Result<ClientId, UserClientError>
    ensures value { IfOk result (λ id. id ≡ text.now) }
    ensures ok { OnOk result (client_fault text.now ≡ None) }
    ensures err { IfErr result (IsRefusedBy (client_fault text.now)) }
{
    match ClientId::new(alloc, text) {
        Ok(id) => Ok(id),
        Err(kind) => Err(UserClientError::from(kind)),
    }
}

/// Returns the text as a Topic Name. Fails with its first fault, or if memory ran out.
pub(crate) fn checked_topic(alloc: Global, text: &str) -> Result<TopicName, UserClientError>
    ensures value { IfOk result (λ topic. topic ≡ text.now) }
    ensures ok { OnOk result (topic_fault text.now ≡ None) }
    ensures err { IfErr result (IsRefusedBy (topic_fault text.now)) }
{
    match TopicName::new(alloc, text) {
        Ok(topic) => Ok(topic),
        Err(kind) => Err(UserClientError::from(kind)),
    }
}

/// Returns the text as a Topic Filter. Fails with its first fault, or if memory ran out.
pub(crate) fn checked_filter(alloc: Global, text: &str) -> Result<Filter, UserClientError>
    ensures value { IfOk result (λ filter. filter ≡ text.now) }
    ensures ok { OnOk result (filter_fault text.now ≡ None) }
    ensures err { IfErr result (IsRefusedBy (filter_fault text.now)) }
{
    match Filter::new(alloc, text) {
        Ok(filter) => Ok(filter),
        Err(kind) => Err(UserClientError::from(kind)),
    }
}
