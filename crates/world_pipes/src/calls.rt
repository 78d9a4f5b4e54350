// A client's calls.

ghost use Rattle.std.specs.Prelude.{◌≡◌, [], ◌∷◌};
ghost use Rattle.client.specs.Core.{publication_with};
ghost use Rattle.client_base.specs.Steps.{Call, keeper_step};
ghost use Rattle.world_pipes.specs.ModelSteps.{CallingFollows};
ghost use Rattle.world_pipes.specs.Piped.{Calls};

use crate::piped_client::PipedClient;
use crate::sending::{Sending, send_up};
use client_base::ClientError;
use packet_base::{Payload, QoS};
use topics::{Filter, TopicName};

impl PipedClient {
    /// Publishes, as `ClientCore::publish`. A refusal changes nothing.
    pub fn publish(
        &mut self,
        topic: TopicName,
        qos: QoS,
        retain: bool,
        payload: Payload,
    ) -> Result<Sending, ClientError>
        ensures calls { let call = Call.Publishes (publication_with retain qos topic payload) in
            Calls (keeper_step call self.old.core.state) self.old result self.new }
        ensures goes { CallingFollows (publication_with retain qos topic payload ∷ [])
            self.old result self.new }
    {
        let _known = topic.as_str();
        self.core.publish(topic, qos, retain, payload)?;
        Ok(send_up(&mut self.core, &mut self.pairs, &mut self.holds))
    }

    /// Subscribes to a filter, as `ClientCore::subscribe`. A refusal changes nothing.
    pub fn subscribe(&mut self, filter: Filter, qos: QoS) -> Result<Sending, ClientError>
        ensures calls { Calls (keeper_step (Call.Subscribes filter qos) self.old.core.state)
            self.old result self.new }
        ensures goes { CallingFollows [] self.old result self.new }
    {
        let _known = filter.as_str();
        self.core.subscribe(filter, qos)?;
        Ok(send_up(&mut self.core, &mut self.pairs, &mut self.holds))
    }

    /// Unsubscribes from a filter. Refused as `subscribe` is.
    pub fn unsubscribe(&mut self, filter: Filter) -> Result<Sending, ClientError>
        ensures calls { Calls (keeper_step (Call.Unsubscribes filter) self.old.core.state)
            self.old result self.new }
        ensures goes { CallingFollows [] self.old result self.new }
    {
        let _known = filter.as_str();
        self.core.unsubscribe(filter)?;
        Ok(send_up(&mut self.core, &mut self.pairs, &mut self.holds))
    }
}
