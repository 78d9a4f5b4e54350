// Calls of a world's client.

ghost use Rattle.std.specs.Prelude.{◌≡◌, [], ◌∷◌};
ghost use Rattle.client_base.specs.Steps.{Call, keeper_step};
ghost use Rattle.world_pipes.specs.ModelSteps.{CallingFollows, FollowsAll};
ghost use Rattle.world_pipes.specs.Piped.{TakesLeave};
ghost use Rattle.world_pipes.specs.clients.SlotsAreValid.{connection_targets};
ghost use Rattle.world_pipes.specs.clients.ClientCalls.{IsCall, LosesConnection};

use crate::{PipedClient, Sending};
use client_base::ClientError;
use packet_base::QoS;
use session_base::Publication;
use topics::Filter;

/// Drops the client's connection, which is lost.
pub fn lose_connection(piped: &mut PipedClient)
    ensures lost { LosesConnection piped.old piped.new }
    ensures goes { FollowsAll piped.old piped.new }
    ensures leads { connection_targets piped.new.pairs
        ≡ connection_targets piped.old.pairs }
{
    piped.abandon();
}

/// Disconnects the client.
pub fn leave(piped: &mut PipedClient) -> Result<Sending, ClientError>
    ensures leaves { TakesLeave (keeper_step Call.Disconnects piped.old.core.state)
        piped.old result piped.new }
    ensures goes { CallingFollows [] piped.old result piped.new }
    ensures leads { connection_targets piped.new.pairs
        ≡ connection_targets piped.old.pairs }
{
    piped.disconnect()
}

/// Publishes a copy of the publication.
pub fn publish_copy(
    piped: &mut PipedClient,
    publication: &Publication,
) -> Result<Sending, ClientError>
    ensures calls { IsCall (Call.Publishes publication.now) piped.old result piped.new }
    ensures goes { CallingFollows (publication.now ∷ []) piped.old result piped.new }
    ensures leads { connection_targets piped.new.pairs
        ≡ connection_targets piped.old.pairs }
{
    let copied = publication.clone()?;
    let retain = copied.retain;
    piped.publish(copied.topic, copied.qos, retain, copied.payload)
}

/// Subscribes to a copy of the filter.
pub fn subscribe_copy(
    piped: &mut PipedClient,
    filter: &Filter,
    qos: QoS,
) -> Result<Sending, ClientError>
    ensures calls { IsCall (Call.Subscribes filter.now qos) piped.old result piped.new }
    ensures goes { CallingFollows [] piped.old result piped.new }
    ensures leads { connection_targets piped.new.pairs
        ≡ connection_targets piped.old.pairs }
{
    let copied = filter.clone()?;
    piped.subscribe(copied, qos)
}

/// Unsubscribes from a copy of the filter.
pub fn unsubscribe_copy(piped: &mut PipedClient, filter: &Filter) -> Result<Sending, ClientError>
    ensures calls { IsCall (Call.Unsubscribes filter.now) piped.old result piped.new }
    ensures goes { CallingFollows [] piped.old result piped.new }
    ensures leads { connection_targets piped.new.pairs
        ≡ connection_targets piped.old.pairs }
{
    let copied = filter.clone()?;
    piped.unsubscribe(copied)
}
