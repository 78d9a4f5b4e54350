// Carrying bytes to a client.

ghost use Rattle.std.specs.Prelude.{◌≡◌, ◌≤◌, ◌<◌, ◌-◌, true, length, slice_get, IfSome};
ghost use Rattle.world_pipes.specs.Piped.{CarriesDown, is_holding, piped};
ghost use Rattle.world_pipes.specs.ModelSteps.{FollowsAll};
ghost use Rattle.world_pipes.specs.Inside.{CarriesToClient, stays_open};

use crate::pair::PipePair;
use crate::piped_client::PipedClient;
use crate::sending::move_up;
use client::ClientCore;
use client_base::ClientError;

impl PipedClient {
    /// Carries the first `count` bytes in transit on the newest connection, which the client holds,
    /// to the client, and sends its answers. Returns what `ClientCore::on_bytes` returns, and
    /// `Memory` also if memory runs out for those answers. After `Ok` and `SessionLost` the client
    /// still holds the connection; otherwise it is lost.
    pub fn carry_down(&mut self, count: usize) -> Result<(), ClientError>
        requires open { is_holding self.old ≡ true }
        requires count { IfSome (slice_get self.old.pairs (length self.old.pairs - 1))
            (λ pair. count ≤ length pair.down) }
        ensures carries { CarriesDown count self.old result self.new }
        ensures goes { FollowsAll self.old self.new }
    {
        let answer = carry_down_on(&mut self.core, &mut self.pairs, count);
        self.holds = stays_open(answer);
        answer
    }
}

// Carries the first `count` bytes of the newest connection to a client, and sends its answers.
fn carry_down_on(
    core: &mut ClientCore,
    pairs: &mut Vec<PipePair>,
    count: usize,
) -> Result<(), ClientError>
    requires some { 0 < length pairs.old.items }
    requires count { IfSome (slice_get pairs.old.items (length pairs.old.items - 1))
        (λ pair. count ≤ length pair.down) }
    ensures { CarriesDown count (piped core.old pairs.old.items) result
        (piped core.new pairs.new.items) }
{
    let newest = pairs.len() - 1;
    let read = carry_to_client(core, &mut pairs[newest], count);
    if let Err(error) = move_up(core, pairs) {
        core.lost();
        return Err(error);
    }
    read
}

fn carry_to_client(
    core: &mut ClientCore,
    pair: &mut PipePair,
    count: usize,
) -> Result<(), ClientError>
    requires { count ≤ length pair.old.down }
    ensures { CarriesToClient count core.old pair.old result core.new pair.new }
{
    let read = core.on_bytes(&pair.down.as_slice()[..count]);
    pair.down.take(count);
    read
}

// Returns true if a client keeps its connection after this answer to bytes that arrived on it.
fn stays_open(read: Result<(), ClientError>) -> bool
    ensures { result ≡ stays_open read }
{
    match read {
        Ok(()) | Err(ClientError::SessionLost) => true,
        Err(_) => false,
    }
}
