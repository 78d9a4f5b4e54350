// Opening and ending a client's connection.

ghost use Rattle.std.specs.Prelude.{◌≡◌, false, []};
ghost use Rattle.client_base.specs.Steps.{Call, keeper_step};
ghost use Rattle.world_pipes.specs.ModelSteps.{CallingFollows, ConnectingFollows};
ghost use Rattle.world_pipes.specs.Piped.{SendsConnect, TakesLeave, is_holding, taken_back};

use crate::pair::PipePair;
use crate::piped_client::PipedClient;
use crate::sending::{Sending, send_up};
use client_base::ClientError;
use world_base::node_connections::Port;

impl PipedClient {
    /// Opens a connection to the node at index `node`, under this port: a CONNECT is then in
    /// transit. The client must hold no connection. Fails only with `Memory`, and then there is no
    /// new one.
    pub fn open(&mut self, node: usize, port: Port) -> Result<(), ClientError>
        requires { is_holding self.old ≡ false }
        ensures opens { SendsConnect node port
            (keeper_step Call.Opens self.old.core.state) self.old result self.new }
        ensures goes { ConnectingFollows node port self.old result self.new }
    {
        self.connect(node, port)
    }

    // Opens a connection; the client holds none before.
    fn connect(&mut self, node: usize, port: Port) -> Result<(), ClientError>
        requires { is_holding self.old ≡ false }
        ensures { SendsConnect node port
            (keeper_step Call.Opens self.old.core.state) self.old result self.new }
    {
        let mut pair = PipePair::new(self.alloc, node, port);
        self.pairs.reserve(1)?;
        self.core.open()?;
        if let Err(error) = pair.up.follow(&mut self.core) {
            self.core.lost();
            return Err(error);
        }
        self.pairs.push_reserved(pair);
        self.holds = true;
        Ok(())
    }

    /// Removes the newest connection, which its node did not accept: nothing is left of it, and the
    /// client holds none.
    pub fn take_back(&mut self)
        ensures { self.new ≡ taken_back self.old }
    {
        self.pairs.pop();
        self.core.lost();
        self.holds = false;
    }

    /// Ends the connection, with a DISCONNECT if the server has accepted it. Fails with `NotActive`
    /// exactly if there is none; a refusal, and `Memory`, change nothing.
    pub fn disconnect(&mut self) -> Result<Sending, ClientError>
        ensures leaves { TakesLeave
            (keeper_step Call.Disconnects self.old.core.state) self.old result self.new }
        ensures goes { CallingFollows [] self.old result self.new }
    {
        self.core.disconnect()?;
        let sending = send_up(&mut self.core, &mut self.pairs, &mut self.holds);
        self.holds = false;
        Ok(sending)
    }
}
