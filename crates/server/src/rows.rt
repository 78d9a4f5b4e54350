// Worked examples of limits. The function does nothing; its contract is the examples.

ghost use Rattle.std.specs.Prelude.{◌≡◌};
ghost use Rattle.streams.specs.declared.limits.TheConstants.{MAX_CONNECTIONS};
ghost use Rattle.server.specs.declared.node_threads.lane_threads.TheConstants.{
  MAX_CONNECTIONS_OF_LANE,
};
ghost use Rattle.server.specs.declared.node_threads.own_thread.TheConstants.{TICK_MILLIS};

/// Shows a node's limits: sixty connections at once, 2^56 on one lane in its life, and a tick each
/// 200 milliseconds.
pub fn numbers_of_a_server()
    ensures at_once { MAX_CONNECTIONS ≡ 60 }
    ensures lane { MAX_CONNECTIONS_OF_LANE ≡ 72057594037927936 }
    ensures tick { TICK_MILLIS ≡ 200 }
{}
