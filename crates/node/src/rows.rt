// Worked examples of limits. The functions do nothing; their contracts are the examples.

ghost use Rattle.std.specs.Prelude.{◌≡◌};
ghost use Rattle.mailbox.specs.declared.lane.TheConstants.{MAX_SENT};
ghost use Rattle.mailbox.specs.declared.limits.TheConstants.{MAX_ITEMS, MAX_LANES};
ghost use Rattle.node.specs.declared.cut_times.TheConstants.{TICKS_A_CUT};
ghost use Rattle.node.specs.declared.growth.TheConstants.{MAX_UNCUT_BYTES};
ghost use Rattle.node.specs.declared.intake.TheConstants.{MAX_IN_TRANSIT, MAX_OPEN, MAX_OPEN_BYTES};
ghost use Rattle.node.specs.declared.overdue.TheConstants.{FIRST_PACKET_MILLIS};

/// Shows the limits of a node's inbox: 1,024 items that wait, 64 lanes, and 2^55 items that a lane
/// sends.
pub fn numbers_of_an_inbox()
    ensures items { MAX_ITEMS ≡ 1024 }
    ensures lanes { MAX_LANES ≡ 64 }
    ensures sent { MAX_SENT ≡ 36028797018963968 }
{}

/// Shows the limits of a node's intake: 4,096 open places, 64 MiB that are not known to be agreed,
/// and 256 KiB in transit.
pub fn numbers_of_the_intake()
    ensures places { MAX_OPEN ≡ 4096 }
    ensures open { MAX_OPEN_BYTES ≡ 67108864 }
    ensures transit { MAX_IN_TRANSIT ≡ 262144 }
{}

/// Shows a node's times: a cut each fifty ticks or after 16 MiB, and ten seconds for the first
/// packet.
pub fn numbers_of_times()
    ensures cut { TICKS_A_CUT ≡ 50 }
    ensures uncut { MAX_UNCUT_BYTES ≡ 16777216 }
    ensures packet { FIRST_PACKET_MILLIS ≡ 10000 }
{}
