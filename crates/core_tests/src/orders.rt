// Which of two faults counts, what a rule leaves out, and which messages of the protocol change
// nothing. The calls do nothing; their contracts are the rows.

ghost use Rattle.core_tests.specs.Orders.{CleanConnectsFindNothing, FirstFaultsOfTexts};
ghost use Rattle.core_tests.specs.Orders.{FullSessionTakesQoS0, WildcardsHideFromDollar};
ghost use Rattle.core_tests.specs.Orders.{CommitsOverTheLengthAreNothing, InstalledAgainIsNothing};
ghost use Rattle.core_tests.specs.Orders.{LateHeldsLowerNothing, ShortConnectsHaveAnotherProtocol};

use machine::Machine;

/// Shows which of two faults of a filter, of an identifier and of a CONNECT counts (MQTT 3.1.2.1,
/// 3.1.3.1, 4.7.1.2).
pub fn first_faults_of_texts()
    ensures texts { FirstFaultsOfTexts }
    ensures connects { ShortConnectsHaveAnotherProtocol }
{}

/// Shows that filters which begin with `#` or `+` match no topic that begins with `$` (MQTT 4.7.2).
pub fn wildcards_hide_from_dollar()
    ensures { WildcardsHideFromDollar }
{}

/// Shows that a publication at QoS 0 needs no room in a session.
pub fn full_sessions_take_qos_0()
    ensures { FullSessionTakesQoS0 }
{}

/// Shows that a clean CONNECT is told that no session is present, also if it ends one (MQTT
/// 3.2.2.2).
pub fn clean_connects_find_nothing()
    ensures { CleanConnectsFindNothing }
{}

/// States that these change nothing at a replica: a Held that comes late, a Commit of more places
/// than its log has, and an Installed that comes again.
pub fn late_messages_change_nothing<M: Machine>()
    ensures held { LateHeldsLowerNothing M.rules }
    ensures commits { CommitsOverTheLengthAreNothing M.rules }
    ensures installed { InstalledAgainIsNothing M.rules }
{}
