// Theorems about a Connect on a connection that is no client's current one, and about a Start. The
// functions do nothing; their contracts are the theorems.

ghost use Rattle.broker_base.specs.rows.ConnectTheorems.{BeginningStep, ResumingStep, FullStep};
ghost use Rattle.broker_base.specs.rows.ConnectTheorems.{InsertionWrites, StartStep};

/// States that an accepted Connect inserts its client's session, which begins empty or continues,
/// and leaves every other session (MQTT 3.1.2.4, 3.1.4, 4.4).
pub fn connect_steps()
    ensures begins { BeginningStep }
    ensures resumes { ResumingStep }
{}

/// States that a Connect that would exceed the limit of sessions is answered with CONNACK 3 and a
/// Close, and changes nothing (MQTT 3.2.2.3).
pub fn full_connect_steps()
    ensures { FullStep }
{}

/// States that inserting the session of a client that has one is writing it.
pub fn insertion_writes()
    ensures { InsertionWrites }
{}

/// States that a Start leaves every session without its connection, and removes the clean ones
/// (MQTT 3.1.2.4).
pub fn start_steps()
    ensures { StartStep }
{}
