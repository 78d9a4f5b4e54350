// Theorems about a PUBLISH that is no repeat. The functions do nothing; their contracts are the
// theorems.

ghost use Rattle.broker_base.specs.rows.PublishTheorems.{RefusedStep, TakenStep};
ghost use Rattle.broker_base.specs.rows.PublishTheorems.{RoomLastsToItsTurn, ChangeIsOfOneRow};

/// States that a publication is refused as a whole, and its publisher's connection ends, if the
/// session of a granted row is full for it or if retaining it would exceed the limit of topics
/// (MQTT 4.8).
pub fn refused_publication_steps()
    ensures { RefusedStep }
{}

/// States that any other publication is taken: it is retained if it has RETAIN 1, its publisher's
/// session registers its identifier, and each granted session in turn gets its copy and sends what
/// that starts (MQTT 3.3.4, 3.3.5, 4.3).
pub fn taken_publication_steps()
    ensures { TakenStep }
{}

/// States that, if no granted row's session is full for a publication beforehand, none is when its
/// copy is queued.
pub fn room_lasts_to_its_turn()
    ensures { RoomLastsToItsTurn }
{}

/// States that changing one session in its place is writing it there, if it is found.
pub fn change_is_of_one_row()
    ensures { ChangeIsOfOneRow }
{}
