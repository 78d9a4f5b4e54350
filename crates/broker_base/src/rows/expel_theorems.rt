// A theorem about an Expel. The function does nothing; its contract is the theorem.

ghost use Rattle.broker_base.specs.rows.ExpelTheorems.{ExpelDropsTheClient, ExpelRemovesTheOwner};
ghost use Rattle.broker_base.specs.rows.ExpelTheorems.{ExpelStep, NobodysExpelStep};

/// States that an Expel removes the client's session with everything in it, closes its connection
/// if it has one, and touches no other session; and how the map of owners and the index of
/// subscriptions change.
pub fn expel_steps()
    ensures step { ExpelStep }
    ensures nobody { NobodysExpelStep }
    ensures owners { ExpelRemovesTheOwner }
    ensures content { ExpelDropsTheClient }
{}
