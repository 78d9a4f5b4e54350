// Theorems about the frozen form, and a worked example. The functions do nothing; their contracts
// are the theorems.

ghost use Rattle.session_base.specs.FormTheorems.{FrozenIsRead, ReadHasForm, ReadIsFrozen};
ghost use Rattle.session_base.specs.FormRows.{FullSessionIsFrozen};

/// States that the bytes to which a session is frozen are read as that session, whatever bytes
/// follow. No more of its entries may be in flight than the window allows.
pub fn frozen_is_read()
    ensures { FrozenIsRead }
{}

/// States that a session that was read has a form: no filter and no identifier occurs twice, no
/// more entries are in flight than the window allows, and each part is in its range.
pub fn read_has_form()
    ensures { ReadHasForm }
{}

/// States that a session that was read is frozen to the bytes from which it was read: each session
/// has one form.
pub fn read_is_frozen()
    ensures { ReadIsFrozen }
{}

/// Shows the bytes, written by hand, of a session with something in every part.
pub fn full_session_is_frozen()
    ensures { FullSessionIsFrozen }
{}
