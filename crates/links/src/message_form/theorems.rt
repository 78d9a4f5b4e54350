// Theorems about the form. The functions do nothing; their contracts are the theorems.

ghost use Rattle.links.specs.message_form.Theorems.{NoneBeginsAnother, OthersAreShort, ReadIsWritten};
ghost use Rattle.links.specs.message_form.Theorems.{WrittenIsRead};

/// States that the bytes of a message are read as that message, and that nothing is left.
pub fn written_is_read()
    ensures { WrittenIsRead }
{}

/// States that a message that was read is in its range, and is written to the bytes from which it
/// was read: each message has one spelling.
pub fn read_is_written()
    ensures { ReadIsWritten }
{}

/// States that no message begins another one, so the boundaries in a sequence of messages are
/// determined.
pub fn none_begins_another()
    ensures { NoneBeginsAnother }
{}

/// States that a message without a log has less than 2 MiB.
pub fn others_are_short()
    ensures { OthersAreShort }
{}
