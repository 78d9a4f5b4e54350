// Theorems about streams of parts. The functions do nothing; their contracts are the theorems.

ghost use Rattle.links.specs.frames.Theorems.{EveryStreamBegins, JoiningsAgree, NoMessageBeginsAnother};
ghost use Rattle.links.specs.frames.Theorems.{OneFront, PartsAreOneMessage, WhatIsJoinedWasCut};
ghost use Rattle.links.specs.frames.Theorems.{WhatWasCutIsJoined};

/// States that a stream begins with one message, or one fault, or a beginning of a message.
pub fn one_front()
    ensures { OneFront }
{}

/// States that every stream begins with a message, a beginning of one, or a fault.
pub fn every_stream_begins()
    ensures { EveryStreamBegins }
{}

/// States that the parts of a message are joined to this message.
pub fn parts_are_one_message()
    ensures { PartsAreOneMessage }
{}

/// States that no message's parts are a front of another message's.
pub fn no_message_begins_another()
    ensures { NoMessageBeginsAnother }
{}

/// States that a joiner that was fed the parts of messages, split anywhere, returns these messages:
/// a prefix of them, and all once no message is left.
pub fn what_was_cut_is_joined()
    ensures prefix { WhatIsJoinedWasCut }
    ensures all { WhatWasCutIsJoined }
{}

/// States that two joiners that were fed the same bytes, split anywhere, return the same messages.
pub fn joinings_agree()
    ensures { JoiningsAgree }
{}
