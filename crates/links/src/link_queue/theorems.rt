// Theorems about queues of links. The functions do nothing; their contracts are the theorems.

ghost use Rattle.links.specs.link_queue.Theorems.{ComesOutInOrder, NothingElseIsLost};
ghost use Rattle.links.specs.link_queue.Transit.{EachLogIsThereOnce, WhatIsRepeatedIsThere};

/// States that what comes out of a queue is in the order in which it was queued, each message at
/// most once.
pub fn what_comes_out_is_in_order<C>()
    ensures { ComesOutInOrder C }
{}

/// States that each message comes out, or is covered by the one that was queued in its place, or
/// was dropped and counted.
pub fn nothing_else_is_lost<C>()
    ensures { NothingElseIsLost C }
{}

/// States that a log of one kind and ballot waits or is in transit at most once, and that only one
/// that does is a reason to drop another.
pub fn each_log_is_there_once<C>()
    ensures once { EachLogIsThereOnce C }
    ensures repeated { WhatIsRepeatedIsThere C }
{}
