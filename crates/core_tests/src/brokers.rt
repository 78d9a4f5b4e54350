// The broker and what it stores: long runs of calls and commands, a full store, printed texts.

mod indexes;
mod retaining;
mod running;
mod texts;
