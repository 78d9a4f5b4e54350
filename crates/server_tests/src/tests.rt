// What no clause says: when logs are cut, and what is refused.

mod cuts;
mod refusals;
