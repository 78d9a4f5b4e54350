// Both indexes of subscriptions, by callers that know only the trait's contract.

mod grants;
mod putting;
mod random;
mod shown;
