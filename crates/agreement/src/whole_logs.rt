//! The protocol's step on whole logs, as definitions: a model corresponding to the step of
//! `ballot_base`, on which agreement is proved. No code has these types.
