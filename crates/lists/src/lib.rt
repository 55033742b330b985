//! Lists: parts of a slice and items laid over it, and in `specs/` and `proofs/` what several crates say of lists, once.
#![tactic(auto)]

mod laying;

pub use laying::{lay, lies_within};
