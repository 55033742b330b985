//! An ordered list of entries over memory that the caller lends, whose ranges may be pieces laid end to end.
#![tactic(auto)]

mod error;
mod list;
mod moving;

pub use error::SequenceError;
pub use list::{ByteStore, Sequence};
