//! Records of a ticket message: the first twelve bytes of each.
#![tactic(auto)]

mod start;

pub use start::{RecordKind, read_start};
