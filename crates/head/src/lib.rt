//! The head record of a ticket message: its items, reading and writing it.
#![tactic(auto)]

mod codec;
mod head;
mod items;
mod lawful;
mod reading;

pub use head::Head;
pub use items::{Edition, HeadItems};
