//! Laying the parts of a ticket message into a buffer: the layout's start, a field and a carried record, each over its
//! own bytes and no other. The head, which stands before them, is written by `head`.
#![tactic(auto)]

mod carried;
mod checks;
mod items;
mod layout;
mod length;

pub use carried::lay_carried;
pub use layout::{lay_field, lay_layout_start};
pub use length::message_length;
