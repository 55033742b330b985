//! Reading a ticket message from left to right.
#![tactic(auto)]

mod areas;
mod carried;
mod contents;
mod fields;
mod handing_out;
mod items;
mod layout;
mod part;
mod reading;
mod start;
mod texts;

pub use carried::read_carried;
pub use contents::Contents;
pub use fields::read_field;
pub use handing_out::field_text;
pub use items::{CarriedItems, FieldItems};
pub use part::Part;
pub use reading::read_message;
pub use start::EntryStart;
