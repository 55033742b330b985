//! What a ticket's texts say in a fixed form: its zones and its period.
#![tactic(auto)]

mod answer;
mod groups;
mod marks;
mod period_text;
mod zone_text;

pub use answer::{Period, ZoneKind, Zones};
pub use period_text::period_of_text;
pub use zone_text::zones_of_text;
