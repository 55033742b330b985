//! Which of a list's elements counts at a cell, where each element has cells, and what the fields of a ticket tell by
//! it.
#![tactic(auto)]

mod layers;

pub use layers::{counting_field, period_field, zone_field};
