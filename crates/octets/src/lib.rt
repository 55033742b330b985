//! Bytes of a message: the range that they lie in, and numbers in digits.
#![tactic(auto)]

mod compare;
mod digits;

pub use compare::all_within;
pub use digits::{number_digits, read_number, write_number};
