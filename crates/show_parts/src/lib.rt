//! What the programs share: the input that they read, and the items of a head as they print them.
#![tactic(auto)]

mod characters;
mod input;
mod lines;

pub use input::read_front;
pub use lines::HeadLines;

#[cfg(test)]
mod tests;
