//! Pages in use: generic code above any page, what the owner of a page below knows, and tests.
#![tactic(auto)]

mod generic;
#[cfg(test)]
mod limits;
#[cfg(test)]
mod offsets;
mod owner;
#[cfg(test)]
mod probe;
#[cfg(test)]
mod sizes;

pub use generic::place_both;
pub use owner::above_windows;
