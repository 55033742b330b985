//! Wrapping on examples: which texts fit, where the first fault is, and what a grid shows.
#![tactic(auto)]

#[cfg(test)]
mod fitting;
#[cfg(test)]
mod showing;
