//! Runs the readers of zones and periods on examples.
#![tactic(auto)]

#[cfg(test)]
mod texts;
