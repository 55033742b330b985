//! Runs the choice of a field on examples, in cells, in rectangles and in entries that hold more.
#![tactic(auto)]

#[cfg(test)]
mod cells;
#[cfg(test)]
mod fields;
