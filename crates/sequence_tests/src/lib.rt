//! Runs the list and the store on examples, and beside plain vectors.
#![tactic(auto)]

#[cfg(test)]
mod dice;
#[cfg(test)]
mod held;
#[cfg(test)]
mod list;
#[cfg(test)]
mod list_run;
#[cfg(test)]
mod store;
#[cfg(test)]
mod store_run;
