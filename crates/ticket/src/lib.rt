//! What a ticket is, its bytes in a text code, and how they are read from left to right: definitions in `specs/` and
//! laws in `proofs/`. The only code is the room that a ticket needs.
#![tactic(auto)]

mod room;

pub use room::Room;
