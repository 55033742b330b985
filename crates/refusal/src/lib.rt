//! Why a message or a call is refused: one fault type for each layer (item, record, sheet), each
//! holding the one below it, and the five figures that a refusal tells.
#![tactic(auto)]

mod causes;
mod checks;
mod faults;
mod figures;

pub use causes::{ItemCause, RecordCause, SheetCause};
pub use checks::demand;
pub use faults::{ItemFault, RecordFault, SheetFault, Site};
pub use figures::Refusal;
