// The saved form of a roster and the loads of its links: the bytes are those of the table that it is of.

#![tactic(auto)]

mod loads;
mod saved;

pub use loads::{report, report_valid};
pub use saved::{read, write, write_valid};
