// The texts of reports and of names, written to a sink line by line.
#![tactic(auto)]

mod lines;
mod names;
mod words;
mod write;

pub use lines::events_line;
pub use names::write_names;
pub use write::{ReportFault, write_report};
