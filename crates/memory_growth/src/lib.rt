// Tells which functions grow the memory: a tool over runs, in a crate of its own.
#![tactic(auto)]

mod growing;
mod lines;

pub use growing::{Grown, Growth, growth_of_run};
pub use lines::growth_text;
