// Reads the words of a command.
#![tactic(auto)]

mod command;
pub mod laws;
mod words;

pub use words::{Line, LineFault, read_line};
