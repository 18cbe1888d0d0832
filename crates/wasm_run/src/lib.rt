// The interpreter: a run of a module under a script, step by step.
#![tactic(auto)]

mod call;
mod exports;
mod functions;
mod host;
mod machine;
mod note;
mod progress;
mod running;

pub use exports::exported_functions;
pub use machine::Machine;
pub use note::{Entry, HostNote, Note, Noted, Notes, Quiet};
