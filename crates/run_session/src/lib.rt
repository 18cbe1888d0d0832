// Scripts in JSON, and runs of a module under a script.
#![tactic(auto)]

mod forms;
mod link;
mod script;
mod session;

pub use link::LinkFault;
pub use script::{ScriptFault, read_script};
pub use session::{Outcome, Session};
