// What a command of any mode is: a plan of reads that ends in a refusal or an effect.
#![tactic(auto)]

mod kinds;
pub mod laws;
mod loading;
mod printing;
mod sheet;
mod status;
mod writing;

pub use kinds::{Kinds, read_kinds};
pub use loading::{load, load_info, load_named, load_script, load_trace};
pub use printing::{Printed, Refusal, bad_words, refused, tell};
pub use sheet::Sheet;
pub use status::Status;
pub use writing::put;
