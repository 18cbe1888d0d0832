// Trace files: writes events as bytes, and reads them again.
#![tactic(auto)]

mod codes;
mod field;
pub mod laws;
mod numbers;
mod put;
mod reader;
mod rows;
mod values;
mod writer;

pub use field::ReadTraceFault;
pub use put::TraceFault;
pub use reader::{TraceReader, read_trace};
pub use writer::TraceWriter;
