// Values of JSON: read by the form of each type, and written.
#![tactic(auto)]

mod form;
mod list;
mod object;
mod text;
mod write;

pub use form::{Form, FormFault, Integer, Text, read_count, read_list, read_whole};
pub use list::{check_length, has_length, item};
pub use object::{check_keys, field, has_only, read_list_or_empty};
pub use text::{TextFault, read_text};
pub use write::{Written, write_list};
