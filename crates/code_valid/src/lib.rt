// The check of bodies, exact by the rules of typing, on an abstract stack of known and unknown types.
#![tactic(auto)]

mod blocks;
mod body;
mod env;
mod invalid;
pub mod laws;
mod locals;
mod marks;
mod plain;
mod surveying;
mod typed_body;
mod walk;

pub use body::{check_body, check_body_in};
pub use env::Env;
pub use invalid::BodyInvalid;
pub use marks::{Mark, Marks};
pub use typed_body::TypedBody;
