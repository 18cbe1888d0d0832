// The decoder of bodies, constant expressions and types: it accepts exactly what the grammar has.
#![tactic(auto)]

mod body;
mod class;
mod expr;
mod fault;
pub mod laws;
mod locals;
mod token;
mod types;

pub use crate::body::{BodyFault, decode_body};
pub use crate::expr::{Expr, read_expr};
pub use crate::fault::Fault;
pub use crate::locals::read_locals;
pub use crate::token::read_indices;
pub use crate::types::{read_func_type, val_type};
