// The open blocks of a body and the types of its operands, as the check of a body keeps them.
#![tactic(auto)]

mod frame;
mod stack;

pub use frame::{Frame, Types};
pub use stack::{CtrlStack, StackFault};
