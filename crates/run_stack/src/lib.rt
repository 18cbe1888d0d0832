// The stack of a run, and the steps inside a frame.
#![tactic(auto)]

mod control;
mod leaving;
mod stack;
mod steps;
mod straight;

pub use leaving::above_many;
pub use stack::Stack;
pub use steps::{Did, advance};
