// Modules of many functions, each made from one number.
#![tactic(auto)]

mod bodies;
mod codes;
mod draws;
mod pieces;
mod whole;

pub use whole::make;
