// The names of functions and locals in a module's custom section `name`: read, taken to an output and back, and written.
// (Standard, Appendix, Name Section)
#![tactic(auto)]

mod chunk;
mod entries;
mod entry;
mod fault;
pub mod laws;
mod output;
mod read;
mod section;
mod written;

pub use crate::output::{map_names, unmap_names};
pub use crate::read::{no_names, read_names};
pub use crate::written::put_section;
use module_ast::name::Name;
use module_ast::seq::Seq;

/// A name and the index of what has the name.
#[derive(Drop)]
pub struct Named {
    /// The index of a function, or of a local of a function, whose parameters come first.
    pub index: u32,
    pub name: Name,
}

/// The names of a function's locals.
#[derive(Drop)]
pub struct Locals {
    /// The index of the function.
    pub func: u32,
    /// The locals that have names, by rising index.
    pub names: Seq<Named>,
}

/// The names in the `name` section of a module.
#[derive(Drop)]
pub struct Names {
    /// The name of the module, if it has one.
    pub module: Option<Name>,
    /// The functions that have names, by rising index.
    pub functions: Seq<Named>,
    /// The functions whose locals have names, by rising index.
    pub locals: Seq<Locals>,
}
