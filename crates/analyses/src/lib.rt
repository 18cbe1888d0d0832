// Books of events: how often blocks, branches, calls, and loads and stores occurred.
#![tactic(auto)]

mod analysis;
mod headings;
pub mod laws;
mod ledger;
mod tools;

pub use crate::analysis::Analysis;
pub use crate::tools::{Blocks, Branches, CallGraph, MemoryUse};

/// What an analysis counts.
#[derive(Clone, Copy, PartialEq, Eq)]
pub enum Kind {
    /// Begins of blocks; the body of a function is one too.
    Blocks,
    /// `if`, `br`, `br_if` and `br_table`, by their choice.
    Branches,
    /// Calls, by caller and callee.
    Calls,
    /// Loads and stores, with the least and the greatest address.
    Memory,
}

/// A row of a book: what it counts, and how often that occurred.
#[derive(Clone, Copy, PartialEq, Eq)]
pub struct Row {
    /// The index of the function, with imports counted.
    pub func: u32,
    /// The position in the function; -1 at its entry, and for calls.
    pub instr: i32,
    /// What is counted at the position. `Blocks`, `Branches`, `CallGraph` and `MemoryUse` say which tags they have.
    pub tag: u8,
    /// What a branch chose, or which function a call called; 0 for the other kinds.
    pub other: u64,
    /// How many events the row counts.
    pub count: u64,
    /// For memory, the least effective address of these events, below 2^33; 0 for the other kinds.
    pub least: u64,
    /// For memory, the greatest effective address of these events, below 2^33; 0 for the other kinds.
    pub greatest: u64,
}
