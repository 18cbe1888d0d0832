// Scripts, answers, traps and hook calls. The machine itself is in the definitions, and `laws` has what holds of it.
#![tactic(auto)]

ghost use Rattle.std.specs.Prelude.{◌≡◌};

use module_ast::name::Name;
use module_ast::seq::Seq;
use wasm_num::Values;

pub mod laws;

/// A call of the script: the name of an exported function, and numbers as arguments.
#[derive(Drop)]
pub struct Call {
    pub export: Name,
    pub args: Seq<i128>,
}

/// Bytes that a host function writes to the memory from an address on.
#[derive(Drop)]
pub struct HostWrite {
    pub address: u32,
    pub bytes: Seq<u8>,
}

/// The answer to one host call: numbers as results, and what is written to the memory.
#[derive(Drop)]
pub struct HostAnswer {
    pub results: Seq<i128>,
    pub writes: Seq<HostWrite>,
}

/// Which exports are called, how host functions answer, and the limits of the run.
#[derive(Drop)]
pub struct Script {
    /// The calls, in order.
    pub calls: Seq<Call>,
    /// The answers to host calls, in order, whichever import is called.
    pub hosts: Seq<HostAnswer>,
    /// The values of the imported globals, in order.
    pub globals: Seq<i128>,
    /// The greatest number of pages that the memory may have.
    pub pages: u32,
    /// The greatest number of the module's functions that may be active at once.
    pub depth: u32,
    /// How many steps the run may make, for the start function and all calls together.
    pub steps: u64,
}

/// Why a call ended without results. `NoSlot`, `EmptySlot` and `WrongType` are of `call_indirect`; `Depth` says that
/// more functions would be active than the script allows.
#[derive(Clone, Copy, Debug, PartialEq, Eq)]
pub enum Trap {
    Unreachable,
    DivideByZero,
    Overflow,
    OutOfBounds,
    NoSlot,
    EmptySlot,
    WrongType,
    Depth,
}

/// How the start function or a call of the script ended. `Unfinished` says that the steps of the run did not suffice.
#[derive(Debug, Drop)]
pub enum Answer {
    Returned(Values),
    Trapped(Trap),
    Unfinished,
}

/// The call of a hook: the index of the hook among the functions of the module, and the words.
#[derive(Drop)]
pub struct HookCall {
    pub import: u32,
    pub args: Values,
}

/// What one step did: a hook call, anything else, or nothing because the run was over.
#[derive(Drop)]
pub enum Turn {
    Ran,
    Hook(HookCall),
    Over,
}

/// Why a run of several steps stopped.
#[derive(Clone, Copy, PartialEq, Eq)]
pub enum Stop {
    Over,
    OutOfSteps,
}

impl Trap {
    ghost use Rattle.wasm_sem.specs.Causes.{cause_of};

    /// The cause in words, as the line of a run has it.
    pub fn cause(&self) -> &'static str
        ensures { result.now ≡ cause_of self.now }
    {
        match self {
            Trap::Unreachable => "unreachable",
            Trap::DivideByZero => "divide by zero",
            Trap::Overflow => "integer overflow",
            Trap::OutOfBounds => "out of bounds",
            Trap::NoSlot => "no slot",
            Trap::EmptySlot => "empty slot",
            Trap::WrongType => "wrong type",
            Trap::Depth => "call depth",
        }
    }
}
