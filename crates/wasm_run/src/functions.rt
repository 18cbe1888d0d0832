// Where a call leads.

ghost use Rattle.std.specs.Prelude.{◌≡◌};
ghost use Rattle.run_stack.specs.Slots.{index_count};

use module_ast::code::Instr;
use module_ast::module::FuncType;
use run_store::Function;
use wasm_sem::Trap;

/// A call of a function: the function with its index, the code behind the call, and, if the call is through a slot of
/// the table, the number of the slot, which is above the arguments. (Standard, 4.4.7)
#[derive(Clone, Copy)]
pub(crate) struct Invocation<'m> {
    pub func: u32,
    pub function: Function<'m>,
    pub rest: &'m [Instr],
    pub slot: Option<u32>,
}

impl<'m> Invocation<'m> {
    /// How many operands are above the arguments: one, the number of the slot, if the call is through a slot.
    pub fn above(&self) -> usize
        ensures { result ≡ index_count self.now.slot }
    {
        index_count(self.slot)
    }
}

/// The call of a host function: its index and type, the code behind the call, and the slot, if the call is through one.
#[derive(Clone, Copy)]
pub(crate) struct HostCall<'m> {
    pub func: u32,
    pub rest: &'m [Instr],
    pub slot: Option<u32>,
    pub ty: &'m FuncType,
}

/// How many operands are above the arguments of a call: one, the number of the slot, if the call is through a slot.
pub(crate) fn index_count(slot: Option<u32>) -> usize
    ensures { result ≡ index_count slot }
{
    match slot {
        Some(_) => 1,
        None => 0,
    }
}

/// Where the next instruction leads: it is no call, it traps before it reaches a function, or it calls one.
#[derive(Drop)]
pub(crate) enum Target<'m> {
    NoCall,
    Traps(Trap),
    Invokes(Invocation<'m>),
}
