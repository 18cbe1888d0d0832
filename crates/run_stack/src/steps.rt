// A step inside a frame.

ghost use Rattle.std.specs.Prelude.{◌≡◌, ◌∷◌, List};
ghost use Rattle.module_ast.specs.Structure.{code_of, before};
ghost use Rattle.wasm_sem.specs.Execution.{Instance, Env, Frame, configuration, step};
ghost use Rattle.wasm_sem.specs.Types.{Value as number};
ghost use Rattle.run_store.specs.Held.{Held};
ghost use Rattle.run_stack.specs.Straight.{IsSimple};
ghost use Rattle.run_stack.specs.Comes.{IsControl};
ghost use Rattle.run_stack.specs.Standing.{IsStanding, Went};
ghost use Rattle.run_stack.specs.Advances.{IsAtPlace, Advances, GoesAtNoCall};
ghost use Rattle.run_stack.specs.Flat.{first_rest};

use crate::control::{control, fall};
use crate::stack::Stack;
use crate::straight::straight;
use module_ast::code::Instr;
use module_ast::module::Module;
use run_store::globals::Globals;
use run_store::memory::Memory;
use std::alloc::AllocError;
use wasm_sem::Trap;

/// What a step inside a frame did. `Calls` says that the next instruction is a call, and that nothing was done.
#[derive(Drop)]
pub enum Did {
    Went,
    Trapped(Trap),
    Calls,
}

// Executes an instruction that does not branch, call or open a block. `rest` is the code behind it.
#[inline(always)]
fn go_straight<'m>(
    stack: &mut Stack<'m>,
    memory: &mut Memory,
    globals: &mut Globals,
    instr: &'m Instr,
    rest: &'m [Instr],
) -> Result<Did, AllocError>
    requires kind { IsSimple instr.now }
    requires standing { (inst : Instance) × (e : Env) × (fr : Frame) × (below : List Frame) × IsAtPlace stack.old memory.old globals.old (before instr.now (code_of rest.now)) inst e fr below }
    ensures advances { (inst : Instance) (e : Env) (fr : Frame) (below : List Frame) → IsAtPlace stack.old memory.old globals.old (before instr.now (code_of rest.now)) inst e fr below → Advances inst e fr below result stack.old memory.old globals.old stack.new memory.new globals.new }
    ensures value_room { stack.new.value_room ≡ stack.old.value_room }
    ensures spot_room { stack.new.spot_room ≡ stack.old.spot_room }
{
    match straight(stack, memory, globals, instr)? {
        None => {
            stack.go_on(rest);
            Ok(Did::Went)
        }
        Some(trap) => Ok(Did::Trapped(trap)),
    }
}

// Executes an instruction that opens a block or branches. `place` is the code from it on, `rest` the code behind it.
#[inline(always)]
fn go_control<'m>(
    stack: &mut Stack<'m>,
    module: &Module,
    place: &'m [Instr],
    instr: &'m Instr,
    rest: &'m [Instr],
)
    requires kind { IsControl instr.now }
    requires place { code_of place.now ≡ before instr.now (code_of rest.now) }
    requires standing { (m : Held) × (g : List number) × (inst : Instance) × (e : Env) × (fr : Frame) × (below : List Frame) × (inst.types ≡ «module».now.types) × IsAtPlace stack.old m g (code_of place.now) inst e fr below }
    ensures advances { (m : Held) (g : List number) (inst : Instance) (e : Env) (fr : Frame) (below : List Frame) → inst.types ≡ «module».now.types → IsAtPlace stack.old m g (code_of place.now) inst e fr below → Went inst e (step inst (configuration e (fr ∷ below))) stack.new m g }
    ensures value_room { stack.new.value_room ≡ stack.old.value_room }
    ensures spot_room { stack.new.spot_room ≡ stack.old.spot_room }
{
    stack.go_on(rest);
    control(stack, module, place, instr);
}

// Executes one instruction. `place` is the code from it on, `rest` the code behind it.
#[inline(always)]
fn instruction<'m>(
    stack: &mut Stack<'m>,
    memory: &mut Memory,
    globals: &mut Globals,
    module: &Module,
    place: &'m [Instr],
    instr: &'m Instr,
    rest: &'m [Instr],
) -> Result<Did, AllocError>
    requires place { code_of place.now ≡ before instr.now (code_of rest.now) }
    requires standing { (inst : Instance) × (e : Env) × (fr : Frame) × (below : List Frame) × (inst.types ≡ «module».now.types) × IsAtPlace stack.old memory.old globals.old (code_of place.now) inst e fr below }
    ensures advances { (inst : Instance) (e : Env) (fr : Frame) (below : List Frame) → inst.types ≡ «module».now.types → IsAtPlace stack.old memory.old globals.old (code_of place.now) inst e fr below → Advances inst e fr below result stack.old memory.old globals.old stack.new memory.new globals.new }
    ensures calls { GoesAtNoCall result (code_of place.now) }
    ensures value_room { stack.new.value_room ≡ stack.old.value_room }
    ensures spot_room { stack.new.spot_room ≡ stack.old.spot_room }
{
    match instr {
        Instr::Call(_) | Instr::CallIndirect(_) => Ok(Did::Calls),
        Instr::Block(_, _)
        | Instr::Loop(_, _)
        | Instr::If(_, _)
        | Instr::IfElse(_, _, _)
        | Instr::Br(_)
        | Instr::BrIf(_)
        | Instr::BrTable(_, _)
        | Instr::Return => {
            go_control(stack, module, place, instr, rest);
            Ok(Did::Went)
        }
        Instr::Unreachable
        | Instr::Nop
        | Instr::Drop
        | Instr::Select
        | Instr::LocalGet(_)
        | Instr::LocalSet(_)
        | Instr::LocalTee(_)
        | Instr::GlobalGet(_)
        | Instr::GlobalSet(_)
        | Instr::Load(_, _)
        | Instr::Store(_, _)
        | Instr::MemorySize
        | Instr::MemoryGrow
        | Instr::I32Const(_)
        | Instr::I64Const(_)
        | Instr::Num(_) => go_straight(stack, memory, globals, instr, rest),
    }
}

/// Makes the next step of the innermost frame, if that is no call: an instruction, or the end of a sequence. Takes
/// memory only at a `memory.grow`; after an `Err` all is as before. (Standard, 4.4)
#[tactic(auto, using(std::proofs::lemmas::Grind::common_steps))]
#[inline(always)]
pub fn advance(
    stack: &mut Stack,
    memory: &mut Memory,
    globals: &mut Globals,
    module: &Module,
) -> Result<Did, AllocError>
    requires { (inst : Instance) × (e : Env) × (fr : Frame) × (below : List Frame) × (inst.types ≡ «module».now.types) × IsStanding stack.old memory.old globals.old inst e fr below }
    ensures advances { (inst : Instance) (e : Env) (fr : Frame) (below : List Frame) → inst.types ≡ «module».now.types → IsStanding stack.old memory.old globals.old inst e fr below → Advances inst e fr below result stack.old memory.old globals.old stack.new memory.new globals.new }
    ensures calls { GoesAtNoCall result (first_rest stack.old.spots) }
    ensures value_room { stack.new.value_room ≡ stack.old.value_room }
    ensures spot_room { stack.new.spot_room ≡ stack.old.spot_room }
{
    let place = stack.place();
    match place {
        [] => {
            fall(stack);
            Ok(Did::Went)
        }
        [instr, rest @ ..] => instruction(stack, memory, globals, module, place, instr, rest),
    }
}
