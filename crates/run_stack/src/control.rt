// Instructions that open a block, or branch.

ghost use Rattle.std.specs.Prelude.{◌≡◌, ◌∷◌, ◌<◌, ◌≤◌, List, length, slice_index_or, Some, None};
ghost use Rattle.module_ast.specs.Structure.{code_of};
ghost use Rattle.module_ast.specs.Validation.{block_type};
ghost use Rattle.wasm_sem.specs.Types.{FuncType as func_type};
ghost use Rattle.run_stack.specs.Flat.{opened};
ghost use Rattle.wasm_sem.specs.Execution.{Instance, Env, Frame, exit_label};
ghost use Rattle.run_stack.specs.Kept.{Lies};
ghost use Rattle.run_stack.specs.Comes.{IsUnstuck, IsMoving, IsControl, LiesNext, next_of};

use crate::stack::Stack;
use module_ast::code::{BlockType, Code, Instr};
use module_ast::labels::Labels;
use module_ast::module::Module;
use run_store::block_counts;

// Enters a block or a branch of an `if`. The operands that it takes stay on top.
fn enter_block<'m>(stack: &mut Stack<'m>, module: &Module, ty: BlockType, body: &'m Code)
    requires typed { (t : func_type) × (block_type «module».now.types ty ≡ Some t) × (length t.params ≤ length stack.old.values) }
    requires room { length stack.old.spots < stack.old.spot_room }
    ensures opens { (t : func_type) → block_type «module».now.types ty ≡ Some t → stack.new ≡ opened body.now None (length t.params) (length t.results) stack.old }
    ensures value_room { stack.new.value_room ≡ stack.old.value_room }
    ensures spot_room { stack.new.spot_room ≡ stack.old.spot_room }
{
    let counts = block_counts(module, ty);
    stack.open(body.as_slice(), None, counts.starts, counts.results);
}

// Enters a loop. `place` is the code from the loop on, to which a branch to the loop leads.
fn enter_loop<'m>(
    stack: &mut Stack<'m>,
    module: &Module,
    place: &'m [Instr],
    ty: BlockType,
    body: &'m Code,
)
    requires typed { (t : func_type) × (block_type «module».now.types ty ≡ Some t) × (length t.params ≤ length stack.old.values) }
    requires room { length stack.old.spots < stack.old.spot_room }
    ensures opens { (t : func_type) → block_type «module».now.types ty ≡ Some t → stack.new ≡ opened body.now (Some (code_of place.now)) (length t.params) (length t.params) stack.old }
    ensures value_room { stack.new.value_room ≡ stack.old.value_room }
    ensures spot_room { stack.new.spot_room ≡ stack.old.spot_room }
{
    let starts = block_counts(module, ty).starts;
    stack.open(body.as_slice(), Some(place), starts, starts);
}

/// The label that an operand selects in a `br_table`; past the labels it is the default.
pub(crate) fn label_at(labels: &Labels, default: u32, index: u32) -> u32
    ensures { result ≡ slice_index_or labels.now index default }
{
    labels
        .as_slice()
        .get(index as usize)
        .copied()
        .unwrap_or(default)
}

/// Enters a block, or branches. Takes no memory. (Standard, 4.4.5)
#[inline(always)]
pub(crate) fn control<'m>(
    stack: &mut Stack<'m>,
    module: &Module,
    place: &'m [Instr],
    instr: &'m Instr,
)
    requires kind { IsControl instr.now }
    requires before { (inst : Instance) × (e : Env) × (fr : Frame) × (below : List Frame) × (inst.types ≡ «module».now.types) × IsMoving stack.old (code_of place.now) instr.now inst e fr below }
    ensures comes { (inst : Instance) (e : Env) (fr : Frame) (below : List Frame) → inst.types ≡ «module».now.types → IsMoving stack.old (code_of place.now) instr.now inst e fr below → LiesNext inst e (next_of inst e fr below instr.now) stack.new }
    ensures value_room { stack.new.value_room ≡ stack.old.value_room }
    ensures spot_room { stack.new.spot_room ≡ stack.old.spot_room }
{
    match instr {
        Instr::Block(ty, body) => enter_block(stack, module, *ty, body),
        Instr::Loop(ty, body) => enter_loop(stack, module, place, *ty, body),
        Instr::If(ty, body) => {
            if stack.pop_i32() != 0 {
                enter_block(stack, module, *ty, body);
            }
        }
        Instr::IfElse(ty, body, other) => {
            if stack.pop_i32() != 0 {
                enter_block(stack, module, *ty, body);
            } else {
                enter_block(stack, module, *ty, other);
            }
        }
        Instr::Br(label) => stack.branch(*label as usize),
        Instr::BrIf(label) => {
            if stack.pop_i32() != 0 {
                stack.branch(*label as usize);
            }
        }
        Instr::BrTable(labels, default) => {
            let index = stack.pop_i32();
            let label = label_at(labels, *default, index);
            stack.branch(label as usize);
        }
        Instr::Return => {
            let outermost = stack.labels_of_frame() - 1;
            stack.branch(outermost);
        }
        _ => unreachable!(),
    }
}

/// Ends the innermost sequence. Its values stay; if it is a function's, the function returns its results. Takes no
/// memory. (Standard, 4.4.6, 4.4.7)
#[inline(always)]
pub(crate) fn fall(stack: &mut Stack)
    requires { (inst : Instance) × (e : Env) × (fr : Frame) × (below : List Frame) × Lies stack.old (fr ∷ below) × IsUnstuck (exit_label inst e fr below fr.outer) }
    ensures comes { (inst : Instance) (e : Env) (fr : Frame) (below : List Frame) → Lies stack.old (fr ∷ below) → IsUnstuck (exit_label inst e fr below fr.outer) → LiesNext inst e (exit_label inst e fr below fr.outer) stack.new }
    ensures value_room { stack.new.value_room ≡ stack.old.value_room }
    ensures spot_room { stack.new.spot_room ≡ stack.old.spot_room }
{
    if stack.labels_of_frame() == 1 {
        stack.branch(0);
    } else {
        stack.close();
    }
}
