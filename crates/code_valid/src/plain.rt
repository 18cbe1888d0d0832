// The instructions without a nested sequence, by what they do to the operands.

ghost use Rattle.std.specs.Prelude.{◌≡◌, ◌<◌, ◌^◌, ◌&&◌, nat_le, slice_get, IfOk};
ghost use Rattle.module_ast.specs.Structure.Trees as tree;
ghost use Rattle.code_valid.specs.Checking.{apply, stack_effect, same_types, takes_these, all_take, is_some_list};
ghost use Rattle.code_valid.specs.Control.{innermost_stack, labels_of, context_in};
ghost use Rattle.code_valid.specs.Answers.{Moves};
ghost use Rattle.code_valid.specs.Acting.{effect_of, marked_by};

use crate::blocks::OpenBlocks;
use crate::env::Env;
use crate::invalid::BodyInvalid;
use module_ast::code::Instr;
use module_ast::ops::{LoadOp, MemArg, StoreOp};
use std::alloc::Global;
use wasm_num::ValType;

/// Does to the operands what an instruction without a nested sequence does, and answers the type that a `drop` drops or
/// a `select` leaves; `None` if it is another instruction or the type is unknown. `Invalid` if the rules do not type
/// the instruction here, or if it has a nested sequence. (Standard, 3.3)
pub(crate) fn act(
    alloc: Global,
    env: &Env,
    instr: &Instr,
    blocks: &mut OpenBlocks,
) -> Result<Option<ValType>, BodyInvalid>
    ensures moves { Moves result (apply (effect_of (context_in env.now blocks.old) instr.now) (innermost_stack blocks.old)) blocks.old blocks.new }
    ensures marks { IfOk result (λ ty. ty ≡ marked_by instr.now blocks.old.operands blocks.new.operands) }
{
    match instr {
        Instr::Drop => blocks.drop_one(),
        Instr::Select => blocks.select(),
        _ => {
            turn(alloc, env, instr, blocks)?;
            Ok(None)
        }
    }
}

// The same for an instruction that leaves no mark.
fn turn(alloc: Global, env: &Env, instr: &Instr, blocks: &mut OpenBlocks) -> Result<(), BodyInvalid>
    ensures { Moves result (apply (effect_of (context_in env.now blocks.old) instr.now) (innermost_stack blocks.old)) blocks.old blocks.new }
{
    match instr {
        Instr::Block(_, _) | Instr::Loop(_, _) | Instr::If(_, _) | Instr::IfElse(_, _, _) => Err(
            BodyInvalid::Invalid,
        ),
        Instr::Unreachable => blocks.stop(&[]),
        Instr::Nop => blocks.turn(&[], &[]),
        Instr::Br(label) => br(alloc, env, *label, blocks),
        Instr::BrIf(label) => br_if(alloc, env, *label, blocks),
        Instr::BrTable(labels, label) => br_table(alloc, env, labels.as_slice(), *label, blocks),
        Instr::Return => blocks.stop(env.results()),
        Instr::Call(func) => call(env, *func, blocks),
        Instr::CallIndirect(ty) => call_indirect(env, *ty, blocks),
        Instr::Drop => blocks.drop_one().map(|_| ()),
        Instr::Select => blocks.select().map(|_| ()),
        Instr::LocalGet(local) => local_get(env, *local, blocks),
        Instr::LocalSet(local) => local_set(env, *local, blocks),
        Instr::LocalTee(local) => local_tee(env, *local, blocks),
        Instr::GlobalGet(global) => global_get(env, *global, blocks),
        Instr::GlobalSet(global) => global_set(env, *global, blocks),
        Instr::Load(op, at) => load(env, *op, *at, blocks),
        Instr::Store(op, at) => store(env, *op, *at, blocks),
        Instr::MemorySize => memory_size(env, blocks),
        Instr::MemoryGrow => memory_grow(env, blocks),
        Instr::I32Const(_) => blocks.turn(&[], &[ValType::I32]),
        Instr::I64Const(_) => blocks.turn(&[], &[ValType::I64]),
        Instr::Num(op) => blocks.turn(op.operand_types(), &[op.result_type()]),
    }
}

// ---- branches and calls

fn br(alloc: Global, env: &Env, label: u32, blocks: &mut OpenBlocks) -> Result<(), BodyInvalid>
    ensures { Moves result (apply (stack_effect (context_in env.now blocks.old) (tree.br label)) (innermost_stack blocks.old)) blocks.old blocks.new }
{
    let types = blocks.label_copy(alloc, label)?;
    blocks.stop(&types)
}

fn br_if(alloc: Global, env: &Env, label: u32, blocks: &mut OpenBlocks) -> Result<(), BodyInvalid>
    ensures { Moves result (apply (stack_effect (context_in env.now blocks.old) (tree.br_if label)) (innermost_stack blocks.old)) blocks.old blocks.new }
{
    let types = blocks.label_copy(alloc, label)?;
    blocks.turn_i32(&types, &types)
}

fn br_table(
    alloc: Global,
    env: &Env,
    labels: &[u32],
    label: u32,
    blocks: &mut OpenBlocks,
) -> Result<(), BodyInvalid>
    ensures { Moves result (apply (stack_effect (context_in env.now blocks.old) (tree.br_table labels.now label)) (innermost_stack blocks.old)) blocks.old blocks.new }
{
    let types = blocks.label_copy(alloc, label)?;
    if all_take(blocks, &types, labels) {
        blocks.stop_i32(&types)
    } else {
        Err(BodyInvalid::Invalid)
    }
}

// Whether a branch to each of these labels takes exactly these types.
fn all_take(blocks: &OpenBlocks, types: &[ValType], labels: &[u32]) -> bool
    ensures { result ≡ all_take (labels_of blocks.now) types.now labels.now }
{
    for label in labels {
        if !takes_these(blocks, types, *label) {
            return false;
        }
    }
    true
}

fn takes_these(blocks: &OpenBlocks, types: &[ValType], label: u32) -> bool
    ensures { result ≡ takes_these types.now (slice_get (labels_of blocks.now) label) }
{
    match blocks.label(label) {
        None => false,
        Some(found) => same_types(found, types),
    }
}

/// Whether two lists of types are equal.
pub(crate) fn same_types(left: &[ValType], right: &[ValType]) -> bool
    ensures { result ≡ same_types left.now right.now }
{
    left == right
}

fn call(env: &Env, func: u32, blocks: &mut OpenBlocks) -> Result<(), BodyInvalid>
    ensures { Moves result (apply (stack_effect (context_in env.now blocks.old) (tree.call func)) (innermost_stack blocks.old)) blocks.old blocks.new }
{
    match env.func(func) {
        None => Err(BodyInvalid::Invalid),
        Some(index) => match env.func_type(index) {
            None => Err(BodyInvalid::Invalid),
            Some(ty) => blocks.turn(ty.params.as_slice(), ty.results.as_slice()),
        },
    }
}

fn call_indirect(env: &Env, index: u32, blocks: &mut OpenBlocks) -> Result<(), BodyInvalid>
    ensures { Moves result (apply (stack_effect (context_in env.now blocks.old) (tree.call_indirect index)) (innermost_stack blocks.old)) blocks.old blocks.new }
{
    if !env.has_table() {
        return Err(BodyInvalid::Invalid);
    }
    match env.func_type(index) {
        None => Err(BodyInvalid::Invalid),
        Some(ty) => blocks.turn_i32(ty.params.as_slice(), ty.results.as_slice()),
    }
}

// ---- variables

fn local_get(env: &Env, local: u32, blocks: &mut OpenBlocks) -> Result<(), BodyInvalid>
    ensures { Moves result (apply (stack_effect (context_in env.now blocks.old) (tree.local_get local)) (innermost_stack blocks.old)) blocks.old blocks.new }
{
    match env.local(local) {
        None => Err(BodyInvalid::Invalid),
        Some(ty) => blocks.turn(&[], &[ty]),
    }
}

fn local_set(env: &Env, local: u32, blocks: &mut OpenBlocks) -> Result<(), BodyInvalid>
    ensures { Moves result (apply (stack_effect (context_in env.now blocks.old) (tree.local_set local)) (innermost_stack blocks.old)) blocks.old blocks.new }
{
    match env.local(local) {
        None => Err(BodyInvalid::Invalid),
        Some(ty) => blocks.turn(&[ty], &[]),
    }
}

fn local_tee(env: &Env, local: u32, blocks: &mut OpenBlocks) -> Result<(), BodyInvalid>
    ensures { Moves result (apply (stack_effect (context_in env.now blocks.old) (tree.local_tee local)) (innermost_stack blocks.old)) blocks.old blocks.new }
{
    match env.local(local) {
        None => Err(BodyInvalid::Invalid),
        Some(ty) => blocks.turn(&[ty], &[ty]),
    }
}

fn global_get(env: &Env, global: u32, blocks: &mut OpenBlocks) -> Result<(), BodyInvalid>
    ensures { Moves result (apply (stack_effect (context_in env.now blocks.old) (tree.global_get global)) (innermost_stack blocks.old)) blocks.old blocks.new }
{
    match env.global(global) {
        None => Err(BodyInvalid::Invalid),
        Some(found) => blocks.turn(&[], &[found.ty]),
    }
}

fn global_set(env: &Env, global: u32, blocks: &mut OpenBlocks) -> Result<(), BodyInvalid>
    ensures { Moves result (apply (stack_effect (context_in env.now blocks.old) (tree.global_set global)) (innermost_stack blocks.old)) blocks.old blocks.new }
{
    match env.global(global) {
        None => Err(BodyInvalid::Invalid),
        Some(found) => {
            if found.mutable {
                blocks.turn(&[found.ty], &[])
            } else {
                Err(BodyInvalid::Invalid)
            }
        }
    }
}

// ---- memory and numbers

// Whether 2 to the power `align` is at most `width`.
fn fits_width(align: u32, width: u32) -> bool
    requires { width < 16 }
    ensures { result ≡ nat_le (2 ^ align) width }
{
    match align {
        0 => 1 <= width,
        1 => 2 <= width,
        2 => 4 <= width,
        3 => 8 <= width,
        _ => false,
    }
}

fn is_aligned(env: &Env, align: u32, width: u32) -> bool
    requires { width < 16 }
    ensures { result ≡ (is_some_list env.now.memories && nat_le (2 ^ align) width) }
{
    env.has_memory() && fits_width(align, width)
}

fn load(env: &Env, op: LoadOp, at: MemArg, blocks: &mut OpenBlocks) -> Result<(), BodyInvalid>
    ensures { Moves result (apply (stack_effect (context_in env.now blocks.old) (tree.load op at)) (innermost_stack blocks.old)) blocks.old blocks.new }
{
    if is_aligned(env, at.align, op.width()) {
        blocks.turn(&[ValType::I32], &[op.ty()])
    } else {
        Err(BodyInvalid::Invalid)
    }
}

fn store(env: &Env, op: StoreOp, at: MemArg, blocks: &mut OpenBlocks) -> Result<(), BodyInvalid>
    ensures { Moves result (apply (stack_effect (context_in env.now blocks.old) (tree.store op at)) (innermost_stack blocks.old)) blocks.old blocks.new }
{
    if is_aligned(env, at.align, op.width()) {
        blocks.turn(&[ValType::I32, op.ty()], &[])
    } else {
        Err(BodyInvalid::Invalid)
    }
}

fn memory_size(env: &Env, blocks: &mut OpenBlocks) -> Result<(), BodyInvalid>
    ensures { Moves result (apply (stack_effect (context_in env.now blocks.old) tree.memory_size) (innermost_stack blocks.old)) blocks.old blocks.new }
{
    if env.has_memory() {
        blocks.turn(&[], &[ValType::I32])
    } else {
        Err(BodyInvalid::Invalid)
    }
}

fn memory_grow(env: &Env, blocks: &mut OpenBlocks) -> Result<(), BodyInvalid>
    ensures { Moves result (apply (stack_effect (context_in env.now blocks.old) tree.memory_grow) (innermost_stack blocks.old)) blocks.old blocks.new }
{
    if env.has_memory() {
        blocks.turn(&[ValType::I32], &[ValType::I32])
    } else {
        Err(BodyInvalid::Invalid)
    }
}
