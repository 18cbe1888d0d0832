// The check of a body in one pass, which notes the marks and the height.

ghost use Rattle.std.specs.Prelude.{◌≡◌, ◌+◌, ◌<◌, ◌^◌, Some, None, IfOk, MatchResult};
ghost use Rattle.module_ast.specs.Structure.{done, before, IsPlainInstr};
ghost use Rattle.module_ast.specs.Places.{code_size};
ghost use Rattle.module_ast.specs.Validation.{block_type, inside};
ghost use Rattle.module_ast.specs.declared.code.Instr.TheVariants.{Block, Loop, If, IfElse};
ghost use Rattle.ctrl_stack.specs.Stack.{types_by};
ghost use Rattle.code_valid.specs.Checking.{fresh, put_types};
ghost use Rattle.code_valid.specs.Control.{innermost_stack, height_here, context_in};
ghost use Rattle.code_valid.specs.Survey.{survey};
ghost use Rattle.code_valid.specs.Answers.{OnRefusal, SurveysCode, Steps, Passes};

use crate::blocks::{OpenBlocks, copied};
use crate::env::Env;
use crate::invalid::BodyInvalid;
use crate::plain::{act, same_types};
use crate::walk::Walk;
use module_ast::code::{BlockType, Code, Instr};
use std::alloc::Global;
use wasm_num::{BlockKind, ValType};

/// Checks a sequence in the innermost block, and notes what its live places have.
#[cycle(surveying)]
pub(crate) fn survey_code(
    alloc: Global,
    env: &Env,
    code: &Code,
    blocks: &mut OpenBlocks,
    walk: &mut Walk,
) -> Result<(), BodyInvalid>
    requires { walk.old.position + code_size code.now < 2 ^ 32 }
    ensures surveyed { SurveysCode result (survey (context_in env.now blocks.old) blocks.old.innermost.base code.now (innermost_stack blocks.old) walk.old) blocks.old blocks.new walk.new }
    ensures position { IfOk result (λ _. walk.new.position ≡ walk.old.position + code_size code.now) }
{
    for instr in code.as_slice() {
        survey_instr(alloc, env, instr, blocks, walk)?;
    }
    walk.see(blocks.height());
    Ok(())
}

// The types that a block takes, and the types that it leaves.
#[derive(Clone, Copy)]
struct BlockEnds<'m> {
    starts: &'m [ValType],
    results: &'m [ValType],
}

// Checks a block, or a branch of an `if`, from behind its opcode to its end. The operands that it takes were taken
// before.
#[cycle(surveying)]
fn survey_part(
    alloc: Global,
    env: &Env,
    kind: BlockKind,
    ends: BlockEnds,
    body: &Code,
    blocks: &mut OpenBlocks,
    walk: &mut Walk,
) -> Result<(), BodyInvalid>
    requires { walk.old.position + code_size body.now + 1 < 2 ^ 32 }
    ensures passes { Passes result ends.entry.results.now (survey (inside (context_in env.now blocks.old) (types_by kind ends.entry.starts.now ends.entry.results.now)) (height_here blocks.old) body.now (put_types ends.entry.starts.now fresh) walk.old) blocks.old blocks.new walk.old walk.new }
    ensures position { IfOk result (λ _. walk.new.position ≡ walk.old.position + code_size body.now + 1) }
{
    let live = walk.is_live();
    let starts = copied(alloc, ends.starts)?;
    let results = copied(alloc, ends.results)?;
    blocks.push_block(kind, starts, results)?;
    survey_code(alloc, env, body, blocks, walk)?;
    blocks.pop_block()?;
    walk.out_to(live);
    Ok(())
}

#[cycle(surveying)]
fn survey_block(
    alloc: Global,
    env: &Env,
    ty: BlockType,
    body: &Code,
    blocks: &mut OpenBlocks,
    walk: &mut Walk,
) -> Result<(), BodyInvalid>
    requires { walk.old.position + code_size (before (Block ty body.now) done) < 2 ^ 32 }
    ensures steps { Steps result (context_in env.now blocks.old) (before (Block ty body.now)) blocks.old blocks.new walk.old walk.new }
    ensures position { IfOk result (λ _. walk.new.position ≡ walk.old.position + code_size (before (Block ty body.now) done)) }
{
    let ends = block_ends(env, ty)?;
    walk.over();
    blocks.pop_all(ends.starts)?;
    survey_part(alloc, env, BlockKind::Block, ends, body, blocks, walk)?;
    blocks.push_all(ends.results)
}

#[cycle(surveying)]
fn survey_loop(
    alloc: Global,
    env: &Env,
    ty: BlockType,
    body: &Code,
    blocks: &mut OpenBlocks,
    walk: &mut Walk,
) -> Result<(), BodyInvalid>
    requires { walk.old.position + code_size (before (Loop ty body.now) done) < 2 ^ 32 }
    ensures steps { Steps result (context_in env.now blocks.old) (before (Loop ty body.now)) blocks.old blocks.new walk.old walk.new }
    ensures position { IfOk result (λ _. walk.new.position ≡ walk.old.position + code_size (before (Loop ty body.now) done)) }
{
    let ends = block_ends(env, ty)?;
    walk.over();
    blocks.pop_all(ends.starts)?;
    survey_part(alloc, env, BlockKind::Loop, ends, body, blocks, walk)?;
    blocks.push_all(ends.results)
}

#[cycle(surveying)]
fn survey_if(
    alloc: Global,
    env: &Env,
    ty: BlockType,
    body: &Code,
    blocks: &mut OpenBlocks,
    walk: &mut Walk,
) -> Result<(), BodyInvalid>
    requires { walk.old.position + code_size (before (If ty body.now) done) < 2 ^ 32 }
    ensures steps { Steps result (context_in env.now blocks.old) (before (If ty body.now)) blocks.old blocks.new walk.old walk.new }
    ensures position { IfOk result (λ _. walk.new.position ≡ walk.old.position + code_size (before (If ty body.now) done)) }
{
    let ends = block_ends(env, ty)?;
    walk.see(blocks.height());
    walk.over();
    blocks.pop_i32()?;
    blocks.pop_all(ends.starts)?;
    if !same_types(ends.starts, ends.results) {
        return Err(BodyInvalid::Invalid);
    }
    survey_part(alloc, env, BlockKind::If, ends, body, blocks, walk)?;
    blocks.push_all(ends.results)
}

#[cycle(surveying)]
fn survey_if_else(
    alloc: Global,
    env: &Env,
    ty: BlockType,
    body: &Code,
    other: &Code,
    blocks: &mut OpenBlocks,
    walk: &mut Walk,
) -> Result<(), BodyInvalid>
    requires { walk.old.position + code_size (before (IfElse ty body.now other.now) done) < 2 ^ 32 }
    ensures steps { Steps result (context_in env.now blocks.old) (before (IfElse ty body.now other.now)) blocks.old blocks.new walk.old walk.new }
    ensures position { IfOk result (λ _. walk.new.position ≡ walk.old.position + code_size (before (IfElse ty body.now other.now) done)) }
{
    let ends = block_ends(env, ty)?;
    walk.see(blocks.height());
    walk.over();
    blocks.pop_i32()?;
    blocks.pop_all(ends.starts)?;
    survey_part(alloc, env, BlockKind::If, ends, body, blocks, walk)?;
    survey_part(alloc, env, BlockKind::Else, ends, other, blocks, walk)?;
    blocks.push_all(ends.results)
}

#[cycle(surveying)]
fn survey_instr(
    alloc: Global,
    env: &Env,
    instr: &Instr,
    blocks: &mut OpenBlocks,
    walk: &mut Walk,
) -> Result<(), BodyInvalid>
    requires { walk.old.position + code_size (before instr.now done) < 2 ^ 32 }
    ensures steps { Steps result (context_in env.now blocks.old) (before instr.now) blocks.old blocks.new walk.old walk.new }
    ensures position { IfOk result (λ _. walk.new.position ≡ walk.old.position + code_size (before instr.now done)) }
{
    match instr {
        Instr::Block(ty, body) => survey_block(alloc, env, *ty, body, blocks, walk),
        Instr::Loop(ty, body) => survey_loop(alloc, env, *ty, body, blocks, walk),
        Instr::If(ty, body) => survey_if(alloc, env, *ty, body, blocks, walk),
        Instr::IfElse(ty, body, other) => {
            survey_if_else(alloc, env, *ty, body, other, blocks, walk)
        }
        _ => survey_plain(alloc, env, instr, blocks, walk),
    }
}

// Checks an instruction without a nested sequence.
fn survey_plain(
    alloc: Global,
    env: &Env,
    instr: &Instr,
    blocks: &mut OpenBlocks,
    walk: &mut Walk,
) -> Result<(), BodyInvalid>
    requires plain { IsPlainInstr instr.now }
    requires room { walk.old.position + code_size (before instr.now done) < 2 ^ 32 }
    ensures steps { Steps result (context_in env.now blocks.old) (before instr.now) blocks.old blocks.new walk.old walk.new }
    ensures position { IfOk result (λ _. walk.new.position ≡ walk.old.position + code_size (before instr.now done)) }
{
    walk.see(blocks.height());
    let ty = act(alloc, env, instr, blocks)?;
    walk.pass(ty, instr.goes_on())?;
    Ok(())
}

// The types that a block of this type takes and leaves; `Invalid` if the block type names no type of the module.
// (Standard, 3.2.2)
fn block_ends<'m>(env: &Env<'m>, ty: BlockType) -> Result<BlockEnds<'m>, BodyInvalid>
    ensures { MatchResult result (λ ends. block_type env.now.types ty ≡ Some (record { params = ends.starts.now; results = ends.results.now })) (λ e. OnRefusal e (block_type env.now.types ty ≡ None)) }
{
    let (starts, results): (&[ValType], &[ValType]) = match ty {
        BlockType::Empty => (&[], &[]),
        BlockType::Value(ValType::I32) => (&[], &[ValType::I32]),
        BlockType::Value(ValType::I64) => (&[], &[ValType::I64]),
        BlockType::Indexed(index) => match env.func_type(index) {
            None => return Err(BodyInvalid::Invalid),
            Some(found) => (found.params.as_slice(), found.results.as_slice()),
        },
    };
    Ok(BlockEnds { starts, results })
}
