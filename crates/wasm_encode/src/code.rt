// Instructions as bytes (5.4).

ghost use Rattle.std.specs.Prelude.{◌≡◌, [], ◌∷◌, ◌++◌, OnOk};
ghost use Rattle.leb_binary.specs.Shortest.{unsigned_bytes, signed_bytes};
ghost use Rattle.module_ast.specs.Structure.{Tree, before};
ghost use Rattle.module_ast.specs.Binary.{vec_bytes, mem_arg_bytes, block_type_bytes, code_bytes, expr_bytes};

use crate::types::put_block_type;
use crate::vectors::put_vec;
use leb_binary::{put_s32, put_s64, put_u32};
use module_ast::code::{BlockType, Code, Instr};
use module_ast::ops::MemArg;
use std::alloc::AllocError;

fn put_opcode(out: &mut Vec<u8>, opcode: u8) -> Result<(), AllocError>
    ensures { OnOk result (out.new.items ≡ out.old.items ++ opcode ∷ []) }
{
    out.push(opcode)?;
    Ok(())
}

// Appends an opcode and one byte.
fn put_two(out: &mut Vec<u8>, opcode: u8, byte: u8) -> Result<(), AllocError>
    ensures { OnOk result (out.new.items ≡ out.old.items ++ opcode ∷ byte ∷ []) }
{
    out.push(opcode)?;
    out.push(byte)?;
    Ok(())
}

// Appends an opcode and an index.
fn put_indexed(out: &mut Vec<u8>, opcode: u8, index: u32) -> Result<(), AllocError>
    ensures { OnOk result (out.new.items ≡ out.old.items ++ opcode ∷ unsigned_bytes index) }
{
    out.push(opcode)?;
    put_u32(out, index)
}

// Appends a `br_table`: its labels, and the label for all greater operands.
fn put_table_branch(out: &mut Vec<u8>, labels: &[u32], last: u32) -> Result<(), AllocError>
    ensures { OnOk result (out.new.items ≡ out.old.items ++ 0x0E ∷ (vec_bytes unsigned_bytes labels.now ++ unsigned_bytes last)) }
{
    out.push(0x0E)?;
    put_vec(out, labels)?;
    put_u32(out, last)
}

// Appends a `call_indirect` through table 0.
fn put_indirect_call(out: &mut Vec<u8>, ty: u32) -> Result<(), AllocError>
    ensures { OnOk result (out.new.items ≡ out.old.items ++ 0x11 ∷ (unsigned_bytes ty ++ 0x00 ∷ [])) }
{
    out.push(0x11)?;
    put_u32(out, ty)?;
    out.push(0x00)?;
    Ok(())
}

// Appends the opcode of a load or store, its alignment and its offset.
fn put_access(out: &mut Vec<u8>, opcode: u8, arg: MemArg) -> Result<(), AllocError>
    ensures { OnOk result (out.new.items ≡ out.old.items ++ opcode ∷ mem_arg_bytes arg) }
{
    out.push(opcode)?;
    put_u32(out, arg.align)?;
    put_u32(out, arg.offset)
}

fn put_i32_const(out: &mut Vec<u8>, value: i32) -> Result<(), AllocError>
    ensures { OnOk result (out.new.items ≡ out.old.items ++ 0x41 ∷ signed_bytes value) }
{
    out.push(0x41)?;
    put_s32(out, value)
}

fn put_i64_const(out: &mut Vec<u8>, value: i64) -> Result<(), AllocError>
    ensures { OnOk result (out.new.items ≡ out.old.items ++ 0x42 ∷ signed_bytes value) }
{
    out.push(0x42)?;
    put_s64(out, value)
}

/// Appends instructions, without an `end` behind them.
#[cycle(code)]
pub fn put_code(out: &mut Vec<u8>, code: &Code) -> Result<(), AllocError>
    ensures { OnOk result (out.new.items ≡ out.old.items ++ code_bytes code.now) }
{
    for instr in code.as_slice() {
        put_instr(out, instr)?;
    }
    Ok(())
}

// Appends the opcode of a block and the type of the block.
fn put_opening(out: &mut Vec<u8>, opcode: u8, ty: BlockType) -> Result<(), AllocError>
    ensures { OnOk result (out.new.items ≡ out.old.items ++ opcode ∷ block_type_bytes ty) }
{
    out.push(opcode)?;
    put_block_type(out, ty)
}

// Appends a block, a loop or an `if` without `else`, with its `end`.
#[cycle(code)]
fn put_block(out: &mut Vec<u8>, opcode: u8, ty: BlockType, body: &Code) -> Result<(), AllocError>
    ensures { OnOk result (out.new.items ≡ out.old.items ++ opcode ∷ (block_type_bytes ty ++ code_bytes body.now ++ 0x0B ∷ [])) }
{
    put_opening(out, opcode, ty)?;
    put_code(out, body)?;
    put_opcode(out, 0x0B)
}

// Appends an `if` with its two branches and its `end`.
#[cycle(code)]
fn put_if_else(
    out: &mut Vec<u8>,
    ty: BlockType,
    body: &Code,
    other: &Code,
) -> Result<(), AllocError>
    ensures { OnOk result (out.new.items ≡ out.old.items ++ 0x04 ∷ (block_type_bytes ty ++ code_bytes body.now ++ 0x05 ∷ (code_bytes other.now ++ 0x0B ∷ []))) }
{
    put_opening(out, 0x04, ty)?;
    put_code(out, body)?;
    put_opcode(out, 0x05)?;
    put_code(out, other)?;
    put_opcode(out, 0x0B)
}

#[tactic(auto, using(std::proofs::lemmas::Grind::common_steps))]
#[cycle(code)]
fn put_instr(out: &mut Vec<u8>, instr: &Instr) -> Result<(), AllocError>
    ensures { OnOk result ((t : Tree) → out.new.items ++ code_bytes t ≡ out.old.items ++ code_bytes (before instr.now t)) }
{
    match instr {
        Instr::Unreachable => put_opcode(out, 0x00),
        Instr::Nop => put_opcode(out, 0x01),
        Instr::Block(ty, body) => put_block(out, 0x02, *ty, body),
        Instr::Loop(ty, body) => put_block(out, 0x03, *ty, body),
        Instr::If(ty, body) => put_block(out, 0x04, *ty, body),
        Instr::IfElse(ty, body, other) => put_if_else(out, *ty, body, other),
        Instr::Br(label) => put_indexed(out, 0x0C, *label),
        Instr::BrIf(label) => put_indexed(out, 0x0D, *label),
        Instr::BrTable(labels, last) => put_table_branch(out, labels.as_slice(), *last),
        Instr::Return => put_opcode(out, 0x0F),
        Instr::Call(func) => put_indexed(out, 0x10, *func),
        Instr::CallIndirect(ty) => put_indirect_call(out, *ty),
        Instr::Drop => put_opcode(out, 0x1A),
        Instr::Select => put_opcode(out, 0x1B),
        Instr::LocalGet(local) => put_indexed(out, 0x20, *local),
        Instr::LocalSet(local) => put_indexed(out, 0x21, *local),
        Instr::LocalTee(local) => put_indexed(out, 0x22, *local),
        Instr::GlobalGet(global) => put_indexed(out, 0x23, *global),
        Instr::GlobalSet(global) => put_indexed(out, 0x24, *global),
        Instr::Load(op, arg) => put_access(out, op.opcode(), *arg),
        Instr::Store(op, arg) => put_access(out, op.opcode(), *arg),
        Instr::MemorySize => put_two(out, 0x3F, 0x00),
        Instr::MemoryGrow => put_two(out, 0x40, 0x00),
        Instr::I32Const(value) => put_i32_const(out, *value),
        Instr::I64Const(value) => put_i64_const(out, *value),
        Instr::Num(op) => put_opcode(out, op.opcode()),
    }
}

/// Appends instructions and the `end` behind them (5.4.6).
pub fn put_expr(out: &mut Vec<u8>, code: &Code) -> Result<(), AllocError>
    ensures { OnOk result (out.new.items ≡ out.old.items ++ expr_bytes code.now) }
{
    put_code(out, code)?;
    put_opcode(out, 0x0B)
}
