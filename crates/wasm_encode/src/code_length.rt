// The lengths of instructions in bytes.

ghost use Rattle.std.specs.Prelude.{◌≡◌, [], ◌∷◌, ◌++◌, ◌+◌, ◌*◌, ◌-◌, ◌<◌, ◌≤◌, ◌^◌, All, length, min};
ghost use Rattle.leb_binary.specs.Shortest.{unsigned_bytes, signed_bytes};
ghost use Rattle.module_ast.specs.Structure.{Tree, before, code_of, IsPlainInstr};
ghost use Rattle.module_ast.specs.Binary.{FitsIndex, FitsMemArg, FitsCode, vec_bytes, mem_arg_bytes, code_bytes, expr_bytes};
ghost use Rattle.wasm_encode.specs.Lengths.{most_bytes};

use crate::numbers::index_length;
use crate::types::block_type_length;
use leb_binary::{signed_length, unsigned_length};
use module_ast::code::{Code, Instr};
use module_ast::ops::MemArg;

// An opcode and an index.
fn indexed_length(index: u32) -> u64
    ensures length { result ≡ 1 + length (unsigned_bytes index) }
    ensures bound { result ≤ 6 }
{
    1 + index_length(index)
}

fn table_branch_length(labels: &[u32], last: u32) -> u64
    ensures length { result ≡ 1 + length (vec_bytes unsigned_bytes labels.now ++ unsigned_bytes last) }
    ensures bound { result ≤ 16 + 5 * length labels.now }
    ensures fit { All FitsIndex labels.now }
{
    let mut total = unsigned_length(labels.len() as u64);
    for label in labels {
        total += index_length(*label);
    }
    total + indexed_length(last)
}

// The opcode of a load or store, its alignment and its offset.
fn access_length(arg: MemArg) -> u64
    ensures length { result ≡ 1 + length (mem_arg_bytes arg) }
    ensures bound { result ≤ 11 }
    ensures fit { FitsMemArg arg }
{
    1 + index_length(arg.align) + index_length(arg.offset)
}

fn const_length(value: i64) -> u64
    ensures length { result ≡ 1 + length (signed_bytes value) }
    ensures bound { result ≤ 11 }
{
    1 + signed_length(value)
}

/// The number of bytes of an instruction without a nested sequence (5.4).
pub fn plain_length(instr: &Instr) -> u64
    requires { IsPlainInstr instr.now }
    ensures length { (t : Tree) → result + length (code_bytes t) ≡ length (code_bytes (before instr.now t)) }
    ensures bound { result ≤ most_bytes instr.now }
    ensures fit { (t : Tree) → FitsCode t → FitsCode (before instr.now t) }
{
    match instr {
        Instr::Br(label) => indexed_length(*label),
        Instr::BrIf(label) => indexed_length(*label),
        Instr::BrTable(labels, last) => table_branch_length(labels.as_slice(), *last),
        Instr::Call(func) => indexed_length(*func),
        Instr::CallIndirect(ty) => 1 + indexed_length(*ty),
        Instr::LocalGet(local) => indexed_length(*local),
        Instr::LocalSet(local) => indexed_length(*local),
        Instr::LocalTee(local) => indexed_length(*local),
        Instr::GlobalGet(global) => indexed_length(*global),
        Instr::GlobalSet(global) => indexed_length(*global),
        Instr::Load(_, arg) => access_length(*arg),
        Instr::Store(_, arg) => access_length(*arg),
        Instr::MemorySize | Instr::MemoryGrow => 2,
        Instr::I32Const(value) => const_length(i64::from(*value)),
        Instr::I64Const(value) => const_length(*value),
        _ => 1,
    }
}

/// The number of bytes of instructions, without an `end` behind them; 2^64 - 1 if there are more (5.4).
#[cycle(code_length)]
pub fn instrs_length(instrs: &[Instr]) -> u64
    ensures length { result ≡ min (length (code_bytes (code_of instrs.now))) (2 ^ 64 - 1) }
    ensures fit { FitsCode (code_of instrs.now) }
{
    let mut total: u64 = 0;
    for instr in instrs {
        total = total.saturating_add(instr_length(instr));
    }
    total
}

// The number of bytes of one instruction; 2^64 - 1 if there are more.
#[cycle(code_length)]
fn instr_length(instr: &Instr) -> u64
    ensures length { (t : Tree) → min (result + length (code_bytes t)) (2 ^ 64 - 1) ≡ min (length (code_bytes (before instr.now t))) (2 ^ 64 - 1) }
    ensures fit { (t : Tree) → FitsCode t → FitsCode (before instr.now t) }
{
    match instr {
        Instr::Block(ty, body) | Instr::Loop(ty, body) | Instr::If(ty, body) => {
            instrs_length(body.as_slice()).saturating_add(2 + block_type_length(*ty))
        }
        Instr::IfElse(ty, body, other) => {
            let then_part = instrs_length(body.as_slice());
            let both = then_part.saturating_add(instrs_length(other.as_slice()));
            both.saturating_add(3 + block_type_length(*ty))
        }
        _ => plain_length(instr),
    }
}

/// The number of bytes of instructions and the `end` behind them (5.4.6).
pub fn expr_length(code: &Code) -> u64
    requires { length (expr_bytes code.now) < 2 ^ 63 }
    ensures length { result ≡ length (expr_bytes code.now) }
    ensures fit { FitsCode code.now }
{
    instrs_length(code.as_slice()) + 1
}
