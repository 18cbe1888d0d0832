// Reads the fields that are one byte: kinds of blocks, accesses and operations.

ghost use Rattle.std.specs.Prelude.{◌≡◌, ◌∷◌, []};
ghost use Rattle.wasm_num.specs.Kinds.{kind_number};
ghost use Rattle.wasm_num.specs.Opcodes.{num_opcode};
ghost use Rattle.module_ast.specs.Binary.{load_opcode, store_opcode};
ghost use Rattle.trace_file.specs.Fields.{var_number, var_of_number};

use crate::field::{ReadTraceFault, Take};
use leb_binary::Cursor;
use module_ast::ops::{LoadOp, StoreOp, VarOp};
use std::alloc::Global;
use wasm_num::{BlockKind, NumOp};

/// The number of an access to a variable: 0 for get, 1 for set and 2 for tee.
pub(crate) fn var_number(op: VarOp) -> u8
    ensures { result ≡ var_number op }
{
    match op {
        VarOp::Get => 0,
        VarOp::Set => 1,
        VarOp::Tee => 2,
    }
}

// The access to a variable that has this number; `None` above 2.
fn var_of_number(number: u8) -> Option<VarOp>
    ensures { result ≡ var_of_number number }
{
    match number {
        0 => Some(VarOp::Get),
        1 => Some(VarOp::Set),
        2 => Some(VarOp::Tee),
        _ => None,
    }
}

impl Take for BlockKind {
    ghost spelling = { λ kind. kind_number kind ∷ [] };

    ghost fits = { λ _. Unit {0} };

    fn take(alloc: Global, cursor: &mut Cursor<'_>) -> Result<BlockKind, ReadTraceFault> {
        BlockKind::of_number(u8::take(alloc, cursor)?).ok_or(ReadTraceFault::NotTrace)
    }
}

impl Take for VarOp {
    ghost spelling = { λ op. var_number op ∷ [] };

    ghost fits = { λ _. Unit {0} };

    fn take(alloc: Global, cursor: &mut Cursor<'_>) -> Result<VarOp, ReadTraceFault> {
        var_of_number(u8::take(alloc, cursor)?).ok_or(ReadTraceFault::NotTrace)
    }
}

impl Take for NumOp {
    ghost spelling = { λ op. num_opcode op ∷ [] };

    ghost fits = { λ _. Unit {0} };

    fn take(alloc: Global, cursor: &mut Cursor<'_>) -> Result<NumOp, ReadTraceFault> {
        NumOp::of_opcode(u8::take(alloc, cursor)?).ok_or(ReadTraceFault::NotTrace)
    }
}

impl Take for LoadOp {
    ghost spelling = { λ op. load_opcode op ∷ [] };

    ghost fits = { λ _. Unit {0} };

    fn take(alloc: Global, cursor: &mut Cursor<'_>) -> Result<LoadOp, ReadTraceFault> {
        LoadOp::of_opcode(u8::take(alloc, cursor)?).ok_or(ReadTraceFault::NotTrace)
    }
}

impl Take for StoreOp {
    ghost spelling = { λ op. store_opcode op ∷ [] };

    ghost fits = { λ _. Unit {0} };

    fn take(alloc: Global, cursor: &mut Cursor<'_>) -> Result<StoreOp, ReadTraceFault> {
        StoreOp::of_opcode(u8::take(alloc, cursor)?).ok_or(ReadTraceFault::NotTrace)
    }
}
