// Code that pushes values as words.

ghost use Rattle.std.specs.Prelude.{◌≡◌, ◌++◌, OnOk};
ghost use Rattle.i64_split.specs.Split.{word_code, words_code};
ghost use Rattle.i64_split.specs.Pushing.{AddsPrefix, instrs};

use crate::Temp;
use crate::pushing::{push_one, push_three};
use module_ast::code::Instr;
use std::alloc::AllocError;
use wasm_num::{NumOp, ValType};

/// Appends code that pushes the words of a local: an i32 is one word, an i64 two, the low word first. An `AllocError`
/// if memory runs out; the first few of the instructions may then have been appended.
pub fn push_value(code: &mut Vec<Instr>, ty: ValType, local: u32) -> Result<(), AllocError>
    ensures added { OnOk result (code.new.items ≡ code.old.items ++ instrs (word_code ty local)) }
    ensures prefix { AddsPrefix code.old.items code.new.items (instrs (word_code ty local)) }
{
    match ty {
        ValType::I32 => push_one(code, Instr::LocalGet(local)),
        ValType::I64 => {
            let wrap = Instr::Num(NumOp::I32WrapI64);
            push_three(code, Instr::LocalGet(local), wrap, Instr::LocalGet(local))?;
            let shift = Instr::Num(NumOp::I64ShrU);
            let wrap = Instr::Num(NumOp::I32WrapI64);
            push_three(code, Instr::I64Const(32), shift, wrap)
        }
    }
}

/// Appends code that pushes the words of each of these temporaries, in order. An `AllocError` if memory runs out; the
/// first few of the instructions may then have been appended.
pub fn push_values(code: &mut Vec<Instr>, temps: &[Temp]) -> Result<(), AllocError>
    ensures added { OnOk result (code.new.items ≡ code.old.items ++ instrs (words_code temps.now)) }
    ensures prefix { AddsPrefix code.old.items code.new.items (instrs (words_code temps.now)) }
{
    for temp in temps {
        push_value(code, temp.ty, temp.local)?;
    }
    Ok(())
}
