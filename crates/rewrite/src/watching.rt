// Instructions whose own hook is called. Temporaries keep what they take and give.

ghost use Rattle.std.specs.Prelude.{◌≡◌, ◌++◌, ◌∷◌, [], true, take, drop, OnOk};
ghost use Rattle.module_ast.specs.Structure.Trees as tree;
ghost use Rattle.module_ast.specs.Structure.{Plain, instr_of, local_tee};
ghost use Rattle.i64_split.specs.Split.{temps, words_by, words_code, sets, gets, HasTemps};
ghost use Rattle.i64_split.specs.Pushing.{instrs};
ghost use Rattle.rewrite_needs.specs.Watching.{kept_temps};
ghost use Rattle.rewrite.specs.Setting.{tell};
ghost use Rattle.rewrite.specs.Templates.{keep_code, tee_code, kept_code, args_code, told_by};
ghost use Rattle.rewrite.specs.Emitted.{HasRoom, one_if_same};

use crate::setting::Setting;
use crate::telling::push_constants;
use crate::templates::push_tee;
use i64_split::{Temp, push_gets, push_one, push_sets, push_three, push_value, push_values};
use module_ast::code::Instr;
use rewrite_needs::{Telling, Watch};
use std::alloc::{AllocError, Global};
use wasm_num::{NumOp, ValType};

// Adds the code that leaves operands on the operand stack and in these temporaries too.
fn push_keep(temps: &[Temp], code: &mut Vec<Instr>) -> Result<(), AllocError>
    ensures { OnOk result (code.new.items ≡ code.old.items ++ instrs (keep_code temps.now)) }
{
    match temps {
        [] => Ok(()),
        [a] => push_one(code, Instr::LocalTee(a.local)),
        [a, b] => {
            let keep = Instr::LocalTee(a.local);
            push_three(
                code,
                Instr::LocalSet(b.local),
                keep,
                Instr::LocalGet(b.local),
            )
        }
        [first, rest @ ..] => push_keep_first(first.local, rest, code),
    }
}

// The same with the first temporary apart from the rest.
fn push_keep_first(first: u32, rest: &[Temp], code: &mut Vec<Instr>) -> Result<(), AllocError>
    ensures { OnOk result (code.new.items ≡ code.old.items ++ instrs (sets rest.now ++ local_tee first ∷ gets rest.now)) }
{
    push_sets(code, rest)?;
    push_one(code, Instr::LocalTee(first))?;
    push_gets(code, rest)
}

// The first `count` of these temporaries, or all if there are fewer.
fn first_of(temps: &[Temp], count: usize) -> &[Temp]
    ensures { result.now ≡ take count temps.now }
{
    temps.split_at(count.min(temps.len())).0
}

// The temporaries after the first `count`.
fn behind(temps: &[Temp], count: usize) -> &[Temp]
    ensures { result.now ≡ drop count temps.now }
{
    temps.split_at(count.min(temps.len())).1
}

// Adds an instruction, with code that keeps its operands in temporaries, and its result in another if there is one.
fn push_kept(
    operands: &[Temp],
    left: &[Temp],
    instr: Instr,
    code: &mut Vec<Instr>,
) -> Result<(), AllocError>
    ensures { OnOk result ((i : Plain) → instr ≡ instr_of i → code.new.items ≡ code.old.items ++ instrs (keep_code operands.now ++ (i ∷ tee_code left.now))) }
{
    push_keep(operands, code)?;
    push_one(code, instr)?;
    push_tee(left, code)
}

// Adds the code that pushes the words of a global.
fn push_global_words(ty: ValType, global: u32, code: &mut Vec<Instr>) -> Result<(), AllocError>
    ensures { OnOk result (code.new.items ≡ code.old.items ++ instrs (words_by (tree.global_get global) ty)) }
{
    match ty {
        ValType::I32 => push_one(code, Instr::GlobalGet(global)),
        ValType::I64 => {
            let wrap = Instr::Num(NumOp::I32WrapI64);
            push_three(
                code,
                Instr::GlobalGet(global),
                wrap,
                Instr::GlobalGet(global),
            )?;
            let shift = Instr::Num(NumOp::I64ShrU);
            let wrap = Instr::Num(NumOp::I32WrapI64);
            push_three(code, Instr::I64Const(32), shift, wrap)
        }
    }
}

// Adds the code that pushes what a hook call tells besides the words of temporaries.
fn push_args(told: &Telling, code: &mut Vec<Instr>) -> Result<(), AllocError>
    ensures { OnOk result (code.new.items ≡ code.old.items ++ instrs (args_code told.now)) }
{
    match told {
        Telling::Before | Telling::Dropped(_) | Telling::Kept(None, _, _) => Ok(()),
        Telling::Int(value) => push_one(code, Instr::I32Const(*value)),
        Telling::Long(value) => {
            let bits = value.cast_unsigned();
            let words = [(bits % (1 << 32)) as u32, (bits / (1 << 32)) as u32];
            push_constants(code, &words)
        }
        Telling::Local(local, ty) => {
            push_one(code, Instr::I32Const(local.cast_signed()))?;
            push_value(code, *ty, *local)
        }
        Telling::Global(global, ty) => {
            push_one(code, Instr::I32Const(global.cast_signed()))?;
            push_global_words(*ty, *global, code)
        }
        Telling::Kept(Some(offset), _, _) => {
            push_one(code, Instr::I32Const(offset.cast_signed()))
        }
    }
}

// 1 if the types are the same, and 0 otherwise.
fn are_same(a: ValType, b: ValType) -> u32
    ensures { result ≡ one_if_same a b }
{
    match (a, b) {
        (ValType::I32, ValType::I32) | (ValType::I64, ValType::I64) => 1,
        _ => 0,
    }
}

impl<'m> Setting<'m> {
    /// The first temporary of this type.
    pub fn one_temp(&self, ty: ValType) -> [Temp; 1]
        requires { HasTemps self.now.pool 0 (ty ∷ []) }
        ensures { result ≡ temps self.now.pool (ty ∷ []) }
    {
        [Temp {
            ty,
            local: self.pool.local(ty, 0),
        }]
    }

    /// Temporaries of these types, each in a local of its own.
    pub(crate) fn two_temps(&self, a: ValType, b: ValType) -> [Temp; 2]
        requires { HasTemps self.now.pool 0 (a ∷ b ∷ []) }
        ensures { result ≡ temps self.now.pool (a ∷ b ∷ []) }
    {
        let first = Temp {
            ty: a,
            local: self.pool.local(a, 0),
        };
        let second = Temp {
            ty: b,
            local: self.pool.local(b, are_same(a, b)),
        };
        [first, second]
    }

    /// Temporaries of these types, each in a local of its own.
    pub(crate) fn three_temps(&self, a: ValType, b: ValType, c: ValType) -> [Temp; 3]
        requires { HasTemps self.now.pool 0 (a ∷ b ∷ c ∷ []) }
        ensures { result ≡ temps self.now.pool (a ∷ b ∷ c ∷ []) }
    {
        let first = Temp {
            ty: a,
            local: self.pool.local(a, 0),
        };
        let second = Temp {
            ty: b,
            local: self.pool.local(b, are_same(a, b)),
        };
        let third = Temp {
            ty: c,
            local: self.pool.local(c, are_same(a, c) + are_same(b, c)),
        };
        [first, second, third]
    }

    // Adds the hook call that tells this, and the words of these temporaries.
    fn push_told(
        &self,
        position: i32,
        watch: &Watch,
        temps: &[Temp],
        code: &mut Vec<Instr>,
    ) -> Result<(), AllocError>
        ensures { OnOk result (code.new.items ≡ code.old.items ++ instrs (tell self.now position watch.now.key (args_code watch.now.told ++ words_code temps.now))) }
    {
        self.push_location(position, code)?;
        push_args(&watch.told, code)?;
        push_values(code, temps)?;
        self.push_call(&watch.key, code)
    }

    // Adds an instruction and the hook call after it. The first temporaries are for its operands, and one after them is for
    // its result.
    fn push_kept_told(
        &self,
        position: i32,
        watch: &Watch,
        operands: usize,
        temps: &[Temp],
        instr: Instr,
        code: &mut Vec<Instr>,
    ) -> Result<(), AllocError>
        ensures { OnOk result ((i : Plain) → instr ≡ instr_of i → code.new.items ≡ code.old.items ++ instrs (kept_code operands i temps.now ++ tell self.now position watch.now.key (args_code watch.now.told ++ words_code temps.now))) }
    {
        let first = first_of(temps, operands);
        let left = behind(temps, operands);
        push_kept(first, left, instr, code)?;
        self.push_told(position, watch, temps, code)
    }

    // The same with temporaries of these types.
    fn push_in_temps(
        &self,
        alloc: Global,
        position: i32,
        watch: &Watch,
        operands: usize,
        types: &[ValType],
        instr: Instr,
        code: &mut Vec<Instr>,
    ) -> Result<(), AllocError>
        requires { HasTemps self.now.pool 0 types.now }
        ensures { let ts = temps self.now.pool types.now in OnOk result ((i : Plain) → instr ≡ instr_of i → code.new.items ≡ code.old.items ++ instrs (kept_code operands i ts ++ tell self.now position watch.now.key (args_code watch.now.told ++ words_code ts))) }
    {
        match types {
            [a] => {
                let temps = self.one_temp(*a);
                self.push_kept_told(position, watch, operands, &temps, instr, code)
            }
            [a, b] => {
                let temps = self.two_temps(*a, *b);
                self.push_kept_told(position, watch, operands, &temps, instr, code)
            }
            [a, b, c] => {
                let temps = self.three_temps(*a, *b, *c);
                self.push_kept_told(position, watch, operands, &temps, instr, code)
            }
            _ => {
                let temps = self.pool.temps(alloc, types, 0)?;
                self.push_kept_told(position, watch, operands, &temps, instr, code)
            }
        }
    }

    /// Adds a live instruction and the hook call that tells it. An `Err` comes if there is no memory.
    pub(crate) fn push_watched(
        &self,
        alloc: Global,
        watch: &Watch,
        instr: Instr,
        position: i32,
        code: &mut Vec<Instr>,
    ) -> Result<(), AllocError>
        requires { HasRoom self.now.pool (kept_temps true watch.now.told) }
        ensures { OnOk result ((i : Plain) → instr ≡ instr_of i → code.new.items ≡ code.old.items ++ instrs (told_by true self.now position watch.now.key watch.now.told i)) }
    {
        match &watch.told {
            Telling::Before => {
                self.push_told(position, watch, &[], code)?;
                push_one(code, instr)
            }
            Telling::Dropped(ty) => {
                let temps = self.one_temp(*ty);
                push_sets(code, &temps)?;
                self.push_told(position, watch, &temps, code)
            }
            Telling::Kept(_, operands, types) => {
                let types = types.as_slice();
                self.push_in_temps(alloc, position, watch, *operands, types, instr, code)
            }
            _ => {
                push_one(code, instr)?;
                self.push_told(position, watch, &[], code)
            }
        }
    }
}
