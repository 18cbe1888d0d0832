// Code that keeps operands in temporaries.

ghost use Rattle.std.specs.Prelude.{◌≡◌, ◌+◌, ◌≤◌, ◌<◌, ◌^◌, ◌++◌, OnOk};
ghost use Rattle.i64_split.specs.Split.{temps_from, ints_in, longs_in, sets, gets, save_code, HasTemps};
ghost use Rattle.i64_split.specs.Pushing.{AddsPrefix, instrs};

use crate::{Pool, Temp};
use module_ast::code::Instr;
use std::alloc::AllocError;
use wasm_num::ValType;

/// Appends code that pops operands into these temporaries, the topmost operand into the last. An `AllocError` if memory
/// runs out; the first few of the instructions may then have been appended.
pub fn push_sets(code: &mut Vec<Instr>, temps: &[Temp]) -> Result<(), AllocError>
    ensures added { OnOk result (code.new.items ≡ code.old.items ++ instrs (sets temps.now)) }
    ensures prefix { AddsPrefix code.old.items code.new.items (instrs (sets temps.now)) }
{
    let mut left = temps.len();
    while left > 0 {
        left -= 1;
        code.push(Instr::LocalSet(temps[left].local))?;
    }
    Ok(())
}

/// Appends code that pushes these temporaries, in order. An `AllocError` if memory runs out; the first few of the
/// instructions may then have been appended.
pub fn push_gets(code: &mut Vec<Instr>, temps: &[Temp]) -> Result<(), AllocError>
    ensures added { OnOk result (code.new.items ≡ code.old.items ++ instrs (gets temps.now)) }
    ensures prefix { AddsPrefix code.old.items code.new.items (instrs (gets temps.now)) }
{
    for temp in temps {
        code.push(Instr::LocalGet(temp.local))?;
    }
    Ok(())
}

/// Appends code that pops operands into these temporaries, the topmost operand into the last, and pushes them again. An
/// `AllocError` if memory runs out; the first few of the instructions may then have been appended.
pub fn save_in(code: &mut Vec<Instr>, temps: &[Temp]) -> Result<(), AllocError>
    ensures added { OnOk result (code.new.items ≡ code.old.items ++ instrs (save_code temps.now)) }
    ensures prefix { AddsPrefix code.old.items code.new.items (instrs (save_code temps.now)) }
{
    push_sets(code, temps)?;
    push_gets(code, temps)
}

// How many of the types are i32.
fn count_ints(types: &[ValType]) -> usize
    ensures { result ≡ ints_in types.now }
{
    let mut count = 0;
    for ty in types {
        if *ty == ValType::I32 {
            count += 1;
        }
    }
    count
}

// Appends code that pops operands of these types into temporaries, as `push_sets` does.
fn push_sets_of(
    code: &mut Vec<Instr>,
    pool: &Pool,
    types: &[ValType],
    skip: u32,
) -> Result<(), AllocError>
    requires { HasTemps pool.now skip types.now }
    ensures added { OnOk result (code.new.items ≡ code.old.items ++ instrs (sets (temps_from pool.now skip 0 types.now))) }
    ensures prefix { AddsPrefix code.old.items code.new.items (instrs (sets (temps_from pool.now skip 0 types.now))) }
{
    let count = count_ints(types);
    let mut ints = skip + count as u32;
    let mut longs = (types.len() - count) as u32;
    let mut left = types.len();
    while left > 0 {
        left -= 1;
        match types[left] {
            ValType::I32 => {
                ints -= 1;
                code.push(Instr::LocalSet(pool.local(ValType::I32, ints)))?;
            }
            ValType::I64 => {
                longs -= 1;
                code.push(Instr::LocalSet(pool.local(ValType::I64, longs)))?;
            }
        }
    }
    Ok(())
}

// Appends code that pushes temporaries of these types, as `push_gets` does.
#[tactic(auto, using(std::proofs::lemmas::Grind::common_steps))]
fn push_gets_of(
    code: &mut Vec<Instr>,
    pool: &Pool,
    types: &[ValType],
    skip: u32,
) -> Result<(), AllocError>
    requires { HasTemps pool.now skip types.now }
    ensures added { OnOk result (code.new.items ≡ code.old.items ++ instrs (gets (temps_from pool.now skip 0 types.now))) }
    ensures prefix { AddsPrefix code.old.items code.new.items (instrs (gets (temps_from pool.now skip 0 types.now))) }
{
    let mut ints = skip;
    let mut longs = 0;
    for ty in types {
        match ty {
            ValType::I32 => {
                code.push(Instr::LocalGet(pool.local(ValType::I32, ints)))?;
                ints += 1;
            }
            ValType::I64 => {
                code.push(Instr::LocalGet(pool.local(ValType::I64, longs)))?;
                longs += 1;
            }
        }
    }
    Ok(())
}

/// Appends code that keeps operands of these types in temporaries and leaves the operands where they are. The first i32
/// goes into temporary `skip` of its type, the first i64 into temporary 0. An `AllocError` if memory runs out; the
/// first few of the instructions may then have been appended.
pub fn save(
    code: &mut Vec<Instr>,
    pool: &Pool,
    types: &[ValType],
    skip: u32,
) -> Result<(), AllocError>
    requires { HasTemps pool.now skip types.now }
    ensures added { OnOk result (code.new.items ≡ code.old.items ++ instrs (save_code (temps_from pool.now skip 0 types.now))) }
    ensures prefix { AddsPrefix code.old.items code.new.items (instrs (save_code (temps_from pool.now skip 0 types.now))) }
{
    push_sets_of(code, pool, types, skip)?;
    push_gets_of(code, pool, types, skip)
}
