// The bodies of a made module. Function 0 is the import. A function of an even index has a parameter and a result of
// type i64, any other of type i32.

ghost use Rattle.std.specs.Prelude.{◌≡◌, ◌≤◌, ◌<◌, ◌+◌, ℕ, IfOk, OnOk};
ghost use Rattle.module_gen.specs.Bodies.{bodies, body_drawn, call_of, front, last_part, locals, param_type, type_index};
ghost use Rattle.module_gen.specs.Codes.{pieces_code};

use crate::codes::pieces_code;
use crate::draws::Draws;
use crate::pieces::drawn_pieces;
use module_ast::code::{Code, Instr};
use module_ast::module::{Body, Group};
use module_ast::seq::Seq;
use std::alloc::{AllocError, Global};
use wasm_num::ValType;

/// The type of a function's parameter and of its result.
pub(crate) fn param_type(func: u32) -> ValType
    ensures { result ≡ param_type func }
{
    if func % 2 == 0 {
        ValType::I64
    } else {
        ValType::I32
    }
}

/// The index of the function type with a parameter and a result of this type.
pub(crate) fn type_index(ty: ValType) -> u32
    ensures { result ≡ type_index ty }
{
    match ty {
        ValType::I32 => 1,
        ValType::I64 => 2,
    }
}

// The groups of locals: one local of each type.
fn locals(alloc: Global) -> Result<Vec<Group>, AllocError>
    ensures { IfOk result (λ groups. groups.items ≡ locals) }
{
    let i32_local = Group {
        count: 1,
        ty: ValType::I32,
    };
    let i64_local = Group {
        count: 1,
        ty: ValType::I64,
    };
    Ok(Vec::from_array(alloc, [i32_local, i64_local])?)
}

// A call of a function of the same type, by its index or through the table.
fn call_of(alloc: Global, func: u32, choice: u32) -> Result<Vec<Instr>, AllocError>
    requires { (3 ≤ func) × (func < 60000) }
    ensures { IfOk result (λ code. code.items ≡ call_of func choice) }
{
    if choice == 0 {
        return Ok(Vec::from_array(alloc, [Instr::LocalGet(0), Instr::Call(func - 2)])?);
    }
    let slot = Instr::I32Const((func - 3) as i32);
    let call = Instr::CallIndirect(type_index(param_type(func)));
    Ok(Vec::from_array(alloc, [Instr::LocalGet(0), slot, call])?)
}

// The code that a body ends with.
fn last_part(alloc: Global, func: u32, draws: &mut Draws) -> Result<Vec<Instr>, AllocError>
    requires { func < 60000 }
    ensures code { IfOk result (λ code. code.items ≡ (last_part func draws.old.state).made) }
    ensures state { draws.new.state ≡ (last_part func draws.old.state).state }
{
    if func < 3 {
        return Ok(Vec::from_array(alloc, [Instr::LocalGet(0)])?);
    }
    let choice = draws.draw(2);
    call_of(alloc, func, choice)
}

// The code of as many pieces as are drawn.
fn front(alloc: Global, ty: ValType, draws: &mut Draws) -> Result<Vec<Instr>, AllocError>
    ensures code { IfOk result (λ code. code.items ≡ pieces_code ty (front ty draws.old.state).made) }
    ensures state { OnOk result (draws.new.state ≡ (front ty draws.old.state).state) }
{
    let count = 8 + draws.draw(25);
    let pieces = drawn_pieces(alloc, ty, count, draws)?;
    pieces_code(alloc, ty, pieces.as_slice())
}

// The body of a function: pieces, and the last part.
fn body(alloc: Global, func: u32, draws: &mut Draws) -> Result<Body, AllocError>
    requires { func < 60000 }
    ensures body { IfOk result (λ body. body ≡ (body_drawn func draws.old.state).made) }
    ensures state { OnOk result (draws.new.state ≡ (body_drawn func draws.old.state).state) }
{
    let mut code = front(alloc, param_type(func), draws)?;
    code.append(&mut last_part(alloc, func, draws)?)?;
    Ok(Body {
        groups: Seq::from_vec(locals(alloc)?),
        code: Code::from_vec(alloc, code)?,
    })
}

/// The bodies of the functions 1 to `count`. An `AllocError` if memory runs out.
#[tactic(auto, using(crate::proofs::Steps::bodies_made, crate::proofs::Steps::bodies_state))]
pub(crate) fn bodies(alloc: Global, count: u32, draws: &mut Draws) -> Result<Vec<Body>, AllocError>
    requires { count < 50000 }
    ensures bodies { IfOk result (λ all. all.items ≡ (bodies count draws.old.state).made) }
    ensures state { OnOk result (draws.new.state ≡ (bodies count draws.old.state).state) }
{
    let mut all = Vec::new(alloc);
    for before in 0..count {
        all.push(body(alloc, before + 1, draws)?)?;
    }
    Ok(all)
}
