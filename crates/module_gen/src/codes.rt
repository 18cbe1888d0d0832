// The code of pieces. Local 0 is the parameter, local 1 an i32.

ghost use Rattle.std.specs.Prelude.{◌≡◌, ◌<◌, ◌^◌, [], ◌∷◌, IfOk, All};
ghost use Rattle.module_ast.specs.Structure.{code_of};
ghost use Rattle.module_gen.specs.declared.pieces.Piece.{Piece};
ghost use Rattle.wasm_num.specs.declared.ValType.{ValType};
ghost use Rattle.module_gen.specs.Codes.{condition, constant_of, count_code, load, piece_code, pieces_code, repeat_code, store, table_block, turn};
ghost use Rattle.module_gen.specs.Pieces.{IsDrawable};

use crate::pieces::Piece;
use module_ast::code::{BlockType, Code, Instr};
use module_ast::labels::Labels;
use module_ast::ops::{LoadOp, MemArg, StoreOp};
use std::alloc::{AllocError, Global};
use wasm_num::{NumOp, ValType};

// An address without an offset.
const AT_ADDRESS: MemArg = MemArg {
    align: 0,
    offset: 0,
};

fn constant(ty: ValType, number: u32) -> Instr
    requires { number < 2 ^ 31 }
    ensures { result ≡ constant_of ty number }
{
    match ty {
        ValType::I32 => Instr::I32Const(number as i32),
        ValType::I64 => Instr::I64Const(i64::from(number)),
    }
}

// A store of all bytes of a value.
fn store(ty: ValType) -> Instr
    ensures { result ≡ store ty }
{
    match ty {
        ValType::I32 => Instr::Store(StoreOp::I32Store, AT_ADDRESS),
        ValType::I64 => Instr::Store(StoreOp::I64Store, AT_ADDRESS),
    }
}

// A load of one byte.
fn load(ty: ValType) -> Instr
    ensures { result ≡ load ty }
{
    match ty {
        ValType::I32 => Instr::Load(LoadOp::I32Load8U, AT_ADDRESS),
        ValType::I64 => Instr::Load(LoadOp::I64Load8U, AT_ADDRESS),
    }
}

// A condition: an i32 parameter itself, or whether an i64 parameter is 0.
fn condition(alloc: Global, ty: ValType) -> Result<Vec<Instr>, AllocError>
    ensures { IfOk result (λ code. code.items ≡ condition ty) }
{
    match ty {
        ValType::I32 => Ok(Vec::from_array(alloc, [Instr::LocalGet(0)])?),
        ValType::I64 => Ok(Vec::from_array(
            alloc,
            [Instr::LocalGet(0), Instr::Num(NumOp::I64Eqz)],
        )?),
    }
}

fn constant_code(alloc: Global, ty: ValType, number: u32) -> Result<Code, AllocError>
    requires { number < 2 ^ 31 }
    ensures { IfOk result (λ code. code ≡ code_of (constant_of ty number ∷ [])) }
{
    let code = Vec::from_array(alloc, [constant(ty, number)])?;
    Code::from_vec(alloc, code)
}

// The body of a loop: subtracts 1 from local 1, and goes round again if that is not 0.
fn turn(alloc: Global) -> Result<Code, AllocError>
    ensures { IfOk result (λ code. code ≡ code_of turn) }
{
    let code = Vec::from_array(
        alloc,
        [
            Instr::LocalGet(1),
            Instr::I32Const(1),
            Instr::Num(NumOp::I32Sub),
            Instr::LocalTee(1),
            Instr::BrIf(0),
        ],
    )?;
    Code::from_vec(alloc, code)
}

// A loop whose body runs `turns` times.
fn repeat(alloc: Global, turns: u32) -> Result<Vec<Instr>, AllocError>
    requires { turns < 2 ^ 31 }
    ensures { IfOk result (λ code. code.items ≡ repeat_code turns) }
{
    let whole = Instr::Loop(BlockType::Empty, turn(alloc)?);
    Ok(Vec::from_array(
        alloc,
        [Instr::I32Const(turns as i32), Instr::LocalSet(1), whole],
    )?)
}

// Adds 1 to the global.
fn count(alloc: Global) -> Result<Vec<Instr>, AllocError>
    ensures { IfOk result (λ code. code.items ≡ count_code) }
{
    Ok(Vec::from_array(
        alloc,
        [
            Instr::GlobalGet(0),
            Instr::I32Const(1),
            Instr::Num(NumOp::I32Add),
            Instr::GlobalSet(0),
        ],
    )?)
}

// The body of a block around another, in which a `br_table` leaves the inner block or both.
fn table_block(alloc: Global, ty: ValType) -> Result<Code, AllocError>
    ensures { IfOk result (λ code. code ≡ code_of (table_block ty)) }
{
    let labels = Labels::from_vec(alloc, Vec::from_array(alloc, [0])?)?;
    let mut inner = condition(alloc, ty)?;
    inner.push(Instr::BrTable(labels, 1))?;
    let inner = Instr::Block(BlockType::Empty, Code::from_vec(alloc, inner)?);
    Code::from_vec(alloc, Vec::from_array(alloc, [inner, Instr::Nop])?)
}

// An `if` between two constants.
fn choice(alloc: Global, ty: ValType, if_so: u32, if_not: u32) -> Result<Vec<Instr>, AllocError>
    requires { (if_so < 2 ^ 31) × (if_not < 2 ^ 31) }
    ensures { IfOk result (λ code. code.items ≡ piece_code ty (Piece.Choice if_so if_not)) }
{
    let then_part = constant_code(alloc, ty, if_so)?;
    let else_part = constant_code(alloc, ty, if_not)?;
    let mut code = condition(alloc, ty)?;
    code.push(Instr::IfElse(BlockType::Value(ty), then_part, else_part))?;
    code.push(Instr::LocalSet(0))?;
    Ok(code)
}

// A `select` between two constants.
fn pick(alloc: Global, ty: ValType, first: u32, second: u32) -> Result<Vec<Instr>, AllocError>
    requires { (first < 2 ^ 31) × (second < 2 ^ 31) }
    ensures { IfOk result (λ code. code.items ≡ piece_code ty (Piece.Pick first second)) }
{
    let mut code = Vec::from_array(alloc, [constant(ty, first), constant(ty, second)])?;
    code.append(&mut condition(alloc, ty)?)?;
    code.push(Instr::Select)?;
    code.push(Instr::Drop)?;
    Ok(code)
}

// Stores the parameter, and loads a byte of it.
fn memory(alloc: Global, ty: ValType, address: u32) -> Result<Vec<Instr>, AllocError>
    requires { address < 2 ^ 31 }
    ensures { IfOk result (λ code. code.items ≡ piece_code ty (Piece.Memory address)) }
{
    let address = address as i32;
    Ok(Vec::from_array(
        alloc,
        [
            Instr::I32Const(address),
            Instr::LocalGet(0),
            store(ty),
            Instr::I32Const(address),
            load(ty),
            Instr::LocalSet(0),
        ],
    )?)
}

// A binary operation on the parameter and a constant.
fn binary(alloc: Global, ty: ValType, operand: u32, op: NumOp) -> Result<Vec<Instr>, AllocError>
    requires { operand < 2 ^ 31 }
    ensures { IfOk result (λ code. code.items ≡ piece_code ty (Piece.Binary operand op)) }
{
    let operand = constant(ty, operand);
    let op = Instr::Num(op);
    Ok(Vec::from_array(alloc, [Instr::LocalGet(0), operand, op, Instr::LocalSet(0)])?)
}

// A unary operation on the parameter.
fn unary(alloc: Global, op: NumOp) -> Result<Vec<Instr>, AllocError>
    ensures { IfOk result (λ code. code.items ≡ piece_code ValType.I32 (Piece.Unary op)) }
{
    Ok(Vec::from_array(
        alloc,
        [Instr::LocalGet(0), Instr::Num(op), Instr::LocalSet(0)],
    )?)
}

// A `br_table` between the ends of two blocks.
fn table(alloc: Global, ty: ValType) -> Result<Vec<Instr>, AllocError>
    ensures { IfOk result (λ code. code.items ≡ piece_code ty Piece.Table) }
{
    let outer = Instr::Block(BlockType::Empty, table_block(alloc, ty)?);
    Ok(Vec::from_array(alloc, [outer])?)
}

// A call of the import.
fn note(alloc: Global, argument: u32) -> Result<Vec<Instr>, AllocError>
    requires { argument < 2 ^ 31 }
    ensures { IfOk result (λ code. code.items ≡ piece_code ValType.I32 (Piece.Note argument)) }
{
    let argument = constant(ValType::I32, argument);
    Ok(Vec::from_array(alloc, [argument, Instr::Call(0)])?)
}

// The size of the memory, which is dropped.
fn size(alloc: Global) -> Result<Vec<Instr>, AllocError>
    ensures { IfOk result (λ code. code.items ≡ piece_code ValType.I32 Piece.Size) }
{
    Ok(Vec::from_array(alloc, [Instr::MemorySize, Instr::Drop, Instr::Nop])?)
}

// The code of a piece for a parameter of this type.
fn piece_code(alloc: Global, ty: ValType, piece: Piece) -> Result<Vec<Instr>, AllocError>
    requires { IsDrawable ty piece }
    ensures { IfOk result (λ code. code.items ≡ piece_code ty piece) }
{
    match piece {
        Piece::Binary { operand, op } => binary(alloc, ty, operand, op),
        Piece::Unary { op } => unary(alloc, op),
        Piece::Memory { address } => memory(alloc, ty, address),
        Piece::Repeat { turns } => repeat(alloc, turns),
        Piece::Table => table(alloc, ty),
        Piece::Choice { if_so, if_not } => choice(alloc, ty, if_so, if_not),
        Piece::Pick { first, second } => pick(alloc, ty, first, second),
        Piece::Count => count(alloc),
        Piece::Note { argument } => note(alloc, argument),
        Piece::Size => size(alloc),
    }
}

/// The code of pieces for a parameter of this type. An `AllocError` if memory runs out.
pub(crate) fn pieces_code(
    alloc: Global,
    ty: ValType,
    pieces: &[Piece],
) -> Result<Vec<Instr>, AllocError>
    requires { All (IsDrawable ty) pieces.now }
    ensures { IfOk result (λ code. code.items ≡ pieces_code ty pieces.now) }
{
    let mut code = Vec::new(alloc);
    for piece in pieces {
        code.append(&mut piece_code(alloc, ty, *piece)?)?;
    }
    Ok(code)
}
