// The pieces of a body, and how they are drawn.

ghost use Rattle.std.specs.Prelude.{◌≡◌, ◌<◌, IfOk, OnOk, All};
ghost use Rattle.module_gen.specs.Pieces.{IsDrawable, binary_op, drawn_piece, drawn_pieces, piece_of, unary_op};

use crate::draws::Draws;
use std::alloc::{AllocError, Global};
use wasm_num::{NumOp, ValType};

/// A piece of a body.
#[derive(Clone, Copy)]
pub(crate) enum Piece {
    /// A binary operation on the parameter and a constant.
    Binary { operand: u32, op: NumOp },
    /// A unary operation on the parameter.
    Unary { op: NumOp },
    /// Stores the parameter, and loads a byte of it.
    Memory { address: u32 },
    /// A loop whose body runs `turns` times.
    Repeat { turns: u32 },
    /// A `br_table` between the ends of two blocks.
    Table,
    /// An `if` between two constants.
    Choice { if_so: u32, if_not: u32 },
    /// A `select` between two constants.
    Pick { first: u32, second: u32 },
    /// Adds 1 to the global.
    Count,
    /// A call of the import.
    Note { argument: u32 },
    /// The size of the memory, which is dropped.
    Size,
}

const I32_BINARY_OPS: [NumOp; 11] = [
    NumOp::I32Add,
    NumOp::I32Sub,
    NumOp::I32Mul,
    NumOp::I32And,
    NumOp::I32Or,
    NumOp::I32Xor,
    NumOp::I32Shl,
    NumOp::I32ShrS,
    NumOp::I32ShrU,
    NumOp::I32Rotl,
    NumOp::I32Rotr,
];

const I64_BINARY_OPS: [NumOp; 11] = [
    NumOp::I64Add,
    NumOp::I64Sub,
    NumOp::I64Mul,
    NumOp::I64And,
    NumOp::I64Or,
    NumOp::I64Xor,
    NumOp::I64Shl,
    NumOp::I64ShrS,
    NumOp::I64ShrU,
    NumOp::I64Rotl,
    NumOp::I64Rotr,
];

const I32_UNARY_OPS: [NumOp; 3] = [NumOp::I32Clz, NumOp::I32Ctz, NumOp::I32Popcnt];

const I64_UNARY_OPS: [NumOp; 3] = [NumOp::I64Clz, NumOp::I64Ctz, NumOp::I64Popcnt];

// The binary operation of this type with this number.
fn binary_op(ty: ValType, number: u32) -> NumOp
    requires { number < 11 }
    ensures { result ≡ binary_op ty number }
{
    match ty {
        ValType::I32 => I32_BINARY_OPS[number as usize],
        ValType::I64 => I64_BINARY_OPS[number as usize],
    }
}

// The unary operation of this type with this number.
fn unary_op(ty: ValType, number: u32) -> NumOp
    requires { number < 3 }
    ensures { result ≡ unary_op ty number }
{
    match ty {
        ValType::I32 => I32_UNARY_OPS[number as usize],
        ValType::I64 => I64_UNARY_OPS[number as usize],
    }
}

// A piece of this form for a parameter of this type. The numbers in a piece are drawn in the order of its fields.
fn piece_of(form: u32, ty: ValType, draws: &mut Draws) -> Piece
    requires { form < 10 }
    ensures piece { result ≡ (piece_of form ty draws.old.state).made }
    ensures state { draws.new.state ≡ (piece_of form ty draws.old.state).state }
{
    match form {
        0 => Piece::Binary {
            operand: draws.draw(1000),
            op: binary_op(ty, draws.draw(11)),
        },
        1 => Piece::Unary {
            op: unary_op(ty, draws.draw(3)),
        },
        2 => Piece::Memory {
            address: draws.draw(60_000),
        },
        3 => Piece::Repeat {
            turns: 1 + draws.draw(4),
        },
        4 => Piece::Table,
        5 => Piece::Choice {
            if_so: draws.draw(1000),
            if_not: draws.draw(1000),
        },
        6 => Piece::Pick {
            first: draws.draw(1000),
            second: draws.draw(1000),
        },
        7 => Piece::Count,
        8 => Piece::Note {
            argument: draws.draw(1000),
        },
        _ => Piece::Size,
    }
}

// A piece. Its form is drawn first.
fn drawn_piece(ty: ValType, draws: &mut Draws) -> Piece
    ensures piece { result ≡ (drawn_piece ty draws.old.state).made }
    ensures state { draws.new.state ≡ (drawn_piece ty draws.old.state).state }
{
    let form = draws.draw(10);
    piece_of(form, ty, draws)
}

/// `count` pieces for a parameter of this type, one after another. An `AllocError` if memory runs out.
#[tactic(auto, using(crate::proofs::Steps::pieces_made, crate::proofs::Steps::pieces_state))]
pub(crate) fn drawn_pieces(
    alloc: Global,
    ty: ValType,
    count: u32,
    draws: &mut Draws,
) -> Result<Vec<Piece>, AllocError>
    ensures pieces { IfOk result (λ all. all.items ≡ (drawn_pieces ty count draws.old.state).made) }
    ensures drawn { IfOk result (λ all. All (IsDrawable ty) all.items) }
    ensures state { OnOk result (draws.new.state ≡ (drawn_pieces ty count draws.old.state).state) }
{
    let mut all = Vec::new(alloc);
    for _ in 0..count {
        all.push(drawn_piece(ty, draws))?;
    }
    Ok(all)
}
