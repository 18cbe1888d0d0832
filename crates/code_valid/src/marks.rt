// What the check of a body notes of its live places.

use module_ast::seq::Seq;
use std::marker::Model;
use wasm_num::ValType;

/// The operand type of a live `drop` or `select`: the type of the value that it drops or leaves. (Standard, 3.3.2)
#[derive(Clone, Copy, PartialEq, Eq)]
pub struct Mark {
    /// The position of the instruction in its body.
    pub pos: u32,
    /// The type of the value.
    pub ty: ValType,
}

impl Model for Mark {
    ghost use Rattle.module_ast.specs.Places.{Mark as Place};

    ghost Value = { Place };

    ghost view = { λ a. record { place = a.pos; ty = a.ty } };

    ghost inverse = { λ m. record { pos = m.place; ty = m.ty } };
}

/// What the check of a body notes.
#[derive(Drop)]
pub struct Marks {
    /// The marks of the body, by rising position.
    pub types: Seq<Mark>,
    /// The most operands at a live place, those under open blocks counted.
    pub height: u64,
}
