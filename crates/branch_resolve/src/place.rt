// The places of a body.

use crate::Block;
use module_ast::code::Instr;

/// What is at a position of a body.
#[derive(Clone, Copy)]
pub enum Opcode<'m> {
    /// The entry of the function.
    Enters,
    /// An instruction without a nested sequence.
    Acts(&'m Instr),
    /// The opcode of a block, a loop or an `if`.
    Opens(Block),
    /// An `else`: the two branches of its `if`, and whether the end of the first branch is live.
    Alternates {
        then_part: Block,
        else_part: Block,
        then_live: bool,
    },
    /// The `end` of a block, a loop, an `if` or the function.
    Closes(Block),
}

/// A place of a body.
#[derive(Clone, Copy)]
pub struct Place<'m> {
    /// -1 at the entry of the function; opcodes are counted from 0 in the order of the bytes, `else` and `end`
    /// included.
    pub position: i32,
    /// Whether the place can be reached by the rules of typing. (Standard, 3.3.5)
    pub live: bool,
    /// What is at the position.
    pub opcode: Opcode<'m>,
}
