// Frames: the open blocks of a body, as the standard's algorithm calls them.

ghost use Rattle.std.specs.Prelude.{◌≡◌};
ghost use Rattle.ctrl_stack.specs.Stack.{label_types};

use std::marker::Model;
use wasm_num::{BlockKind, ValType};

/// Types in order, which contracts see as a list.
#[derive(Drop)]
pub struct Types {
    items: Vec<ValType>,
}

impl Model for Types {
    ghost use Rattle.std.specs.Prelude.{List};
    ghost use Rattle.wasm_num.specs.declared.ValType.{ValType};

    ghost Value = { List ValType };

    ghost view = { λ a. a.items.items };
}

impl Types {
    /// The types of a `Vec`, in order. Takes no memory.
    pub fn from_vec(items: Vec<ValType>) -> Types
        ensures { result ≡ items.items }
    {
        Types { items }
    }

    /// The types, in order.
    pub fn as_slice(&self) -> &[ValType]
        ensures { result.now ≡ self.now }
    {
        &self.items
    }
}

/// An open block. (Standard, Appendix, Validation Algorithm)
#[derive(Drop)]
pub struct Frame {
    /// The kind of the block, which says what a branch to it takes.
    pub kind: BlockKind,
    /// The types of the operands that the block begins with.
    pub starts: Types,
    /// The types of the operands that the block ends with.
    pub results: Types,
    /// How many operands are below the block's own.
    pub base: usize,
    /// Whether the rest of the block's code is never reached.
    pub dead: bool,
}

impl Frame {
    /// The types that a branch to the block takes: the start types of a loop, the results of a block of any other kind.
    /// (Standard, 3.3.5)
    pub fn label_types(&self) -> &[ValType]
        ensures { result.now ≡ label_types self.now }
    {
        match self.kind {
            BlockKind::Loop => self.starts.as_slice(),
            BlockKind::Function | BlockKind::Block | BlockKind::If | BlockKind::Else => {
                self.results.as_slice()
            }
        }
    }
}
