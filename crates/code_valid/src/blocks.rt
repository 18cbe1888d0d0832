// The open blocks, as the check of one sequence sees them.

ghost use Rattle.std.specs.Prelude.{◌≡◌, ◌<◌, [], ◌∷◌, ◌++◌, length, slice_get, Some, None, MatchOption, MatchResult, IfOk};
ghost use Rattle.wasm_num.specs.declared.ValType.TheVariants.{I32};
ghost use Rattle.code_valid.specs.Checking.{dead_stack, take_type, take_types, put_operand, put_types, apply, turns, stops, drops, selects, top_of};
ghost use Rattle.code_valid.specs.Control.{Control, innermost_stack, with_innermost_stack, height_here, labels_of, within, whole_stack, control_of, HasFrame};
ghost use Rattle.code_valid.specs.Answers.{OnRefusal, OnlyMemory, Pops, Moves, EndsBlock};
ghost use Rattle.ctrl_stack.specs.Stack.{function_stack};

use crate::invalid::BodyInvalid;
use ctrl_stack::{CtrlStack, Types};
use std::alloc::Global;
use std::marker::Model;
use wasm_num::{BlockKind, NoMemory, ValType};

/// The open blocks of a body. Contracts see the operands of the innermost block apart from the others.
///
/// A call that takes operands answers `Invalid` if they are not there or are of other types, and `NoMemory` if memory
/// runs out.
#[derive(Drop)]
pub(crate) struct OpenBlocks {
    stack: CtrlStack,
}

impl Model for OpenBlocks {
    ghost use Rattle.code_valid.specs.Control.{Control, control_of, Stands};

    ghost Value = { Control };

    ghost view = { λ a. control_of a.stack };

    ghost invariant = { λ a. Stands a.stack };
}

impl OpenBlocks {
    /// The blocks of a function with these results, before its first instruction.
    pub fn new(alloc: Global, results: Types) -> Result<OpenBlocks, NoMemory>
        ensures { IfOk result (λ s. s ≡ control_of (function_stack results)) }
    {
        Ok(OpenBlocks {
            stack: CtrlStack::new(alloc, results)?,
        })
    }

    /// How many operands there are in all blocks together.
    pub fn height(&self) -> usize
        ensures { result ≡ height_here self.now }
    {
        self.stack.height()
    }

    /// The types that a branch to this label takes; `None` if there is no such label.
    pub fn label(&self, label: u32) -> Option<&[ValType]>
        ensures { MatchOption result (slice_get (labels_of self.now) label ≡ None) (λ ts. slice_get (labels_of self.now) label ≡ Some ts.now) }
    {
        match self.stack.label(label) {
            None => None,
            Some(frame) => Some(frame.label_types()),
        }
    }

    /// A copy of the types that a branch to this label takes; `Invalid` if there is no such label.
    pub fn label_copy(&self, alloc: Global, label: u32) -> Result<Vec<ValType>, BodyInvalid>
        ensures { MatchResult result (λ ts. slice_get (labels_of self.now) label ≡ Some ts.items) (λ e. OnRefusal e (slice_get (labels_of self.now) label ≡ None)) }
    {
        match self.label(label) {
            None => Err(BodyInvalid::Invalid),
            Some(types) => Ok(types.to_vec(alloc)?),
        }
    }

    /// Opens a block above the operands here. Its own operands begin with its start types. Fails only if memory runs
    /// out.
    pub fn push_block(
        &mut self,
        kind: BlockKind,
        starts: Types,
        results: Types,
    ) -> Result<(), BodyInvalid>
        ensures opened { OnlyMemory result (self.new ≡ within kind starts results self.old) }
        ensures same { IfOk result (λ _. control_of (whole_stack self.old) ≡ self.old) }
    {
        self.push_all(starts.as_slice())?;
        self.stack.push_block(kind, starts, results)?;
        Ok(())
    }

    /// Takes the results of the innermost block and closes it; `Invalid` if they are not there, or if more is left in
    /// the block.
    pub fn pop_block(&mut self) -> Result<(), BodyInvalid>
        requires { HasFrame self.old.outer }
        ensures ends { EndsBlock result self.old }
        ensures outer { IfOk result (λ _. self.new ≡ control_of (record { frames = self.old.outer; operands = self.old.under })) }
    {
        self.stack.pop_block()?;
        Ok(())
    }

    /// Ends the function; `Invalid` if its results are not there, or if more is left.
    pub fn end(self) -> Result<(), BodyInvalid>
        ensures { EndsBlock result self }
    {
        let mut stack = self.stack;
        stack.pop_block()?;
        Ok(())
    }

    fn push(&mut self, ty: Option<ValType>) -> Result<(), BodyInvalid>
        ensures { OnlyMemory result (self.new ≡ with_innermost_stack (put_operand ty (innermost_stack self.old)) self.old) }
    {
        self.stack.push(ty)?;
        Ok(())
    }

    // Takes the topmost operand, which must have the type `expected`; `None` is any type.
    fn pop(&mut self, expected: Option<ValType>) -> Result<Option<ValType>, BodyInvalid>
        ensures { Pops result expected self.old self.new }
    {
        Ok(self.stack.pop(expected)?)
    }

    // Drops the operands of the innermost block, because the rest of its code is never reached.
    fn mark_dead(&mut self)
        ensures { self.new ≡ with_innermost_stack dead_stack self.old }
    {
        self.stack.mark_dead();
    }

    /// Takes operands of these types, the last first.
    pub fn pop_all(&mut self, types: &[ValType]) -> Result<(), BodyInvalid>
        ensures { Moves result (take_types types.now (innermost_stack self.old)) self.old self.new }
    {
        let mut left = types.len();
        while left > 0 {
            left -= 1;
            self.pop(Some(types[left]))?;
        }
        Ok(())
    }

    /// Puts operands of these types, the first one first. Fails only if memory runs out.
    pub fn push_all(&mut self, types: &[ValType]) -> Result<(), BodyInvalid>
        ensures { OnlyMemory result (self.new ≡ with_innermost_stack (put_types types.now (innermost_stack self.old)) self.old) }
    {
        for ty in types {
            self.push(Some(*ty))?;
        }
        Ok(())
    }

    /// Takes operands of the types `takes`, and puts operands of the types `leaves`.
    pub fn turn(&mut self, takes: &[ValType], leaves: &[ValType]) -> Result<(), BodyInvalid>
        ensures { Moves result (apply (turns takes.now leaves.now) (innermost_stack self.old)) self.old self.new }
    {
        self.pop_all(takes)?;
        self.push_all(leaves)
    }

    /// Takes operands of these types. The code behind the instruction is never reached.
    pub fn stop(&mut self, takes: &[ValType]) -> Result<(), BodyInvalid>
        ensures { Moves result (apply (stops takes.now) (innermost_stack self.old)) self.old self.new }
    {
        self.pop_all(takes)?;
        self.mark_dead();
        Ok(())
    }

    /// Takes an `i32`: the operand of a condition or an index.
    pub fn pop_i32(&mut self) -> Result<(), BodyInvalid>
        ensures { Moves result (take_type I32 (innermost_stack self.old)) self.old self.new }
    {
        self.pop(Some(ValType::I32))?;
        Ok(())
    }

    /// Takes an `i32` and operands of the types `takes`, and puts operands of the types `leaves`.
    pub fn turn_i32(&mut self, takes: &[ValType], leaves: &[ValType]) -> Result<(), BodyInvalid>
        ensures { Moves result (apply (turns (takes.now ++ I32 ∷ []) leaves.now) (innermost_stack self.old)) self.old self.new }
    {
        self.pop_i32()?;
        self.turn(takes, leaves)
    }

    /// Takes an `i32` and operands of these types. The code behind the instruction is never reached.
    pub fn stop_i32(&mut self, takes: &[ValType]) -> Result<(), BodyInvalid>
        ensures { Moves result (apply (stops (takes.now ++ I32 ∷ [])) (innermost_stack self.old)) self.old self.new }
    {
        self.pop_i32()?;
        self.stop(takes)
    }

    /// Drops the topmost operand, and answers its type; `None` if the type is unknown.
    pub fn drop_one(&mut self) -> Result<Option<ValType>, BodyInvalid>
        ensures moves { Moves result (apply drops (innermost_stack self.old)) self.old self.new }
        ensures top { IfOk result (λ ty. ty ≡ top_of self.old.operands) }
    {
        self.pop(None)
    }

    /// Selects one of two operands of the same type, and answers that type; `None` if it is unknown.
    pub fn select(&mut self) -> Result<Option<ValType>, BodyInvalid>
        ensures moves { Moves result (apply selects (innermost_stack self.old)) self.old self.new }
        ensures top { IfOk result (λ ty. ty ≡ top_of self.new.operands) }
    {
        self.pop_i32()?;
        let first = self.pop(None)?;
        let second = self.pop(first)?;
        self.push(second)?;
        Ok(second)
    }
}

/// A copy of these types.
pub(crate) fn copied(alloc: Global, types: &[ValType]) -> Result<Types, NoMemory>
    ensures { IfOk result (λ copy. copy ≡ types.now) }
{
    Ok(Types::from_vec(types.to_vec(alloc)?))
}
