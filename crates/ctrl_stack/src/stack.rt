// The stack of the validation algorithm: open blocks, and the types of operands.

ghost use Rattle.std.specs.Prelude.{◌≡◌, ℕ, ◌<◌, ◌≤◌, List, ◌++◌, length, map, take, reverse, Option, Some, None, slice_get, MatchOption, OnOk, OnErr, IfOk, IfErr};
ghost use Rattle.ctrl_stack.specs.Stack.{function_stack, meet, pop, pop_all, push_operand, lowest_operands, base_of, dead_of, with_block, without_block, dead_from_here};
ghost use Rattle.ctrl_stack.specs.Faults.{OnFault, IsMismatch};

use crate::frame::{Frame, Types};
use std::alloc::{AllocError, AllocFailed, Global};
use std::marker::Model;
use wasm_num::{BlockKind, NoMemory, ValType};

/// Why a call on a `CtrlStack` fails.
#[derive(Debug, Drop)]
pub enum StackFault {
    /// An operand or a frame is missing, left over, or of another type.
    Mismatch,
    /// Memory ran out.
    NoMemory,
}

impl From<AllocError> for StackFault {
    ghost use Rattle.std.specs.Prelude.{◌≡◌};
    ghost use Rattle.ctrl_stack.specs.declared.stack.StackFault.TheVariants.{NoMemory};

    ghost from_gives = { λ _ e. e ≡ NoMemory };

    fn from(_e: AllocError) -> StackFault {
        StackFault::NoMemory
    }
}

impl<T: Drop> From<AllocFailed<T>> for StackFault {
    ghost use Rattle.std.specs.Prelude.{◌≡◌};
    ghost use Rattle.ctrl_stack.specs.declared.stack.StackFault.TheVariants.{NoMemory};

    ghost from_gives = { λ _ e. e ≡ NoMemory };

    fn from(_e: AllocFailed<T>) -> StackFault {
        StackFault::NoMemory
    }
}

/// The open blocks of a body and the types of its operands. (Standard, Appendix, Validation Algorithm)
///
/// Contracts see two lists: the frames, innermost first, and the operands of all frames, topmost first. `None` is the
/// unknown type of an operand that code behind a branch may have. After an `Err` the stack is as before the call.
#[derive(Drop)]
pub struct CtrlStack {
    frames: Vec<Frame>,
    operands: Vec<Option<ValType>>,
}

impl Model for CtrlStack {
    ghost use Rattle.std.specs.Prelude.{reverse, length};
    ghost use Rattle.ctrl_stack.specs.Stack.{Stack, AreBasesOrdered};

    ghost Value = { Stack };

    ghost view = { λ a. record { frames = reverse a.frames.items; operands = reverse a.operands.items } };

    ghost invariant = { λ a. AreBasesOrdered (reverse a.frames.items) (length a.operands.items) };
}

impl CtrlStack {
    /// The stack before the first instruction of a function with these results. `NoMemory` if memory runs out.
    pub fn new(alloc: Global, results: Types) -> Result<CtrlStack, NoMemory>
        ensures { IfOk result (λ s. s ≡ function_stack results) }
    {
        let mut frames = Vec::new(alloc);
        frames.push(Frame {
            kind: BlockKind::Function,
            starts: Types::from_vec(Vec::new(alloc)),
            results,
            base: 0,
            dead: false,
        })?;
        Ok(CtrlStack {
            frames,
            operands: Vec::new(alloc),
        })
    }

    /// How many operands there are in all frames together.
    pub fn height(&self) -> usize
        ensures { result ≡ length self.now.operands }
    {
        self.operands.len()
    }

    /// The frame that a label names, 0 for the innermost; `None` if the label is past the outermost frame.
    pub fn label(&self, label: u32) -> Option<&Frame>
        ensures { MatchOption result (slice_get self.now.frames label ≡ None) (λ f. slice_get self.now.frames label ≡ Some f.now) }
    {
        let index = self.frames.len().checked_sub(label as usize + 1)?;
        self.frames.get(index)
    }

    /// Puts an operand of this type on top; `None` is an unknown type. `NoMemory` if memory runs out.
    pub fn push(&mut self, ty: Option<ValType>) -> Result<(), NoMemory>
        ensures ok { OnOk result (self.new ≡ push_operand ty self.old) }
        ensures err { OnErr result (self.new ≡ self.old) }
    {
        self.operands.push(ty)?;
        Ok(())
    }

    /// Takes the topmost operand, and answers its type as far as it is then known. `expected` is the type that the
    /// operand must have, or `None` for any. At the base of a dead frame the operand has the expected type. Needs no
    /// memory.
    ///
    /// `Mismatch` if the operand has another type, or if the innermost frame has no operand and is not dead.
    pub fn pop(&mut self, expected: Option<ValType>) -> Result<Option<ValType>, StackFault>
        ensures ok { IfOk result (λ ty. pop expected self.old ≡ Some (ty, self.new)) }
        ensures mismatch { IfErr result (λ e. IsMismatch e × (pop expected self.old ≡ None)) }
        ensures err { OnErr result (self.new ≡ self.old) }
    {
        let (ty, left) = self
            .pop_from(self.operands.len(), expected)
            .ok_or(StackFault::Mismatch)?;
        self.operands.truncate(left);
        Ok(ty)
    }

    /// Opens a block: takes operands of its start types, the last first, and puts them back above the block's base.
    ///
    /// `Mismatch` if there are no such operands or no frame, `NoMemory` if memory runs out.
    pub fn push_block(
        &mut self,
        kind: BlockKind,
        starts: Types,
        results: Types,
    ) -> Result<(), StackFault>
        ensures ok { OnOk result (with_block kind starts results self.old ≡ Some self.new) }
        ensures fault { IfErr result (λ e. OnFault e (with_block kind starts results self.old ≡ None)) }
        ensures err { OnErr result (self.new ≡ self.old) }
    {
        if self.frames.is_empty() {
            return Err(StackFault::Mismatch);
        }
        let base = self.pop_all(starts.as_slice()).ok_or(StackFault::Mismatch)?;
        self.frames.reserve(1)?;
        put_above(&mut self.operands, base, starts.as_slice())?;
        self.frames.push(Frame {
            kind,
            starts,
            results,
            base,
            dead: false,
        })?;
        Ok(())
    }

    /// Closes the innermost block: takes operands of its result types, the last first. Needs no memory.
    ///
    /// `Mismatch` if there are no such operands, if others are left in the block, or if there is no frame.
    pub fn pop_block(&mut self) -> Result<Frame, StackFault>
        ensures ok { IfOk result (λ f. without_block self.old ≡ Some (f, self.new)) }
        ensures mismatch { IfErr result (λ e. IsMismatch e × (without_block self.old ≡ None)) }
        ensures err { OnErr result (self.new ≡ self.old) }
    {
        let frame = self.frames.last().ok_or(StackFault::Mismatch)?;
        let base = frame.base;
        if self.pop_all(frame.results.as_slice()) != Some(base) {
            return Err(StackFault::Mismatch);
        }
        self.operands.truncate(base);
        self.frames.pop().ok_or(StackFault::Mismatch)
    }

    /// Marks the rest of the innermost frame's code as never reached, and drops the frame's operands.
    pub fn mark_dead(&mut self)
        requires { 0 < length self.old.frames }
        ensures { self.new ≡ dead_from_here self.old }
    {
        let innermost = self.frames.len() - 1;
        let frame = &mut self.frames[innermost];
        frame.dead = true;
        let kept = frame.base;
        self.operands.truncate(kept);
    }

    // What `pop` finds if there are only the lowest `height` operands, and how many operands it leaves.
    fn pop_from(&self, height: usize, expected: Option<ValType>) -> Option<(Option<ValType>, usize)>
        requires { height ≤ length self.now.operands }
        ensures { MatchOption result (pop expected (lowest_operands height self.now) ≡ None) (λ r. (r.1 ≤ height) × (pop expected (lowest_operands height self.now) ≡ Some (r.0, lowest_operands r.1 self.now))) }
    {
        let (base, dead) = innermost(&self.frames);
        if height > base {
            let ty = meet(self.operands[height - 1], expected)?;
            Some((ty, height - 1))
        } else if dead {
            Some((expected, height))
        } else {
            None
        }
    }

    // How many operands are left after operands of these types are taken, the last first.
    fn pop_all(&self, types: &[ValType]) -> Option<usize>
        ensures { MatchOption result (pop_all types.now self.now ≡ None) (λ n. (n ≤ length self.now.operands) × (pop_all types.now self.now ≡ Some (lowest_operands n self.now))) }
    {
        let mut height = self.operands.len();
        let mut left = types.len();
        while left > 0 {
            left -= 1;
            let (_ty, below) = self.pop_from(height, Some(types[left]))?;
            height = below;
        }
        Some(height)
    }
}

// The base of the innermost frame, and whether it is dead.
fn innermost(frames: &[Frame]) -> (usize, bool)
    ensures base { result.0 ≡ base_of (reverse frames.now) }
    ensures dead { result.1 ≡ dead_of (reverse frames.now) }
{
    match frames.last() {
        Some(frame) => (frame.base, frame.dead),
        None => (0, false),
    }
}

// The type of an operand, as far as it is known, if an operand of the type `expected` is there; `None` if it is not.
fn meet(found: Option<ValType>, expected: Option<ValType>) -> Option<Option<ValType>>
    ensures { result ≡ meet found expected }
{
    match (found, expected) {
        (None, ty) => Some(ty),
        (Some(ty), Some(other)) if ty != other => None,
        _ => Some(found),
    }
}

// Cuts the operands to the lowest `height`, and puts operands of these types above.
fn put_above(
    operands: &mut Vec<Option<ValType>>,
    height: usize,
    types: &[ValType],
) -> Result<(), NoMemory>
    requires { height ≤ length operands.old.items }
    ensures ok { OnOk result (operands.new.items ≡ take height operands.old.items ++ map Some types.now) }
    ensures err { OnErr result (operands.new.items ≡ operands.old.items) }
{
    operands.reserve(types.len())?;
    operands.truncate(height);
    for ty in types {
        operands.push(Some(*ty))?;
    }
    Ok(())
}
