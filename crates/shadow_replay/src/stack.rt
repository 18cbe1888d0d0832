// The stack of a shadow: operands, labels and frames, with a mark on each value.

ghost use Rattle.std.specs.Prelude.{◌≡◌, ◌+◌, ◌<◌, ◌≤◌, ◌∷◌, [], OnOk, OnErr, IfOk, IfErr, length, reverse, take, slice_set};
ghost use Rattle.module_ast.specs.Lists.{first_or};
ghost use Rattle.shadow_replay.specs.Taint.{nth_mark, some_marked};
ghost use Rattle.shadow_replay.specs.Stacked.{Has, HasLabel, HasLocal, AreOperandsBelow, operand_count, IsNested, IsOutermost, exchanged, label_closed, label_landed, label_opened, frame_entered, frame_left, local_set};
ghost use Rattle.shadow_replay.specs.Tainted.{outer_count, arity_in};

use crate::marked::Marked;
use std::alloc::Global;
use std::marker::Model;
use wasm_num::{BlockKind, NoMemory};

/// A label: its block, how many values a branch to it takes, and how many operands are below its own.
#[derive(Drop)]
pub(crate) struct Label {
    kind: BlockKind,
    begin: i32,
    arity: usize,
    height: usize,
}

impl Model for Label {
    ghost use Rattle.shadow_replay.specs.Stacked.{KeptLabel};

    ghost Value = { KeptLabel };

    ghost view = { λ a. record { kind = a.kind; begin = a.begin; arity = a.arity; height = a.height } };
}

/// A frame: its function, its locals, and how many labels are below its own.
pub(crate) struct Frame {
    func: u32,
    locals: Vec<Marked>,
    labels: usize,
}

// Dropped by hand: each early return past a value of this type then costs one proof step instead of one per field.
impl Drop for Frame {
    fn drop(self) {
        let Frame {
            func: _func,
            locals: _locals,
            labels: _labels,
        } = self;
    }
}

impl Model for Frame {
    ghost use Rattle.shadow_replay.specs.Stacked.{KeptFrame};

    ghost Value = { KeptFrame };

    ghost view = { λ a. record { func = a.func; locals = a.locals.items; labels = a.labels } };
}

/// The operands, labels and frames of a shadow, each in one vector. Contracts see the frames of the machine, and the
/// marks. A call fails only if memory runs out; nothing has then changed.
pub(crate) struct Stack {
    operands: Vec<Marked>,
    labels: Vec<Label>,
    frames: Vec<Frame>,
}

// Dropped by hand: each early return past a value of this type then costs one proof step instead of one per field.
impl Drop for Stack {
    fn drop(self) {
        let Stack {
            operands: _operands,
            labels: _labels,
            frames: _frames,
        } = self;
    }
}

impl Model for Stack {
    ghost use Rattle.std.specs.Prelude.{reverse};
    ghost use Rattle.shadow_replay.specs.Stacked.{Standing, standing, AreWellKept};

    ghost Value = { Standing };

    ghost view = { λ a. standing (reverse a.operands.items) (reverse a.labels.items) (reverse a.frames.items) };

    ghost invariant = { λ a. AreWellKept (reverse a.operands.items) (reverse a.labels.items) (reverse a.frames.items) };
}

impl Frame {
    fn set_local(&mut self, index: usize, value: Marked)
        requires { index < length self.old.locals }
        ensures { self.new ≡ record self.old { locals = slice_set self.old.locals index value } }
    {
        self.locals[index] = value;
    }
}

impl Stack {
    /// A stack without operands, labels and frames. Takes no memory.
    pub fn new(alloc: Global) -> Stack
        ensures { result ≡ record { frames = []; operands = []; locals = [] } }
    {
        Stack {
            operands: Vec::new(alloc),
            labels: Vec::new(alloc),
            frames: Vec::new(alloc),
        }
    }

    /// Puts a value on top.
    pub fn push(&mut self, value: Marked) -> Result<(), NoMemory>
        requires { Has 0 self.old.frames }
        ensures ok { OnOk result (self.new ≡ exchanged 0 (value ∷ []) self.old) }
        ensures err { OnErr result (self.new ≡ self.old) }
    {
        self.operands.push(value)?;
        Ok(())
    }

    /// Drops the topmost `count` values.
    pub fn pop(&mut self, count: usize)
        requires { Has count self.old.frames }
        ensures { self.new ≡ exchanged count [] self.old }
    {
        self.operands.truncate(self.operands.len() - count);
    }

    /// Replaces the topmost `count` values, at least one, by `value`.
    pub fn replace(&mut self, count: usize, value: Marked)
        requires some { 1 ≤ count }
        requires has { Has count self.old.frames }
        ensures { self.new ≡ exchanged count (value ∷ []) self.old }
    {
        let last = self.operands.len() - count;
        self.operands[last] = value;
        self.operands.truncate(last + 1);
    }

    /// Puts these values on top, in order.
    pub fn extend(&mut self, values: &[Marked]) -> Result<(), NoMemory>
        requires { Has 0 self.old.frames }
        ensures ok { OnOk result (self.new ≡ exchanged 0 (reverse values.now) self.old) }
        ensures err { OnErr result (self.new ≡ self.old) }
    {
        self.operands.extend_from_slice(values)?;
        Ok(())
    }

    /// Begins a block, whose first operands are the topmost `starts` values.
    pub fn open(
        &mut self,
        kind: BlockKind,
        begin: i32,
        starts: usize,
        arity: usize,
    ) -> Result<(), NoMemory>
        requires { Has starts self.old.frames }
        ensures ok { OnOk result (self.new ≡ label_opened kind begin starts arity self.old) }
        ensures err { OnErr result (self.new ≡ self.old) }
    {
        self.labels.push(Label {
            kind,
            begin,
            arity,
            height: self.operands.len() - starts,
        })?;
        Ok(())
    }

    /// Closes the innermost label. Its operands stay.
    pub fn close(&mut self)
        requires { IsNested self.old.frames }
        ensures { self.new ≡ label_closed self.old }
    {
        self.labels.truncate(self.labels.len() - 1);
    }

    /// Closes the innermost label and drops its operands. `values` go to the label around it.
    pub fn land(&mut self, values: &[Marked]) -> Result<(), NoMemory>
        requires { IsNested self.old.frames }
        ensures ok { OnOk result (self.new ≡ label_landed (reverse values.now) self.old) }
        ensures err { OnErr result (self.new ≡ self.old) }
    {
        self.operands.reserve(values.len())?;
        let innermost = self.labels.len() - 1;
        self.operands.truncate(self.labels[innermost].height);
        self.labels.truncate(innermost);
        if self.operands.extend_from_slice(values).is_err() {
            unreachable!();
        }
        Ok(())
    }

    /// Begins a function with these locals, which are given back if memory runs out.
    pub fn enter(&mut self, func: u32, arity: usize, locals: Vec<Marked>) -> Result<(), Vec<Marked>>
        ensures ok { OnOk result (self.new ≡ frame_entered func arity locals.items self.old) }
        ensures back { IfErr result (λ back. back.items ≡ locals.items) }
        ensures err { OnErr result (self.new ≡ self.old) }
    {
        let labels = self.labels.len();
        let label = Label {
            kind: BlockKind::Function,
            begin: -1,
            arity,
            height: self.operands.len(),
        };
        if self.frames.reserve(1).is_err() || self.labels.push(label).is_err() {
            return Err(locals);
        }
        self.frames.push_reserved(Frame {
            func,
            locals,
            labels,
        });
        Ok(())
    }

    /// Leaves the innermost frame, and drops its operands and locals.
    pub fn leave(&mut self)
        requires { IsOutermost self.old.frames }
        ensures { self.new ≡ frame_left self.old }
    {
        let innermost = self.labels.len() - 1;
        self.operands.truncate(self.labels[innermost].height);
        self.labels.truncate(innermost);
        self.frames.truncate(self.frames.len() - 1);
    }

    /// Leaves all frames.
    pub fn clear(&mut self)
        ensures { self.new ≡ record { frames = []; operands = []; locals = [] } }
    {
        self.operands.truncate(0);
        self.labels.truncate(0);
        self.frames.truncate(0);
    }

    /// Sets a local of the innermost frame.
    pub fn set_local(&mut self, index: u32, value: Marked)
        requires { HasLocal index self.old.frames }
        ensures { self.new ≡ local_set index value self.old }
    {
        let innermost = self.frames.len() - 1;
        self.frames[innermost].set_local(index as usize, value);
    }

    /// How many operands the innermost label has.
    pub fn operand_count(&self) -> usize
        requires { Has 0 self.now.frames }
        ensures { result ≡ operand_count self.now.frames }
    {
        self.operands.len() - self.labels[self.labels.len() - 1].height
    }

    /// How many labels the innermost frame has around its innermost label.
    pub fn outer_count(&self) -> usize
        requires { Has 0 self.now.frames }
        ensures { result ≡ outer_count self.now.frames }
    {
        self.labels.len() - 1 - self.frames[self.frames.len() - 1].labels
    }

    /// How many values a branch to the label of this number takes, counted outwards from 0.
    pub fn arity(&self, label: usize) -> usize
        requires { HasLabel label self.now.frames }
        ensures { result ≡ arity_in label self.now.frames }
    {
        self.labels[self.labels.len() - 1 - label].arity
    }

    /// Copies of `count` values below the topmost `above`, the lowest first.
    pub fn values_below(
        &self,
        alloc: Global,
        above: usize,
        count: usize,
    ) -> Result<Vec<Marked>, NoMemory>
        requires { Has (above + count) self.now.frames }
        ensures { IfOk result (λ v. AreOperandsBelow above count v.items self.now) }
    {
        let highest = self.operands.len() - above;
        let lowest = highest - count;
        let values = Vec::from_slice(alloc, &self.operands[lowest..highest])?;
        Ok(values)
    }

    /// The mark of the operand that has `above` operands above it; `false` if there is none.
    pub fn mark(&self, above: usize) -> bool
        ensures { result ≡ nth_mark self.now.operands above }
    {
        above < self.operands.len() && self.operands[self.operands.len() - 1 - above].mark
    }

    /// Whether one of the topmost `count` operands, one or two, is marked.
    pub fn joined(&self, count: usize) -> bool
        requires some { 1 ≤ count }
        requires few { count ≤ 2 }
        ensures { result ≡ some_marked (take count self.now.operands) }
    {
        self.mark(0) || count == 2 && self.mark(1)
    }

    /// The mark of a local of the innermost frame; `false` past the last one.
    pub fn local_mark(&self, index: u32) -> bool
        requires { Has 0 self.now.frames }
        ensures { result ≡ nth_mark (first_or self.now.locals []) index }
    {
        let frame = &self.frames[self.frames.len() - 1];
        match frame.locals.as_slice().get(index as usize) {
            Some(local) => local.mark,
            None => false,
        }
    }
}
