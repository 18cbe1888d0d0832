// The stack of a run: values, labels and frames.

ghost use Rattle.std.specs.Prelude.{◌≡◌, ℕ, List, slice_get, ◌+◌, ◌-◌, ◌<◌, ◌≤◌, ◌∷◌, [], Some, ◌++◌, ◌^◌, IfOk, IsOk, OnOk, OnErr, length, replicate, drop, reverse, option_map, option_copied, vec_capacity};
ghost use Rattle.wasm_sem.specs.Types.{Value as number};
ghost use Rattle.module_ast.specs.Structure.{code_of};
ghost use Rattle.module_ast.specs.Binary.{locals_of};
ghost use Rattle.module_ast.specs.Validation.{declared_locals};
ghost use Rattle.wasm_sem.specs.Execution.{zeros};
ghost use Rattle.run_stack.specs.Flat.{Spot, Flat, moved_spots, kept, local_place, from_below, set_from_below, first_base, first_rest, lowest_arity, opened, closed, returned, landed, CanBranch, BranchesOut, HasMoreRoom, framed, PutsFrame};
ghost use Rattle.run_stack.specs.Slots.{index_count, behind_call, before_call};
ghost use Rattle.run_stack.specs.Below.{IsBelow, IsAnswerOf};

use module_ast::code::Instr;
use module_ast::module::{Body, Group};
use run_store::zero;
use std::alloc::{AllocError, Global};
use std::marker::Model;
use wasm_num::{NoMemory, Value, Values};
use wasm_sem::Answer;

/// A label: the rest of its sequence; for a loop also the code from the loop on; how many values are below its
/// operands; and how many values a branch to it takes. (Standard, 4.2.12)
#[derive(Drop)]
pub(crate) struct Label<'m> {
    rest: &'m [Instr],
    again: Option<&'m [Instr]>,
    height: usize,
    arity: usize,
}

impl<'m> Model for Label<'m> {
    ghost use Rattle.std.specs.Prelude.{option_map};
    ghost use Rattle.module_ast.specs.Structure.{code_of};
    ghost use Rattle.run_stack.specs.Flat.{Spot};

    ghost Value = { Spot };

    ghost use Rattle.module_ast.specs.contracts.code.Code as of_code;
    ghost use Rattle.std.specs.Coded.{codes};

    ghost coded = { Prim.hlevel (codes, of_code.the_row.coded) };

    ghost view = { λ a. record { rest = code_of a.rest.now; again = option_map (λ s. code_of s.now) a.again; height = a.height; arity = a.arity } };
}

impl<'m> Label<'m> {
    // Sets the rest of the sequence.
    fn resume(&mut self, rest: &'m [Instr])
        ensures { self.new ≡ record self.old { rest = code_of rest.now } }
    {
        self.rest = rest;
    }
}

/// A frame: how many values are below its locals, and how many labels are below its own. (Standard, 4.2.12)
#[derive(Drop)]
pub(crate) struct Frame {
    values: usize,
    labels: usize,
}

impl Model for Frame {
    ghost use Rattle.run_stack.specs.Flat.{Base};

    ghost Value = { Base };

    ghost view = { λ a. record { values = a.values; labels = a.labels } };
}

/// The values, labels and frames of a run, each in one vector. Contracts see lists, the innermost first.
#[derive(Drop)]
pub struct Stack<'m> {
    values: Vec<Value>,
    labels: Vec<Label<'m>>,
    frames: Vec<Frame>,
}

impl<'m> Model for Stack<'m> {
    ghost use Rattle.std.specs.Prelude.{reverse, vec_capacity};
    ghost use Rattle.run_stack.specs.Flat.{Flat};

    ghost Value = { Flat };

    ghost use Rattle.module_ast.specs.contracts.code.Code as of_code;
    ghost use Rattle.std.specs.Coded.{codes};

    ghost coded = { Prim.hlevel (codes, of_code.the_row.coded) };

    ghost view = { λ a.
        record {
          values = reverse a.values.items;
          spots = reverse a.labels.items;
          bases = reverse a.frames.items;
          value_room = vec_capacity a.values;
          spot_room = vec_capacity a.labels;
          base_room = vec_capacity a.frames;
        } };
}

impl<'m> Stack<'m> {
    /// A stack without values, labels and frames. Takes no memory.
    pub fn new(alloc: Global) -> Stack<'m>
        ensures { result ≡ record { values = []; spots = []; bases = []; value_room = 0; spot_room = 0; base_room = 0 } }
    {
        Stack {
            values: Vec::new(alloc),
            labels: Vec::new(alloc),
            frames: Vec::new(alloc),
        }
    }

    /// Takes the topmost value.
    pub(crate) fn pop(&mut self) -> Value
        requires { 0 < length self.old.values }
        ensures { self.old ≡ record self.new { values = result ∷ self.new.values } }
    {
        self.values.take_last()
    }

    /// Takes the topmost value, which is an `i32`.
    pub(crate) fn pop_i32(&mut self) -> u32
        requires { (n : ℕ) × (rest : List number) × (self.old.values ≡ Value.I32 n ∷ rest) }
        ensures { self.old ≡ record self.new { values = Value.I32 result ∷ self.new.values } }
    {
        match self.pop() {
            Value::I32(number) => number,
            Value::I64(_) => unreachable!(),
        }
    }

    /// Drops the topmost `count` values.
    pub fn drop_top(&mut self, count: usize)
        requires { count ≤ length self.old.values }
        ensures { self.new ≡ record self.old { values = drop count self.old.values } }
    {
        self.values.truncate(self.values.len() - count);
    }

    /// The topmost value.
    pub(crate) fn top(&self) -> Value
        requires { 0 < length self.now.values }
        ensures { slice_get self.now.values 0 ≡ Some result }
    {
        self.values[self.values.len() - 1]
    }

    /// The topmost value, which is an `i32`.
    pub fn top_i32(&self) -> u32
        requires { (n : ℕ) × (rest : List number) × (self.now.values ≡ Value.I32 n ∷ rest) }
        ensures { slice_get self.now.values 0 ≡ Some (Value.I32 result) }
    {
        match self.top() {
            Value::I32(number) => number,
            Value::I64(_) => unreachable!(),
        }
    }

    /// Copies of `count` values below the topmost `above`, the lowest first. `NoMemory` only if there are more than
    /// four and memory runs out.
    pub fn values_below(
        &self,
        alloc: Global,
        count: usize,
        above: usize,
    ) -> Result<Values, NoMemory>
        requires { above + count ≤ length self.now.values }
        ensures ok { IfOk result (λ vs. IsBelow above count vs self.now.values) }
        ensures succeeds { count ≤ 4 → IsOk result }
    {
        let end = self.values.len() - above;
        let mut below = Values::new(alloc);
        for place in end - count..end {
            below.push(self.values[place])?;
        }
        Ok(below)
    }

    /// The answer when the last frame was left: the values that are there, at most four.
    pub fn answer(&self, alloc: Global) -> Answer
        requires left { self.now.bases ≡ [] }
        requires few { length self.now.values ≤ 4 }
        ensures { IsAnswerOf (Some result) self.now }
    {
        match self.values_below(alloc, self.values.len(), 0) {
            Ok(values) => Answer::Returned(values),
            Err(_) => unreachable!(),
        }
    }

    /// Puts a value on top. There is room for it.
    pub fn push(&mut self, value: Value)
        requires { length self.old.values < self.old.value_room }
        ensures { self.new ≡ record self.old { values = value ∷ self.old.values } }
    {
        self.values.push_reserved(value);
    }

    /// Lets the innermost label go on with `rest`.
    pub(crate) fn go_on(&mut self, rest: &'m [Instr])
        requires { 0 < length self.old.spots }
        ensures { self.new ≡ record self.old { spots = moved_spots (code_of rest.now) self.old.spots } }
    {
        let innermost = self.labels.len() - 1;
        self.labels[innermost].resume(rest);
    }

    /// Goes past a call: the innermost label goes on with the code behind it, and the number of the slot, if the call
    /// is through one, is dropped.
    pub fn step_behind(&mut self, rest: &'m [Instr], slot: Option<u32>)
        requires some { 0 < length self.old.spots }
        requires index { index_count slot ≤ length self.old.values }
        ensures { self.new ≡ behind_call slot (code_of rest.now) self.old }
    {
        self.go_on(rest);
        if slot.is_some() {
            self.drop_top(1);
        }
    }

    /// Undoes `step_behind`: the innermost label goes back to the call, and the number of the slot, if the call is
    /// through one, is on top again. There is room for it.
    pub fn step_back(&mut self, place: &'m [Instr], slot: Option<u32>)
        requires some { 0 < length self.old.spots }
        requires room { length self.old.values + index_count slot ≤ self.old.value_room }
        ensures { self.new ≡ before_call slot (code_of place.now) self.old }
    {
        if let Some(index) = slot {
            self.push(Value::I32(index));
        }
        self.go_on(place);
    }

    /// The value of a local of the innermost frame.
    pub(crate) fn local(&self, index: u32) -> Value
        requires some { 0 < length self.now.bases }
        requires within { local_place self.now index < length self.now.values }
        ensures { from_below self.now (local_place self.now index) ≡ Some result }
    {
        let frame = &self.frames[self.frames.len() - 1];
        self.values[frame.values + index as usize]
    }

    /// Sets a local of the innermost frame.
    pub(crate) fn set_local(&mut self, index: u32, value: Value)
        requires some { 0 < length self.old.bases }
        requires within { local_place self.old index < length self.old.values }
        ensures { self.new ≡ set_from_below self.old (local_place self.old index) value }
    {
        let frame = &self.frames[self.frames.len() - 1];
        let place = frame.values + index as usize;
        self.values[place] = value;
    }

    /// Enters a block: adds a label, for which there is room. The topmost `starts` values stay, and are the first
    /// operands of the block.
    pub(crate) fn open(
        &mut self,
        rest: &'m [Instr],
        again: Option<&'m [Instr]>,
        starts: usize,
        arity: usize,
    )
        requires room { length self.old.spots < self.old.spot_room }
        requires starts { starts ≤ length self.old.values }
        ensures { self.new ≡ opened (code_of rest.now) (option_map (λ s. code_of s.now) again.entry) starts arity self.old }
    {
        self.labels.push_reserved(Label {
            rest,
            again,
            height: self.values.len() - starts,
            arity,
        });
    }

    /// Leaves the innermost label. Its values stay.
    pub(crate) fn close(&mut self)
        requires { 0 < length self.old.spots }
        ensures { self.new ≡ closed self.old }
    {
        self.labels.truncate(self.labels.len() - 1);
    }

    /// Leaves the innermost frame. The topmost `arity` values stay on top.
    pub(crate) fn leave(&mut self, arity: usize)
        requires some { 0 < length self.old.bases }
        requires within { (first_base self.old.bases).values + arity ≤ length self.old.values }
        ensures { self.new ≡ returned arity self.old }
    {
        let frame = &self.frames[self.frames.len() - 1];
        let values = frame.values;
        let labels = frame.labels;
        keep(&mut self.values, values, arity);
        self.labels.truncate(labels);
        self.frames.truncate(self.frames.len() - 1);
    }

    /// The rest of the innermost label's sequence.
    pub fn place(&self) -> &'m [Instr]
        requires { 0 < length self.now.spots }
        ensures { code_of result.now ≡ first_rest self.now.spots }
    {
        self.labels[self.labels.len() - 1].rest
    }

    /// Drops all values, labels and frames.
    pub fn clear(&mut self)
        ensures { self.new ≡ record self.old { values = []; spots = []; bases = [] } }
    {
        self.values.truncate(0);
        self.labels.truncate(0);
        self.frames.truncate(0);
    }

    /// How many frames there are.
    pub fn frames(&self) -> usize
        ensures { result ≡ length self.now.bases }
    {
        self.frames.len()
    }

    /// How many labels the innermost frame has.
    pub(crate) fn labels_of_frame(&self) -> usize
        requires some { 0 < length self.now.bases }
        requires own { (first_base self.now.bases).labels ≤ length self.now.spots }
        ensures { result ≡ length self.now.spots - (first_base self.now.bases).labels }
    {
        self.labels.len() - self.frames[self.frames.len() - 1].labels
    }

    /// How many values a branch to the outermost of all labels takes.
    pub fn lowest_arity(&self) -> usize
        requires { 0 < length self.now.spots }
        ensures { result ≡ lowest_arity self.now.spots }
    {
        let label = &self.labels[0];
        label.arity
    }

    // Branches to the label at index `at`, counted from the lowest, which is not the outermost of its frame.
    fn land(&mut self, at: usize, number: usize)
        requires number { at + number + 1 ≡ length self.old.spots }
        requires inside { 0 < at }
        requires can { CanBranch number self.old }
        ensures branches { (t : Spot) × (slice_get self.old.spots number ≡ Some t) × (self.new ≡ landed t (drop (number + 1) self.old.spots) self.old) }
        ensures value_room { self.new.value_room ≡ self.old.value_room }
        ensures spot_room { self.new.spot_room ≡ self.old.spot_room }
    {
        let label = &self.labels[at];
        let height = label.height;
        let arity = label.arity;
        let again = label.again;
        keep(&mut self.values, height, arity);
        self.labels.truncate(at);
        if let Some(rest) = again {
            self.labels[at - 1].resume(rest);
        }
    }

    /// Branches to the label of this number, counted outwards from 0: to the loop again, behind the block, or out of
    /// the function. (Standard, 4.4.5)
    pub(crate) fn branch(&mut self, number: usize)
        requires { CanBranch number self.old }
        ensures branches { BranchesOut number self.old self.new }
        ensures value_room { self.new.value_room ≡ self.old.value_room }
        ensures spot_room { self.new.spot_room ≡ self.old.spot_room }
    {
        let at = self.labels.len() - 1 - number;
        let arity = self.labels[at].arity;
        if at == self.frames[self.frames.len() - 1].labels {
            self.leave(arity);
        } else {
            self.land(at, number);
        }
    }

    /// Makes room for `values` more values, `labels` more labels and a frame. After an `Err` all is as before.
    pub fn make_room(&mut self, values: usize, labels: usize) -> Result<(), AllocError>
        ensures same { HasMoreRoom self.old self.new }
        ensures values { OnOk result (length self.old.values + values ≤ self.new.value_room) }
        ensures spots { OnOk result (length self.old.spots + labels ≤ self.new.spot_room) }
        ensures bases { OnOk result (length self.old.bases < self.new.base_room) }
    {
        self.values.reserve(values)?;
        self.labels.reserve(labels)?;
        self.frames.reserve(1)?;
        Ok(())
    }

    // Adds a frame whose parameters are the topmost values.
    fn add_frame(&mut self, params: usize)
        requires params { params ≤ length self.old.values }
        requires room { length self.old.bases < self.old.base_room }
        ensures { self.new ≡ framed params self.old }
    {
        let values = self.values.len() - params;
        let labels = self.labels.len();
        self.frames.push_reserved(Frame { values, labels });
    }

    // Puts the declared locals on top, for which there is room.
    fn add_locals(&mut self, groups: &[Group])
        requires { length self.old.values + locals_of groups.now ≤ self.old.value_room }
        ensures values { self.new.values ≡ reverse (zeros (declared_locals groups.now)) ++ self.old.values }
        ensures spots { self.new.spots ≡ self.old.spots }
        ensures bases { self.new.bases ≡ self.old.bases }
        ensures value_room { self.old.value_room ≤ self.new.value_room }
        ensures spot_room { self.new.spot_room ≡ self.old.spot_room }
    {
        push_zeros(&mut self.values, groups);
    }

    /// Enters a function. Its parameters are on top, and its declared locals are put above them. There is then room for
    /// `height` operands, and for `nesting` labels inside the function's own. After an `Err` all is as before.
    /// (Standard, 4.4.7)
    pub fn enter(
        &mut self,
        body: &'m Body,
        params: usize,
        locals: usize,
        arity: usize,
        height: usize,
        nesting: usize,
    ) -> Result<(), AllocError>
        requires params { params ≤ length self.old.values }
        requires locals { locals ≡ locals_of body.now.groups }
        requires size { locals + height < 2 ^ 63 }
        requires depth { nesting < 2 ^ 63 }
        ensures ok { OnOk result (PutsFrame params (zeros (declared_locals body.now.groups)) body.now.code arity height nesting self.old self.new) }
        ensures err { OnErr result (HasMoreRoom self.old self.new) }
    {
        self.make_room(locals + height, nesting + 1)?;
        self.add_frame(params);
        self.add_locals(body.groups.as_slice());
        self.open(body.code.as_slice(), None, 0, arity);
        Ok(())
    }
}

// Moves the topmost `count` values down to `height`, and drops those between.
fn keep(values: &mut Vec<Value>, height: usize, count: usize)
    requires { height + count ≤ length values.old.items }
    ensures items { reverse values.new.items ≡ kept count height (reverse values.old.items) }
    ensures capacity { vec_capacity values.new ≡ vec_capacity values.old }
{
    let top = values.len() - count;
    if top == height {
        return;
    }
    values.copy_within(top.., height);
    values.truncate(height + count);
}

// Puts the zeros of a group of locals on top, for which there is room.
fn push_zeros_of(values: &mut Vec<Value>, group: &Group)
    requires { length values.old.items + group.now.count ≤ vec_capacity values.old }
    ensures items { values.new.items ≡ values.old.items ++ zeros (replicate group.now.count group.now.ty) }
    ensures capacity { vec_capacity values.old ≤ vec_capacity values.new }
{
    let grown = values.len() + group.count as usize;
    if values.resize(grown, zero(group.ty)).is_err() {
        unreachable!();
    }
}

// Puts the zeros of declared locals on top, for which there is room.
fn push_zeros(values: &mut Vec<Value>, groups: &[Group])
    requires { length values.old.items + locals_of groups.now ≤ vec_capacity values.old }
    ensures items { values.new.items ≡ values.old.items ++ zeros (declared_locals groups.now) }
    ensures capacity { vec_capacity values.old ≤ vec_capacity values.new }
{
    for group in groups {
        push_zeros_of(values, group);
    }
}
