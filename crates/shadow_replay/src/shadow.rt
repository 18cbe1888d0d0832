// The shadow: the state that items rebuild.

ghost use Rattle.std.specs.Prelude.{◌≡◌, ◌+◌, slice_get, None, Some, IsSome, IfOk, OnOk, OnErr};
ghost use Rattle.shadow_replay.specs.Stacked.{Has};
ghost use Rattle.shadow_replay.specs.Taint.{add_pages, nth_mark, read_mark};
ghost use Rattle.wasm_sem.specs.Execution.{event, entry, callees_of, IsScriptInRange, Links};
ghost use Rattle.run_store.specs.Resolved.{callee_for};
ghost use Rattle.shadow_replay.specs.Events.{IsItemFit};
ghost use Rattle.shadow_replay.specs.Opened.{opening_replay, replay_with};
ghost use Rattle.shadow_replay.specs.Replayed.{Becomes, TakesItem, number_effect, number_taken, function_begun, block_begun, called, called_through, slot_called, call_warnings, answered, StoresBytes, with_marked_memory, HoldsValues, held_below, held_under, branch_taken, given_taken, ended, stored_memory, Prepares};
ghost use Rattle.shadow_replay.specs.Tainted.{with_marks, begins_marks, calls_marks};
ghost use Rattle.module_ast.specs.Memory.{load_value, grown_memory};
ghost use Rattle.module_ast.specs.Validation.{load_width};

use crate::Warning;
use crate::blocks::Blocks;
use crate::functions::begun_locals;
use crate::marked::Marked;
use crate::marks::{
    argument_warnings, is_some_marked, is_watched, mark_all, marked_values, unmarked, write_all,
};
use crate::stack::Stack;
use hook_select::Event;
use module_ast::module::{FuncType, Loc};
use module_ast::ops::{LoadOp, StoreOp, VarOp};
use run_store::memory::{Memory, PAGE_SIZE};
use run_store::{Function, functions_of, open_globals, open_memory, same_func_type};
use std::alloc::{AllocError, Global};
use std::marker::Model;
use wasm_num::{BlockKind, NoMemory, NumOp, Value, Values};
use wasm_sem::{HostWrite, Script};
use wasm_valid::ValidModule;

// The locals of a function that is about to begin, and the place of the call that prepared them.
#[derive(Drop)]
struct Prepared {
    call: Option<Loc>,
    locals: Vec<Marked>,
}

impl Model for Prepared {
    ghost use Rattle.shadow_replay.specs.Replayed.{PreparedLocals};

    ghost Value = { PreparedLocals };

    ghost view = { λ a. record { call = a.call; locals = a.locals.items } };
}

// The values that a branch takes with it, the lowest first, and how many labels it has yet to leave before its target.
#[derive(Drop)]
struct Held {
    operands: Vec<Marked>,
    label: usize,
}

impl Model for Held {
    ghost use Rattle.shadow_replay.specs.Replayed.{HeldOperands};

    ghost Value = { HeldOperands };

    ghost view = { λ a. record { operands = a.operands.items; label = a.label } };
}

/// The machine's state, with a mark on each byte and value, as the items so far rebuild it, and the warnings so far.
pub struct Shadow<'m> {
    alloc: Global,
    valid: &'m ValidModule,
    functions: Vec<Function<'m>>,
    blocks: Blocks,
    sources: Vec<u32>,
    sinks: Vec<u32>,
    memory: Memory,
    memory_marks: Vec<bool>,
    globals: Vec<Marked>,
    stack: Stack,
    prepared: Option<Prepared>,
    held: Option<Held>,
    given: Option<Vec<Marked>>,
    warnings: Vec<Warning>,
}

// Dropped by hand: each early return past a value of this type then costs one proof step instead of one per field.
impl Drop for Shadow<'_> {
    fn drop(self) {
        let Shadow {
            alloc: _alloc,
            valid: _valid,
            functions: _functions,
            blocks: _blocks,
            sources: _sources,
            sinks: _sinks,
            memory: _memory,
            memory_marks: _memory_marks,
            globals: _globals,
            stack: _stack,
            prepared: _prepared,
            held: _held,
            given: _given,
            warnings: _warnings,
        } = self;
    }
}

impl<'m> Model for Shadow<'m> {
    ghost use Rattle.std.specs.Prelude.{◌≡◌, length, option_map};
    ghost use Rattle.shadow_replay.specs.Replayed.{Replay, shadow_seen};

    ghost Value = { Replay };

    ghost use Rattle.module_ast.specs.contracts.module.Module as of_module;
    ghost use Rattle.std.specs.Coded.{codes};

    ghost coded = { Prim.hlevel (codes, of_module.the_row.coded) };

    ghost view = { λ a.
        record {
          «module» = a.valid.now;
          limit = a.memory.max;
          watch = record { sources = a.sources.items; sinks = a.sinks.items };
          shadow = shadow_seen a.memory.bytes a.memory_marks.items a.globals.items a.stack a.prepared a.held (option_map (λ v. v.items) a.given) a.warnings.items;
        } };

    ghost use Rattle.std.specs.Prelude.{map};
    ghost use Rattle.wasm_sem.specs.Execution.{callees_of};
    ghost use Rattle.run_store.specs.Resolved.{callee_for};
    ghost use Rattle.shadow_replay.specs.BlockRows.{block_rows};

    ghost invariant = { λ a. (length a.memory_marks.items ≡ length a.memory.bytes) × (map callee_for a.functions.items ≡ callees_of a.valid.now) × (a.blocks ≡ block_rows a.valid.now) };
}

impl<'m> Shadow<'m> {
    /// The state before the first step of a run of a module under a script with which it links: its memory, with the
    /// data of its segments, and its globals. (Standard, 4.5.4)
    ///
    /// Nothing is marked yet. The results of imports in `sources` will be marked, and there will be a warning for each
    /// marked argument of an import in `sinks`. `NoMemory` if memory runs out.
    pub fn new(
        alloc: Global,
        valid: &'m ValidModule,
        script: &Script,
        sources: &[u32],
        sinks: &[u32],
    ) -> Result<Shadow<'m>, NoMemory>
        requires range { IsScriptInRange script.now }
        requires links { Links valid.now script.now }
        ensures { IfOk result (λ sh. sh ≡ opening_replay valid.now script.now (record { sources = sources.now; sinks = sinks.now })) }
    {
        let module = valid.module();
        let values = open_globals(alloc, module, script)?;
        let memory = open_memory(alloc, module, script, values.as_slice())?;
        let globals = unmarked(alloc, values.as_slice())?;
        Shadow::with_store(alloc, valid, memory, globals, sources, sinks)
    }

    // The state of a module in which no function has begun and no byte is marked.
    #[tactic(auto, using(crate::proofs::Openings::no_marks))]
    fn with_store(
        alloc: Global,
        valid: &'m ValidModule,
        memory: Memory,
        globals: Vec<Marked>,
        sources: &[u32],
        sinks: &[u32],
    ) -> Result<Shadow<'m>, NoMemory>
        ensures { IfOk result (λ sh. sh ≡ replay_with valid.now memory.max (record { sources = sources.now; sinks = sinks.now }) memory.bytes globals.items) }
    {
        let mut memory_marks = Vec::new(alloc);
        memory_marks.resize(memory.bytes().len(), false)?;
        let functions = functions_of(alloc, valid)?;
        let blocks = Blocks::new(alloc, functions.as_slice())?;
        Ok(Shadow {
            alloc,
            valid,
            functions,
            blocks,
            sources: Vec::from_slice(alloc, sources)?,
            sinks: Vec::from_slice(alloc, sinks)?,
            memory,
            memory_marks,
            globals,
            stack: Stack::new(alloc),
            prepared: None,
            held: None,
            given: None,
            warnings: Vec::new(alloc),
        })
    }

    /// The warnings so far, in order.
    pub fn warnings(&self) -> &[Warning]
        ensures { result.now ≡ self.now.shadow.marks.taint.warnings }
    {
        self.warnings.as_slice()
    }

    /// The bytes of the memory now; none if there is no memory.
    pub fn bytes(&self) -> &[u8]
        ensures { result.now ≡ self.now.shadow.state.memory }
    {
        self.memory.bytes()
    }

    // A number instruction had this result.
    fn take_number(&mut self, op: NumOp, value: Value)
        requires fit { IsSome (number_effect op value self.old.shadow.state) }
        ensures { Becomes (number_taken op value self.old.shadow) self.old self.new }
    {
        let count = op.operands();
        let mark = self.stack.joined(count);
        self.stack.replace(count, Marked { value, mark });
    }

    // The mark of a global; `false` past the last one.
    fn global_mark(&self, index: u32) -> bool
        ensures { result ≡ nth_mark self.now.shadow.marks.taint.globals index }
    {
        match self.globals.as_slice().get(index as usize) {
            Some(global) => global.mark,
            None => false,
        }
    }

    // Whether one of the bytes that a load reads is marked. The load ends within the memory.
    fn read_mark(&self, op: LoadOp, address: u32, offset: u32) -> bool
        requires { IsSome (load_value op (address + offset) self.now.shadow.state.memory) }
        ensures { result ≡ read_mark (address + offset) (load_width op) self.now.shadow.marks.taint }
    {
        let start = address as usize + offset as usize;
        is_some_marked(&self.memory_marks[start..start + op.width() as usize])
    }

    // Writes the lowest bytes of a value, each with the value's mark. The store ends within the memory.
    fn store(&mut self, op: StoreOp, address: u32, offset: u32, value: Value, mark: bool)
        requires { IsSome (stored_memory op (address + offset) value self.old.shadow.state.memory) }
        ensures { StoresBytes (address + offset) op value mark self.old self.new }
    {
        let start = address as usize + offset as usize;
        if self.memory.store(op, address, offset, value).is_err() {
            unreachable!();
        }
        mark_all(
            &mut self.memory_marks[start..start + op.width() as usize],
            mark,
        );
    }

    // Adds `by` pages to the memory, within its bound. Their bytes are not marked.
    fn grow(&mut self, by: u32) -> Result<(), NoMemory>
        requires { IsSome (grown_memory self.old.limit by self.old.shadow.state.memory) }
        ensures memory { OnOk result (grown_memory self.old.limit by self.old.shadow.state.memory ≡ Some self.new.shadow.state.memory) }
        ensures rest { OnOk result (self.new ≡ record self.old { shadow = with_marked_memory self.new.shadow.state.memory (add_pages by self.old.shadow.marks.taint).memory self.old.shadow }) }
        ensures err { OnErr result (self.new ≡ self.old) }
    {
        let size = self.memory_marks.len() + by as usize * PAGE_SIZE;
        self.memory_marks.reserve(by as usize * PAGE_SIZE)?;
        if self.memory.grow(by)?.is_none() {
            unreachable!();
        }
        if self.memory_marks.resize(size, false).is_err() {
            unreachable!();
        }
        Ok(())
    }

    // Holds the values that a branch takes to a label, which are below the topmost `above` operands.
    fn hold(&mut self, label: usize, above: usize) -> Result<(), NoMemory>
        requires above { Has above self.old.shadow.state.frames }
        requires fit { IsSome (held_below above label self.old.shadow.state) }
        ensures ok { OnOk result (HoldsValues label above self.old self.new) }
        ensures err { OnErr result (self.new ≡ self.old) }
    {
        let arity = self.stack.arity(label);
        let operands = self.stack.values_below(self.alloc, above, arity)?;
        self.held = Some(Held { operands, label });
        Ok(())
    }

    // Holds the values that a branch takes to a label, and drops the operand above them.
    fn hold_under(&mut self, label: u32) -> Result<(), NoMemory>
        requires fit { IsSome (held_under label self.old.shadow.state) }
        ensures ok { OnOk result (Becomes (branch_taken label self.old.shadow) self.old self.new) }
        ensures err { OnErr result (self.new ≡ self.old) }
    {
        self.hold(label as usize, 1)?;
        self.stack.pop(1);
        Ok(())
    }

    // Closes the innermost label without a branch. Its operands go to the label around it; if it is the function's,
    // they are given.
    fn fall(&mut self) -> Result<(), NoMemory>
        requires held { self.old.shadow.state.held ≡ None }
        requires fit { IsSome (ended self.old.shadow) }
        ensures ok { OnOk result (Becomes (ended self.old.shadow) self.old self.new) }
        ensures err { OnErr result (self.new ≡ self.old) }
    {
        if self.stack.outer_count() != 0 {
            self.stack.close();
            return Ok(());
        }
        let arity = self.stack.arity(0);
        let results = self.stack.values_below(self.alloc, 0, arity)?;
        self.stack.leave();
        self.given = Some(results);
        Ok(())
    }

    // Closes the innermost label. If a branch holds values, they go on towards its target.
    fn end(&mut self) -> Result<(), NoMemory>
        requires fit { IsSome (ended self.old.shadow) }
        ensures ok { OnOk result (Becomes (ended self.old.shadow) self.old self.new) }
        ensures err { OnErr result (self.new ≡ self.old) }
    {
        let Some(mut held) = self.held.take() else {
            return self.fall();
        };
        if self.stack.outer_count() == 0 {
            self.stack.leave();
            self.given = Some(held.operands);
            return Ok(());
        }
        if held.label == 0 {
            if self.stack.land(held.operands.as_slice()).is_err() {
                self.held = Some(held);
                return Err(AllocError);
            }
            return Ok(());
        }
        let count = self.stack.operand_count();
        self.stack.pop(count);
        self.stack.close();
        held.label -= 1;
        self.held = Some(held);
        Ok(())
    }

    // Puts what a call gave on top of the frame that made the call.
    fn take_given(&mut self) -> Result<(), NoMemory>
        requires frame { Has 0 self.old.shadow.state.frames }
        requires given { IsSome self.old.shadow.state.given }
        ensures ok { OnOk result (Becomes (given_taken self.old.shadow) self.old self.new) }
        ensures err { OnErr result (self.new ≡ self.old) }
    {
        let Some(given) = self.given.take() else {
            unreachable!();
        };
        if self.stack.extend(given.as_slice()).is_err() {
            self.given = Some(given);
            return Err(AllocError);
        }
        Ok(())
    }

    fn function(&self, func: u32) -> Function<'m>
        requires { IsSome (slice_get (callees_of self.now.module) func) }
        ensures { slice_get (callees_of self.now.module) func ≡ Some (callee_for result) }
    {
        self.functions[func as usize]
    }

    // Begins the function whose locals are prepared.
    fn begin(&mut self, func: u32) -> Result<(), NoMemory>
        requires fit { IsSome (function_begun func self.old) }
        ensures ok { OnOk result (Becomes (with_marks (begins_marks self.old.shadow.marks) (function_begun func self.old)) self.old self.new) }
        ensures err { OnErr result (self.new ≡ self.old) }
    {
        let function = self.function(func);
        let arity = function.ty().results.as_slice().len();
        let Some(prepared) = self.prepared.take() else {
            unreachable!();
        };
        let call = prepared.call;
        match self.stack.enter(func, arity, prepared.locals) {
            Ok(()) => Ok(()),
            Err(locals) => {
                self.prepared = Some(Prepared { call, locals });
                Err(AllocError)
            }
        }
    }

    fn open(&mut self, loc: Loc) -> Result<(), NoMemory>
        requires fit { IsSome (block_begun loc self.old) }
        ensures ok { OnOk result (Becomes (with_marks self.old.shadow.marks (block_begun loc self.old)) self.old self.new) }
        ensures err { OnErr result (self.new ≡ self.old) }
    {
        let Some(block) = self.blocks.at(loc) else {
            unreachable!();
        };
        let counts = block.counts(self.valid.module());
        self.stack
            .open(block.kind, loc.instr, counts.starts, counts.arity)
    }

    // Takes the arguments of a call off the stack, and prepares the locals of its function.
    fn call(&mut self, loc: Loc, callee: u32) -> Result<(), NoMemory>
        requires fit { IsSome (called callee self.old) }
        ensures ok { OnOk result (Becomes (with_marks (calls_marks loc (slice_get (callees_of self.old.module) callee) self.old.shadow.marks) (called callee self.old)) self.old self.new) }
        ensures err { OnErr result (self.new ≡ self.old) }
    {
        let function = self.function(callee);
        let count = function.ty().params.as_slice().len();
        let args = self.stack.values_below(self.alloc, 0, count)?;
        let locals = begun_locals(&function, args)?;
        self.stack.pop(count);
        self.prepared = Some(Prepared {
            call: Some(loc),
            locals,
        });
        Ok(())
    }

    // What a call through a slot prepares: the locals of the function in the slot; `None` if the slot has no function
    // or one of another type.
    fn prepare(
        &self,
        loc: Loc,
        asked: &FuncType,
        callee: Option<u32>,
        args: Vec<Marked>,
    ) -> Result<Option<Prepared>, NoMemory>
        ensures { IfOk result (λ p. Prepares loc asked.now callee args.items self.now p) }
    {
        let Some(func) = callee else {
            return Ok(None);
        };
        let Some(function) = self.functions.as_slice().get(func as usize) else {
            return Ok(None);
        };
        if !same_func_type(function.ty(), asked) {
            return Ok(None);
        }
        let locals = begun_locals(function, args)?;
        Ok(Some(Prepared {
            call: Some(loc),
            locals,
        }))
    }

    // Takes the number of the slot and the arguments of a call off the stack, and prepares the locals of its function.
    fn call_slot(&mut self, loc: Loc, ty: u32, callee: Option<u32>) -> Result<(), NoMemory>
        requires fit { IsSome (called_through ty callee self.old) }
        ensures ok { OnOk result (Becomes (slot_called loc ty callee self.old) self.old self.new) }
        ensures err { OnErr result (self.new ≡ self.old) }
    {
        let asked = &self.valid.module().types.as_slice()[ty as usize];
        let count = asked.params.as_slice().len();
        let args = self.stack.values_below(self.alloc, 1, count)?;
        let prepared = self.prepare(loc, asked, callee, args)?;
        self.stack.pop(1 + count);
        self.prepared = prepared;
        Ok(())
    }

    /// Takes the entry of the start or of a call of the script with these arguments, which are not marked. `NoMemory`
    /// if memory runs out; nothing has then changed.
    pub fn enter(&mut self, func: u32, args: &Values) -> Result<(), NoMemory>
        requires fit { IsItemFit self.old.module self.old.limit self.old.shadow.state (entry (record { func = func; args = args.now })) }
        ensures ok { OnOk result (TakesItem (entry (record { func = func; args = args.now })) self.old self.new) }
        ensures err { OnErr result (self.new ≡ self.old) }
    {
        let function = self.function(func);
        let locals = begun_locals(&function, marked_values(self.alloc, args, false)?)?;
        self.stack.clear();
        self.prepared = Some(Prepared { call: None, locals });
        self.held = None;
        self.given = None;
        Ok(())
    }

    // The warnings of the call that is prepared, if it calls a sink and an instruction made the call.
    fn warnings_of(&self, import: u32) -> Result<Vec<Warning>, NoMemory>
        requires { IsSome self.now.shadow.state.prepared }
        ensures { IfOk result (λ ws. ws.items ≡ call_warnings self.now.watch import self.now.shadow.marks.prepared) }
    {
        let Some(prepared) = &self.prepared else {
            unreachable!();
        };
        match prepared.call {
            Some(loc) if is_watched(self.sinks.as_slice(), import) => {
                argument_warnings(self.alloc, loc, import, prepared.locals.as_slice())
            }
            _ => Ok(Vec::new(self.alloc)),
        }
    }

    /// Takes a host call: the answer to the call whose arguments are prepared, with these results and writes. The
    /// results are marked if the import is a source; the bytes that are written are not. There is a warning for each
    /// marked argument if the import is a sink, unless the script entered it. `NoMemory` if memory runs out; nothing
    /// has then changed.
    pub fn host(
        &mut self,
        import: u32,
        results: &Values,
        writes: &[HostWrite],
    ) -> Result<(), NoMemory>
        requires fit { IsItemFit self.old.module self.old.limit self.old.shadow.state (answered import results.now writes.now self.old.shadow.state) }
        ensures ok { OnOk result (TakesItem (answered import results.now writes.now self.old.shadow.state) self.old self.new) }
        ensures err { OnErr result (self.new ≡ self.old) }
    {
        let source = is_watched(self.sources.as_slice(), import);
        let given = marked_values(self.alloc, results, source)?;
        let warnings = self.warnings_of(import)?;
        self.warnings.extend_from_slice(warnings.as_slice())?;
        write_all(&mut self.memory, self.memory_marks.as_mut_slice(), writes);
        self.prepared = None;
        self.given = Some(given);
        Ok(())
    }

    /// Takes the event of an instruction, or of a function or block that begins or ends. `NoMemory` if memory runs out;
    /// nothing has then changed.
    pub fn take(&mut self, e: &Event) -> Result<(), NoMemory>
        requires fit { IsItemFit self.old.module self.old.limit self.old.shadow.state (event e.now) }
        ensures ok { OnOk result (TakesItem (event e.now) self.old self.new) }
        ensures err { OnErr result (self.new ≡ self.old) }
    {
        match e {
            Event::Start { .. } | Event::Nop { .. } | Event::Unreachable { .. } => Ok(()),
            Event::Const { value, .. } => self.stack.push(Marked {
                value: *value,
                mark: false,
            }),
            Event::MemorySize { pages, .. } => self.stack.push(Marked {
                value: Value::I32(*pages),
                mark: false,
            }),
            Event::Unary { op, result, .. } | Event::Binary { op, result, .. } => {
                self.take_number(*op, *result);
                Ok(())
            }
            Event::Select {
                first,
                second,
                cond,
                ..
            } => {
                let (value, above) = if *cond == 0 {
                    (*second, 1)
                } else {
                    (*first, 2)
                };
                let mark = self.stack.mark(above);
                self.stack.replace(3, Marked { value, mark });
                Ok(())
            }
            Event::Drop { .. } | Event::If { .. } => {
                self.stack.pop(1);
                Ok(())
            }
            Event::Local {
                op,
                index,
                value,
                ..
            } => {
                let value = *value;
                match op {
                    VarOp::Get => {
                        let mark = self.stack.local_mark(*index);
                        self.stack.push(Marked { value, mark })
                    }
                    VarOp::Set => {
                        let mark = self.stack.mark(0);
                        self.stack.pop(1);
                        self.stack.set_local(*index, Marked { value, mark });
                        Ok(())
                    }
                    VarOp::Tee => {
                        let mark = self.stack.mark(0);
                        self.stack.set_local(*index, Marked { value, mark });
                        Ok(())
                    }
                }
            }
            Event::Global {
                op,
                index,
                value,
                ..
            } => {
                let value = *value;
                match op {
                    VarOp::Get => {
                        let mark = self.global_mark(*index);
                        self.stack.push(Marked { value, mark })
                    }
                    VarOp::Set => {
                        let mark = self.stack.mark(0);
                        self.stack.pop(1);
                        self.globals[*index as usize] = Marked { value, mark };
                        Ok(())
                    }
                    VarOp::Tee => unreachable!(),
                }
            }
            Event::Load {
                op,
                offset,
                address,
                value,
                ..
            } => {
                let value = *value;
                let mark = self.read_mark(*op, *address, *offset);
                self.stack.replace(1, Marked { value, mark });
                Ok(())
            }
            Event::Store {
                op,
                offset,
                address,
                value,
                ..
            } => {
                let mark = self.stack.mark(0);
                self.store(*op, *address, *offset, *value, mark);
                self.stack.pop(2);
                Ok(())
            }
            Event::MemoryGrow { by, previous, .. } => {
                if *previous != u32::MAX {
                    self.grow(*by)?;
                }
                let value = Value::I32(*previous);
                self.stack.replace(1, Marked { value, mark: false });
                Ok(())
            }
            Event::Br { label, .. } => self.hold(*label as usize, 0),
            Event::BrIf { label, cond, .. } => {
                if *cond != 0 {
                    return self.hold_under(*label);
                }
                self.stack.pop(1);
                Ok(())
            }
            Event::BrTable { label, .. } => self.hold_under(*label),
            Event::Return { .. } => {
                let label = self.stack.outer_count();
                self.hold(label, 0)
            }
            Event::Begin { loc, kind } => match kind {
                BlockKind::Function => self.begin(loc.func),
                _ => self.open(*loc),
            },
            Event::End { .. } => self.end(),
            Event::CallPre { loc, callee, .. } => self.call(*loc, *callee),
            Event::IndirectPre {
                loc,
                ty,
                callee,
                ..
            } => self.call_slot(*loc, *ty, *callee),
            Event::CallPost { .. } => self.take_given(),
            Event::Stray { .. } => unreachable!(),
        }
    }
}
