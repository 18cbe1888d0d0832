// A run without its progress and its notes.

ghost use Rattle.std.specs.Prelude.{◌≡◌, ℕ, ◌+◌, ◌-◌, ◌<◌, ◌^◌, [], length, Some, None, Ok, slice_get, IfOk, MatchOption, OnErr};
ghost use Rattle.module_ast.specs.Structure.{code_of, before, plain, call, call_indirect};
ghost use Rattle.wasm_sem.specs.Execution.{hosts_in, hook_in, Callee, hook, host, own, callees_of, instance, IsScriptInRange, Links, Frame, traps, step, items};
ghost use Rattle.wasm_sem.specs.Laws.{slots_in};
ghost use Rattle.module_ast.specs.Validation.{declared_locals};
ghost use Rattle.wasm_run.specs.Running.{Run, configuration_of, HoldsIf, IsInside, Innermost};
ghost use Rattle.wasm_run.specs.Beside.{pages_in};
ghost use Rattle.run_stack.specs.Advances.{IsAtCall};
ghost use Rattle.wasm_run.specs.Entries.{EntersNext, EntersFunction};
ghost use Rattle.run_stack.specs.Leaving.{LeavesLast};
ghost use Rattle.wasm_run.specs.Moves.{MayWant, MakesStep, MakesCall};
ghost use Rattle.wasm_run.specs.Progress.{AwaitsAnswer, StepsInside};
ghost use Rattle.wasm_run.specs.Reaching.{IsAtSlot, Reaches, IsInvocation, IsHostCall, IsTarget};
ghost use Rattle.run_store.specs.Resolved.{callee_for, HasSize, IsSizeOf};
ghost use Rattle.wasm_run.specs.Noting.{host_items, noted_items, next_outside};

use crate::call::{call_own, enter_alone};
use crate::functions::{HostCall, Invocation, Target, index_count};
use crate::host::{answer, answer_entry, next_answer, return_numbers, values_of};
use crate::note::{HostNote, Note, host_note, noted_entry};
use crate::progress::Progress;
use module_ast::code::Instr;
use module_ast::module::{Body, FuncType, Module};
use run_stack::{Did, Stack, above_many, advance};
use run_store::globals::Globals;
use run_store::memory::Memory;
use run_store::table::Table;
use run_store::{
    Function, Size, functions_of, open_globals, open_memory, open_table, same_func_type,
};
use std::alloc::{AllocError, Global};
use std::marker::Model;
use wasm_num::NoMemory;
use wasm_sem::{Answer, HookCall, Script, Trap};
use wasm_valid::ValidModule;

/// A run of a module under a script, after `made` steps. Contracts see only these three: they determine everything
/// else.
pub(crate) struct Running<'m> {
    module: &'m Module,
    script: &'m Script,
    made: u64,
    stack: Stack<'m>,
    memory: Memory,
    globals: Globals,
    hosts: u64,
    functions: Vec<Function<'m>>,
    table: Table,
    alloc: Global,
}

// Dropped by hand: each early return past a value of this type then costs one proof step instead of one per field.
impl Drop for Running<'_> {
    fn drop(self) {
        let Running {
            module: _module,
            script: _script,
            made: _made,
            stack: _stack,
            memory: _memory,
            globals: _globals,
            hosts: _hosts,
            functions: _functions,
            table: _table,
            alloc: _alloc,
        } = self;
    }
}

impl<'m> Model for Running<'m> {
    ghost use Rattle.wasm_run.specs.Running.{Run};
    ghost use Rattle.wasm_run.specs.Beside.{KeepsRun};

    ghost Value = { Run };

    ghost use Rattle.module_ast.specs.contracts.module.Module as of_module;
    ghost use Rattle.std.specs.Coded.{codes};

    ghost coded = { Prim.hlevel (codes, of_module.the_row.coded) };

    ghost view = { λ a. record { «module» = a.module.now; script = a.script.now; made = a.made } };

    ghost invariant = { λ a. KeepsRun a.module.now a.script.now a.made a.stack a.memory a.globals a.hosts a.functions.items a.table };
}

impl<'m> Running<'m> {
    /// The run before its first step: its memory, with the data of its segments, its table, its globals and its
    /// functions. `NoMemory` if memory runs out. (Standard, 4.5.4)
    pub fn new(
        alloc: Global,
        valid: &'m ValidModule,
        script: &'m Script,
    ) -> Result<Running<'m>, NoMemory>
        requires range { IsScriptInRange script.now }
        requires links { Links valid.now script.now }
        ensures { IfOk result (λ r. r ≡ record { «module» = valid.now; script = script.now; made = 0 }) }
    {
        let module = valid.module();
        let globals = open_globals(alloc, module, script)?;
        let table = open_table(alloc, module, globals.as_slice())?;
        let memory = open_memory(alloc, module, script, globals.as_slice())?;
        let functions = functions_of(alloc, valid)?;
        Ok(Running {
            module,
            script,
            made: 0,
            stack: Stack::new(alloc),
            memory,
            globals: Globals::new(globals),
            hosts: 0,
            functions,
            table,
            alloc,
        })
    }

    /// Whether a function runs.
    pub fn is_inside(&self) -> bool
        ensures { HoldsIf result (IsInside (configuration_of self.now)) }
    {
        self.stack.frames() != 0
    }

    /// The script of the run.
    pub fn script(&self) -> &'m Script
        ensures { result.now ≡ self.now.script }
    {
        self.script
    }

    /// How many steps were made.
    pub fn made(&self) -> u64
        ensures { result ≡ self.now.made }
    {
        self.made
    }

    /// The table, which has no slots if the module has no table.
    pub fn table(&self) -> &Table
        ensures { result.now ≡ slots_in (configuration_of self.now) }
    {
        &self.table
    }

    /// How many pages the memory has; 0 if there is no memory.
    pub fn pages(&self) -> u32
        ensures { result ≡ pages_in (configuration_of self.now) }
    {
        self.memory.pages()
    }

    /// How many host calls were made. Hook calls are not counted.
    pub fn hosts(&self) -> u64
        ensures { result ≡ hosts_in (configuration_of self.now) }
    {
        self.hosts
    }

    /// Makes the next step of the innermost frame. If it leaves the last frame, or traps, `told` gets the answer.
    /// (Standard, 4.4)
    ///
    /// An `AllocError`, after which all is as before, comes only at a call, at a `memory.grow`, and if the last frame
    /// is left with more than four values. Whatever is large, such as an answer, is made in functions of its own, so
    /// that a step that goes on is quick.
    #[inline(always)]
    pub fn step_inside(&mut self, told: &mut Progress, calls: usize) -> Result<(), AllocError>
        requires inside { IsInside (configuration_of self.old) }
        requires few { self.old.made < 2 ^ 64 - 1 }
        requires awaits { AwaitsAnswer calls told.old }
        ensures { StepsInside calls result self.old self.new told.old told.new }
    {
        if let Some(above) = above_many(&self.stack) {
            return self.leave_last(above, told, calls);
        }
        match advance(
            &mut self.stack,
            &mut self.memory,
            &mut self.globals,
            self.module,
        )? {
            Did::Went => {
                self.made += 1;
                if self.stack.frames() == 0 {
                    told.returned(&self.stack, self.alloc, calls);
                }
            }
            Did::Trapped(trap) => {
                self.stack.clear();
                self.made += 1;
                told.trapped(trap, calls);
            }
            Did::Calls => {
                if let Some(trap) = self.call()? {
                    told.trapped(trap, calls);
                }
            }
        }
        Ok(())
    }

    // Makes a step that leaves the last frame with more than four values, which are below the topmost `above` operands.
    // The values are read first: if memory for them runs out, the step is not made.
    #[cold]
    #[inline(never)]
    fn leave_last(
        &mut self,
        above: usize,
        told: &mut Progress,
        calls: usize,
    ) -> Result<(), AllocError>
        requires few { self.old.made < 2 ^ 64 - 1 }
        requires leaves { LeavesLast above (configuration_of self.old) }
        requires awaits { AwaitsAnswer calls told.old }
        ensures { StepsInside calls result self.old self.new told.old told.new }
    {
        let count = self.stack.lowest_arity();
        let results = self.stack.values_below(self.alloc, count, above)?;
        self.stack.clear();
        self.made += 1;
        told.end(Answer::Returned(results), calls);
        Ok(())
    }

    /// The hook call that comes next, with its words; `None` if another step comes. `NoMemory` comes only at a call.
    pub fn hook_called(&self) -> Result<Option<HookCall>, NoMemory>
        requires { IsInside (configuration_of self.now) }
        ensures hook { IfOk result (λ h. h ≡ hook_in (items (instance self.now.module self.now.script) (configuration_of self.now))) }
        ensures err { OnErr result (MayWant (configuration_of self.now)) }
    {
        match self.target() {
            Target::NoCall => Ok(None),
            Target::Traps(_) => Ok(None),
            Target::Invokes(invocation) => self.hook_of(invocation),
        }
    }

    // The hook call that this call is, with its words; `None` if it calls another function.
    fn hook_of(&self, invocation: Invocation<'m>) -> Result<Option<HookCall>, NoMemory>
        requires { IsInvocation invocation self.now }
        ensures hook { IfOk result (λ h. h ≡ hook_in (items (instance self.now.module self.now.script) (configuration_of self.now))) }
    {
        let alloc = self.alloc;
        let Function::Hook(ty) = invocation.function else {
            return Ok(None);
        };
        let args = self
            .stack
            .values_below(alloc, ty.params.as_slice().len(), invocation.above())?;
        Ok(Some(HookCall {
            import: invocation.func,
            args,
        }))
    }

    /// Enters the function of this index for the start or the next call of the script, with the values that the numbers
    /// stand for. A host function and a hook end at once, with the answer. After an `Err` all is as before. (Standard,
    /// 4.5.5)
    pub fn enter(&mut self, func: u32, numbers: &[i128]) -> Result<Option<Answer>, AllocError>
        requires few { self.old.made < 2 ^ 64 - 1 }
        requires next { (called : Callee) × EntersNext (instance self.old.module self.old.script) (configuration_of self.old) func numbers.now called }
        ensures { MakesStep result self.old self.new }
    {
        match self.entered(func, numbers) {
            Function::Host(ty) => self.enter_host(ty),
            Function::Hook(ty) => self.enter_hook(ty),
            Function::Own(ty, body, size) => self.enter_first(ty, body, size, numbers),
        }
    }

    /// The hook call that is entered next, with its words; `None` if another function is entered.
    pub fn hook_entered(&self, func: u32, numbers: &[i128]) -> Result<Option<HookCall>, NoMemory>
        requires { (called : Callee) × EntersNext (instance self.now.module self.now.script) (configuration_of self.now) func numbers.now called }
        ensures hook { IfOk result (λ h. h ≡ hook_in (items (instance self.now.module self.now.script) (configuration_of self.now))) }
        ensures err { OnErr result (MayWant (configuration_of self.now)) }
    {
        let alloc = self.alloc;
        let Function::Hook(ty) = self.entered(func, numbers) else {
            return Ok(None);
        };
        let args = values_of(alloc, ty.params.as_slice(), numbers)?;
        Ok(Some(HookCall { import: func, args }))
    }

    // The function with this index, which is entered next. For the proof: `_numbers` are the numbers of that entry.
    fn entered(&self, func: u32, _numbers: &[i128]) -> Function<'m>
        requires { (called : Callee) × EntersNext (instance self.now.module self.now.script) (configuration_of self.now) func _numbers.now called }
        ensures next { EntersNext (instance self.now.module self.now.script) (configuration_of self.now) func _numbers.now (callee_for result) }
        ensures size { HasSize self.now.module result }
    {
        self.called(func)
    }

    // Enters a host function, which ends at once with the script's next answer.
    fn enter_host(&mut self, ty: &FuncType) -> Result<Option<Answer>, AllocError>
        requires few { self.old.made < 2 ^ 64 - 1 }
        requires next { EntersFunction (instance self.old.module self.old.script) (configuration_of self.old) (host ty.now) }
        ensures { MakesStep result self.old self.new }
    {
        let given = next_answer(self.script, self.hosts);
        let results = answer_entry(self.alloc, &mut self.memory, ty, given)?;
        self.hosts += 1;
        self.made += 1;
        Ok(Some(Answer::Returned(results)))
    }

    // Enters a hook, which ends at once with zeros.
    fn enter_hook(&mut self, ty: &FuncType) -> Result<Option<Answer>, AllocError>
        requires few { self.old.made < 2 ^ 64 - 1 }
        requires next { EntersFunction (instance self.old.module self.old.script) (configuration_of self.old) (hook ty.now) }
        ensures { MakesStep result self.old self.new }
    {
        let results = values_of(self.alloc, ty.results.as_slice(), &[])?;
        self.made += 1;
        Ok(Some(Answer::Returned(results)))
    }

    // Enters a function of the module as the first frame, which gets all the memory that it needs now.
    fn enter_first(
        &mut self,
        ty: &FuncType,
        body: &'m Body,
        size: Size,
        numbers: &[i128],
    ) -> Result<Option<Answer>, AllocError>
        requires few { self.old.made < 2 ^ 64 - 1 }
        requires next { (func : ℕ) × EntersNext (instance self.old.module self.old.script) (configuration_of self.old) func numbers.now (own ty.now (declared_locals body.now.groups) body.now.code) }
        requires size { IsSizeOf self.old.module ty.now body.now size.locals size.height size.nesting }
        requires height { size.locals + size.height < 2 ^ 63 }
        requires nesting { size.nesting < 2 ^ 63 }
        ensures { MakesStep result self.old self.new }
    {
        enter_alone(&mut self.stack, ty, body, size, numbers)?;
        self.made += 1;
        Ok(None)
    }

    // Where the next instruction leads.
    fn target(&self) -> Target<'m>
        requires { IsInside (configuration_of self.now) }
        ensures { IsTarget result self.now }
    {
        match self.stack.place() {
            [] => Target::NoCall,
            [instr, rest @ ..] => self.target_of(instr, rest),
        }
    }

    // Where an instruction leads; `rest` is the code behind it.
    fn target_of(&self, instr: &'m Instr, rest: &'m [Instr]) -> Target<'m>
        requires { Innermost (λ (fr : Frame). fr.top.rest ≡ before instr.now (code_of rest.now)) (configuration_of self.now) }
        ensures { IsTarget result self.now }
    {
        match instr {
            Instr::Call(func) => Target::Invokes(self.direct(*func, rest)),
            Instr::CallIndirect(ty) => self.through(*ty, rest),
            _ => Target::NoCall,
        }
    }

    // A call of the function with this index.
    fn direct(&self, func: u32, rest: &'m [Instr]) -> Invocation<'m>
        requires { Innermost (λ (fr : Frame). fr.top.rest ≡ plain (call func) (code_of rest.now)) (configuration_of self.now) }
        ensures { IsInvocation result self.now }
    {
        Invocation {
            func,
            function: self.functions[func as usize],
            rest,
            slot: None,
        }
    }

    // A call through the slot whose number is on top; its function must have the type of index `ty`.
    fn through(&self, ty: u32, rest: &'m [Instr]) -> Target<'m>
        requires { Innermost (λ (fr : Frame). fr.top.rest ≡ plain (call_indirect ty) (code_of rest.now)) (configuration_of self.now) }
        ensures { IsTarget result self.now }
    {
        let slot = self.stack.top_i32();
        match self.table.slot(slot) {
            None => Target::Traps(Trap::NoSlot),
            Some(None) => Target::Traps(Trap::EmptySlot),
            Some(Some(func)) => self.in_slot(slot, func, ty, rest),
        }
    }

    // A call of the function that is in the slot.
    fn in_slot(&self, slot: u32, func: u32, ty: u32, rest: &'m [Instr]) -> Target<'m>
        requires at { Innermost (IsAtSlot ty (code_of rest.now) slot) (configuration_of self.now) }
        requires there { slice_get (slots_in (configuration_of self.now)) slot ≡ Some (Some func) }
        ensures { IsTarget result self.now }
    {
        let asked = &self.module.types.as_slice()[ty as usize];
        let function = self.called(func);
        if same_func_type(function.ty(), asked) {
            Target::Invokes(Invocation {
                func,
                function,
                rest,
                slot: Some(slot),
            })
        } else {
            Target::Traps(Trap::WrongType)
        }
    }

    fn called(&self, func: u32) -> Function<'m>
        requires { func < length (callees_of self.now.module) }
        ensures stands { slice_get (callees_of self.now.module) func ≡ Some (callee_for result) }
        ensures size { HasSize self.now.module result }
    {
        self.functions[func as usize]
    }

    // Makes the call that comes next; answers the trap, if it traps.
    #[inline(never)]
    fn call(&mut self) -> Result<Option<Trap>, AllocError>
        requires few { self.old.made < 2 ^ 64 - 1 }
        requires at { Innermost IsAtCall (configuration_of self.old) }
        ensures { MakesCall result self.old self.new }
    {
        match self.target() {
            Target::NoCall => unreachable!(),
            Target::Traps(trap) => Ok(self.trap(trap)),
            Target::Invokes(invocation) => self.invoke(invocation),
        }
    }

    // Makes a step that traps, which ends what ran.
    fn trap(&mut self, trap: Trap) -> Option<Trap>
        requires few { self.old.made < 2 ^ 64 - 1 }
        requires at { Innermost IsAtCall (configuration_of self.old) }
        requires traps { step (instance self.old.module self.old.script) (configuration_of self.old) ≡ traps trap }
        ensures { MakesCall (Ok result) self.old self.new }
    {
        self.stack.clear();
        self.made += 1;
        Some(trap)
    }

    // Makes a call: enters a function of the module, and answers any other at once. Traps if there are too many frames.
    fn invoke(&mut self, invocation: Invocation<'m>) -> Result<Option<Trap>, AllocError>
        requires few { self.old.made < 2 ^ 64 - 1 }
        requires calls { IsInvocation invocation self.old }
        ensures { MakesCall result self.old self.new }
    {
        match invocation.function {
            Function::Host(ty) => {
                self.call_host(invocation.rest, invocation.slot, ty);
                Ok(None)
            }
            Function::Hook(ty) => {
                self.call_hook(invocation.rest, invocation.slot, ty);
                Ok(None)
            }
            Function::Own(ty, body, size) => {
                self.enter_own(invocation.rest, invocation.slot, ty, body, size)
            }
        }
    }

    // Makes a call of a function of the module; `rest` is the code behind the call. Traps if there are too many frames.
    // The frame gets all the memory that it needs now. (Standard, 4.4.7)
    fn enter_own(
        &mut self,
        rest: &'m [Instr],
        slot: Option<u32>,
        ty: &FuncType,
        body: &'m Body,
        size: Size,
    ) -> Result<Option<Trap>, AllocError>
        requires few { self.old.made < 2 ^ 64 - 1 }
        requires calls { (f : ℕ) × Reaches (instance self.old.module self.old.script) (configuration_of self.old) slot f (code_of rest.now) (own ty.now (declared_locals body.now.groups) body.now.code) }
        requires size { IsSizeOf self.old.module ty.now body.now size.locals size.height size.nesting }
        requires height { size.locals + size.height < 2 ^ 63 }
        requires nesting { size.nesting < 2 ^ 63 }
        ensures { MakesCall result self.old self.new }
    {
        let place = self.stack.place();
        self.stack.step_behind(rest, slot);
        match call_own(&mut self.stack, self.script.depth as usize, ty, body, size) {
            Ok(None) => {
                self.made += 1;
                Ok(None)
            }
            Ok(Some(trap)) => {
                self.stack.clear();
                self.made += 1;
                Ok(Some(trap))
            }
            Err(error) => {
                self.stack.step_back(place, slot);
                Err(error)
            }
        }
    }

    // Makes a call of a hook, which is answered with zeros and changes nothing else.
    #[inline(never)]
    fn call_hook(&mut self, rest: &'m [Instr], slot: Option<u32>, ty: &FuncType)
        requires few { self.old.made < 2 ^ 64 - 1 }
        requires calls { (f : ℕ) × Reaches (instance self.old.module self.old.script) (configuration_of self.old) slot f (code_of rest.now) (hook ty.now) }
        ensures { MakesStep (Ok None) self.old self.new }
    {
        self.stack.step_behind(rest, slot);
        return_numbers(&mut self.stack, ty, &[]);
        self.made += 1;
    }

    /// Makes a call of a host function: answers it with the script's next answer, or with zeros if there is none left.
    /// (Standard, 4.4.7)
    #[inline(never)]
    pub fn call_host(&mut self, rest: &'m [Instr], slot: Option<u32>, ty: &FuncType)
        requires few { self.old.made < 2 ^ 64 - 1 }
        requires calls { (f : ℕ) × Reaches (instance self.old.module self.old.script) (configuration_of self.old) slot f (code_of rest.now) (host ty.now) }
        ensures { MakesStep (Ok None) self.old self.new }
    {
        let given = next_answer(self.script, self.hosts);
        self.stack.step_behind(rest, slot);
        answer(&mut self.stack, &mut self.memory, ty, given);
        self.hosts += 1;
        self.made += 1;
    }

    /// The call of a host function that comes next; `None` if another step comes.
    pub fn host_called(&self) -> Option<HostCall<'m>>
        requires { IsInside (configuration_of self.now) }
        ensures { MatchOption result (next_outside self.now ≡ []) (λ call. IsHostCall call self.now) }
    {
        let Target::Invokes(invocation) = self.target() else {
            return None;
        };
        let Function::Host(ty) = invocation.function else {
            return None;
        };
        Some(HostCall {
            func: invocation.func,
            rest: invocation.rest,
            slot: invocation.slot,
            ty,
        })
    }

    /// The note of the call of a host function that comes next.
    pub fn host_note(&self, call: HostCall<'m>) -> Result<HostNote, NoMemory>
        requires { IsHostCall call self.now }
        ensures note { IfOk result (λ n. host_items (Some n) ≡ next_outside self.now) }
        ensures err { OnErr result (MayWant (configuration_of self.now)) }
    {
        let given = next_answer(self.script, self.hosts);
        let count = call.ty.params.as_slice().len();
        let args = self
            .stack
            .values_below(self.alloc, count, index_count(call.slot))?;
        host_note(self.alloc, &self.memory, call.func, args, call.ty, given)
    }

    /// The note of what is entered next; if that is a host function, with its host call.
    pub fn entry_note(&self, func: u32, numbers: &[i128]) -> Result<Note, NoMemory>
        requires { (called : Callee) × EntersNext (instance self.now.module self.now.script) (configuration_of self.now) func numbers.now called }
        ensures note { IfOk result (λ n. noted_items n ≡ next_outside self.now) }
        ensures err { OnErr result (MayWant (configuration_of self.now)) }
    {
        let function = self.entered(func, numbers);
        let entered = noted_entry(self.alloc, func, function.ty(), numbers)?;
        let Function::Host(ty) = function else {
            return Ok(Note {
                entered: Some(entered),
                host: None,
            });
        };
        let args = values_of(self.alloc, ty.params.as_slice(), numbers)?;
        let given = next_answer(self.script, self.hosts);
        let host = host_note(self.alloc, &self.memory, func, args, ty, given)?;
        Ok(Note {
            entered: Some(entered),
            host: Some(host),
        })
    }
}
