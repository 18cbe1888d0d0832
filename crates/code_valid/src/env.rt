// The context of a body: what its instructions can name.

ghost use Rattle.std.specs.Prelude.{◌≡◌, ◌<◌, [], length, slice_get, Some, None, IfOk, MatchOption};
ghost use Rattle.module_ast.specs.Validation.{IsWhole, KeepsRules};
ghost use Rattle.code_valid.specs.Bodies.{IsContextOf};
ghost use Rattle.module_ast.specs.Structure.{funcs_of, tables_of, memories_of, globals_of, spaces_of};
ghost use Rattle.code_valid.specs.Checking.{is_some_list};

use crate::locals::Locals;
use module_ast::module::{FuncType, GlobalType, Module};
use module_ast::spaces::Spaces;
use std::alloc::Global;
use std::marker::Model;
use wasm_num::{NoMemory, ValType};

/// What the instructions of a body can name, apart from the blocks around them. A local is looked up in time
/// logarithmic in the number of parameters and groups of locals, everything else in constant time. (Standard, 3.1.1)
#[derive(Drop)]
pub struct Env<'m> {
    m: &'m Module,
    spaces: &'m Spaces,
    locals: Locals,
    results: &'m [ValType],
}

impl<'m> Model for Env<'m> {
    ghost use Rattle.std.specs.Prelude.{◌≡◌, []};
    ghost use Rattle.module_ast.specs.Structure.{funcs_of, tables_of, memories_of, globals_of, spaces_of};
    ghost use Rattle.module_ast.specs.Validation.{Context};

    ghost Value = { Context };

    ghost view = { λ a.
        record {
          types = a.m.now.types;
          funcs = funcs_of a.m.now;
          tables = tables_of a.m.now;
          memories = memories_of a.m.now;
          globals = globals_of a.m.now;
          locals = a.locals;
          labels = [];
          results = a.results.now;
        } };

    ghost invariant = { λ a. a.spaces.now ≡ spaces_of a.m.now };
}

impl<'m> Env<'m> {
    /// The context of a body of `m`, whose spaces are `spaces`, with these locals and results.
    pub(crate) fn new(
        m: &'m Module,
        spaces: &'m Spaces,
        locals: Locals,
        results: &'m [ValType],
    ) -> Env<'m>
        requires { spaces.now ≡ spaces_of m.now }
        ensures { result ≡ record { types = m.now.types; funcs = funcs_of m.now; tables = tables_of m.now; memories = memories_of m.now; globals = globals_of m.now; locals = locals; labels = []; results = results.now } }
    {
        Env {
            m,
            spaces,
            locals,
            results,
        }
    }

    /// The context of the body of a defined function, over the index spaces of its module. Takes time in proportion to
    /// the parameters and the groups of locals. `NoMemory` if memory runs out.
    pub fn of_body(
        alloc: Global,
        m: &'m Module,
        spaces: &'m Spaces,
        defined: u32,
    ) -> Result<Env<'m>, NoMemory>
        requires body { defined < length m.now.bodies }
        requires func { defined < length m.now.funcs }
        requires whole { IsWhole m.now }
        requires rules { KeepsRules m.now }
        requires spaces { spaces.now ≡ spaces_of m.now }
        ensures { IfOk result (IsContextOf m.now defined) }
    {
        let index = m.funcs.as_slice()[defined as usize];
        let ty = &m.types.as_slice()[index as usize];
        let body = &m.bodies.as_slice()[defined as usize];
        let locals = Locals::new(alloc, ty.params.as_slice(), body.groups.as_slice())?;
        Ok(Env::new(m, spaces, locals, ty.results.as_slice()))
    }

    /// The types of the function's results.
    pub fn results(&self) -> &'m [ValType]
        ensures { result.now ≡ self.now.results }
    {
        self.results
    }

    /// How many locals there are, parameters included.
    pub fn local_count(&self) -> u64
        ensures { result ≡ length self.now.locals }
    {
        self.locals.count()
    }

    /// The type of a local; `None` if there is no such local.
    pub fn local(&self, index: u32) -> Option<ValType>
        ensures { result ≡ slice_get self.now.locals index }
    {
        self.locals.get(index)
    }

    /// The type of a global; `None` if there is no such global.
    pub fn global(&self, index: u32) -> Option<GlobalType>
        ensures { result ≡ slice_get self.now.globals index }
    {
        self.spaces.global(index)
    }

    /// The index of a function's type; `None` if there is no such function.
    pub fn func(&self, index: u32) -> Option<u32>
        ensures { result ≡ slice_get self.now.funcs index }
    {
        self.spaces.func(index)
    }

    /// The function type at this index; `None` if there is no such type.
    pub fn func_type(&self, index: u32) -> Option<&'m FuncType>
        ensures { MatchOption result (slice_get self.now.types index ≡ None) (λ t. slice_get self.now.types index ≡ Some t.now) }
    {
        self.m.types.as_slice().get(index as usize)
    }

    /// Whether there is a table.
    #[tactic(auto, using(crate::proofs::Spaced::some_list))]
    pub fn has_table(&self) -> bool
        ensures { result ≡ is_some_list self.now.tables }
    {
        self.spaces.counts().tables > 0
    }

    /// Whether there is a memory.
    #[tactic(auto, using(crate::proofs::Spaced::some_list))]
    pub fn has_memory(&self) -> bool
        ensures { result ≡ is_some_list self.now.memories }
    {
        self.spaces.counts().memories > 0
    }
}
