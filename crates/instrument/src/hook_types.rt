// The types of hooks.

ghost use Rattle.std.specs.Prelude.{◌≡◌, IfOk};
ghost use Rattle.instrument.specs.Output.{hook_types, find_type};

use hook_mono::{HookKey, type_of};
use indexmap::IndexSet;
use module_ast::module::FuncType;
use std::alloc::Global;
use std::marker::Model;
use wasm_num::NoMemory;

/// The types of hooks, each once, in the order of first need. Contracts see a list. No two of these types have equally many
/// parameters, so a type is found by this number, in time that does not grow with the number of types.
pub(crate) struct HookTypes {
    types: Vec<FuncType>,
    lengths: IndexSet<usize>,
}

// Dropped by hand: each early return past a value of this type then costs one proof step instead of one per field.
impl Drop for HookTypes {
    fn drop(self) {
        let HookTypes {
            types: _types,
            lengths: _lengths,
        } = self;
    }
}

impl Model for HookTypes {
    ghost use Rattle.std.specs.Prelude.{◌≡◌, List, length, map};
    ghost use Rattle.wasm_sem.specs.Types.{FuncType as shown};

    ghost Value = { List shown };

    ghost view = { λ a. a.types.items };

    ghost invariant = { λ a. a.lengths.keys ≡ map (λ (t : shown). length t.params) a.types.items };
}

impl HookTypes {
    /// The types of the hooks of these keys. An `Err` comes only if memory runs out.
    pub(crate) fn of(alloc: Global, keys: &[HookKey]) -> Result<HookTypes, NoMemory>
        ensures { IfOk result (λ types. types ≡ hook_types keys.now) }
    {
        let mut types = Vec::new(alloc);
        let mut lengths = IndexSet::new(alloc);
        for key in keys {
            let ty = type_of(alloc, key)?;
            let (_, is_new) = lengths.insert_full(ty.params.as_slice().len())?;
            if is_new {
                types.push(ty)?;
            }
        }
        Ok(HookTypes { types, lengths })
    }

    /// The place of a hook's type among these types, from 0; `None` if it is not one of them.
    pub(crate) fn find(&self, ty: &FuncType) -> Option<usize>
        ensures { result ≡ find_type self.now ty.now }
    {
        self.lengths.get_index_of(&ty.params.as_slice().len())
    }

    /// The types, in order.
    pub(crate) fn as_slice(&self) -> &[FuncType]
        ensures { result.now ≡ self.now }
    {
        &self.types
    }
}
