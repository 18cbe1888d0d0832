// The index spaces of a module as a table, imports first.

ghost use Rattle.std.specs.Prelude.{◌≡◌, ◌≤◌, ◌+◌, length, IfOk};
ghost use Rattle.module_ast.specs.Structure.Spaces.{funcs_of, globals_of, imported_counts, space_counts, count_in};

use crate::module::{ExportKind, FuncType, GlobalType, Import, Item, Module};
use std::alloc::Global;
use std::marker::Model;
use wasm_num::NoMemory;

/// How many entries each index space has. (Standard, 2.5.1)
#[derive(Clone, Copy)]
pub struct Counts {
    pub funcs: usize,
    pub tables: usize,
    pub memories: usize,
    pub globals: usize,
}

impl Counts {
    /// The counts of what is imported. Walks the imports.
    pub fn of_imports(imports: &[Import]) -> Counts
        ensures is { result ≡ imported_counts imports.now }
        ensures few { result.funcs + result.tables + result.memories + result.globals ≤ length imports.now }
    {
        let (mut funcs, mut tables, mut memories, mut globals) = (0, 0, 0, 0);
        for import in imports {
            match import.item {
                Item::Func(_) => funcs += 1,
                Item::Table(_) => tables += 1,
                Item::Memory(_) => memories += 1,
                Item::Global(_) => globals += 1,
            }
        }
        Counts {
            funcs,
            tables,
            memories,
            globals,
        }
    }

    /// The counts of a module, imports included. Walks the imports.
    pub fn of(m: &Module) -> Counts
        ensures { result ≡ space_counts m.now }
    {
        let imported = Counts::of_imports(m.imports.as_slice());
        Counts {
            funcs: imported.funcs + m.funcs.as_slice().len(),
            tables: imported.tables + m.tables.as_slice().len(),
            memories: imported.memories + m.memories.as_slice().len(),
            globals: imported.globals + m.globals.as_slice().len(),
        }
    }

    /// How many entries the index space of this kind of export has. (Standard, 2.5.10)
    pub fn of_kind(&self, kind: ExportKind) -> usize
        ensures { result ≡ count_in self.now kind }
    {
        match kind {
            ExportKind::Func => self.funcs,
            ExportKind::Table => self.tables,
            ExportKind::Memory => self.memories,
            ExportKind::Global => self.globals,
        }
    }
}

/// The index spaces of a module, imports first, made once so that each look-up takes constant time. (Standard, 2.5.1)
#[derive(Drop)]
pub struct Spaces {
    funcs: Vec<u32>,
    globals: Vec<GlobalType>,
    imported: Counts,
    counts: Counts,
}

impl Model for Spaces {
    ghost use Rattle.std.specs.Prelude.{◌≤◌, length};
    ghost use Rattle.module_ast.specs.Structure.Spaces.{SpaceTable};

    ghost Value = { SpaceTable };

    ghost view = { λ a. record { funcs = a.funcs.items; globals = a.globals.items; imported = a.imported; counts = a.counts } };

    ghost invariant = { λ a. a.imported.globals ≤ length a.globals.items };
}

impl Spaces {
    ghost use Rattle.std.specs.Prelude.{slice_get, take, MatchOption, None, Some};
    ghost use Rattle.module_ast.specs.Structure.Spaces.{spaces_of};
    ghost use Rattle.module_ast.specs.Validation.Validity.{func_type};

    /// The spaces of a module. Walks its imports, functions and globals. `NoMemory` if memory runs out.
    pub fn new(alloc: Global, m: &Module) -> Result<Spaces, NoMemory>
        ensures { IfOk result (λ s. s ≡ spaces_of m.now) }
    {
        Ok(Spaces {
            funcs: func_types(alloc, m)?,
            globals: global_types(alloc, m)?,
            imported: Counts::of_imports(m.imports.as_slice()),
            counts: Counts::of(m),
        })
    }

    /// How many entries each space has.
    pub fn counts(&self) -> Counts
        ensures { result ≡ self.now.counts }
    {
        self.counts
    }

    /// How many entries of each space are imported. They are the first ones.
    pub fn imported(&self) -> Counts
        ensures { result ≡ self.now.imported }
    {
        self.imported
    }

    /// The index of the type of a function; `None` if there is no such function.
    pub fn func(&self, index: u32) -> Option<u32>
        ensures { result ≡ slice_get self.now.funcs index }
    {
        self.funcs.as_slice().get(index as usize).copied()
    }

    /// The type of a function of `m`, the module of these spaces: the same as `Module::func_type`, but in constant
    /// time.
    pub fn func_type<'m>(&self, m: &'m Module, func: u32) -> Option<&'m FuncType>
        requires { self.now ≡ spaces_of m.now }
        ensures { MatchOption result (func_type m.now func ≡ None) (λ t. func_type m.now func ≡ Some t.now) }
    {
        let ty = self.func(func)?;
        m.types.as_slice().get(ty as usize)
    }

    /// The type of a global; `None` if there is no such global.
    pub fn global(&self, index: u32) -> Option<GlobalType>
        ensures { result ≡ slice_get self.now.globals index }
    {
        self.globals.as_slice().get(index as usize).copied()
    }

    /// The types of all globals, imported ones first.
    pub fn globals(&self) -> &[GlobalType]
        ensures { result.now ≡ self.now.globals }
    {
        &self.globals
    }

    /// The types of the imported globals.
    pub fn imported_globals(&self) -> &[GlobalType]
        ensures { result.now ≡ take self.now.imported.globals self.now.globals }
    {
        &self.globals[..self.imported.globals]
    }
}

// The type index of each function, imports first.
fn func_types(alloc: Global, m: &Module) -> Result<Vec<u32>, NoMemory>
    ensures { IfOk result (λ v. v.items ≡ funcs_of m.now) }
{
    let mut types = Vec::new(alloc);
    for import in m.imports.as_slice() {
        if let Item::Func(ty) = import.item {
            types.push(ty)?;
        }
    }
    types.extend_from_slice(m.funcs.as_slice())?;
    Ok(types)
}

// The type of each global, imports first.
fn global_types(alloc: Global, m: &Module) -> Result<Vec<GlobalType>, NoMemory>
    ensures { IfOk result (λ v. v.items ≡ globals_of m.now) }
{
    let mut types = Vec::new(alloc);
    for import in m.imports.as_slice() {
        if let Item::Global(ty) = import.item {
            types.push(ty)?;
        }
    }
    for global in m.globals.as_slice() {
        types.push(global.ty)?;
    }
    Ok(types)
}
