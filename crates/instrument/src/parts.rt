// Makes the parts of a module with hooks, outside its bodies, that differ from those of the original.

ghost use Rattle.std.specs.Prelude.{◌≡◌, ◌+◌, ◌^◌, ◌<◌, length, IfOk};
ghost use Rattle.instrument.specs.Output.{hook_types, hook_import, hook_imports, hook_module_text};
ghost use Rattle.instrument.specs.Parts.{parts_of};
ghost use Rattle.instrument.specs.Plan.{HookPlan as Planned, plan_keys, new_outline};

use crate::hook_types::HookTypes;
use crate::plan::HookPlan;
use hook_mono::{HOOK_MODULE, HookKey, name_of, type_of};
use module_ast::module::{Element, Export, Import, Item, Module};
use module_ast::name::Name;
use module_ast::seq::Seq;
use std::alloc::Global;
use wasm_encode::Outline;
use wasm_num::NoMemory;

/// The types and imports that come after those of the original, and the exports, the start function and the element segments
/// that replace those of the original.
pub(crate) struct Parts {
    pub(crate) types: HookTypes,
    pub(crate) imports: Seq<Import>,
    pub(crate) exports: Seq<Export>,
    pub(crate) start: Option<u32>,
    pub(crate) elements: Seq<Element>,
}

// Dropped by hand: each early return past a value of this type then costs one proof step instead of one per field.
impl Drop for Parts {
    fn drop(self) {
        let Parts {
            types: _types,
            imports: _imports,
            exports: _exports,
            start: _start,
            elements: _elements,
        } = self;
    }
}

// The name of the module that hooks are imported from.
fn hook_module(alloc: Global) -> Result<Name, NoMemory>
    ensures { IfOk result (λ name. name ≡ hook_module_text) }
{
    Ok(Name::from_string(String::from_str(alloc, HOOK_MODULE)?))
}

// The import of the hook of a key. `types` has the types of the hooks.
fn hook_import(
    alloc: Global,
    m: &Module,
    types: &HookTypes,
    key: &HookKey,
) -> Result<Import, NoMemory>
    requires { length m.now.types + length types.now < 2 ^ 32 }
    ensures { IfOk result (λ import. import ≡ hook_import m.now types.now key.now) }
{
    let ty = type_of(alloc, key)?;
    let place = types.find(&ty).unwrap_or(0);
    Ok(Import {
        module: hook_module(alloc)?,
        name: name_of(alloc, key)?,
        item: Item::Func((m.types.as_slice().len() + place) as u32),
    })
}

// The imports of the hooks of these keys.
fn hook_imports(
    alloc: Global,
    m: &Module,
    types: &HookTypes,
    keys: &[HookKey],
) -> Result<Seq<Import>, NoMemory>
    requires types { types.now ≡ hook_types keys.now }
    requires few { length m.now.types + length types.now < 2 ^ 32 }
    ensures { IfOk result (λ imports. imports ≡ hook_imports m.now keys.now) }
{
    let mut imports = Vec::with_capacity(alloc, keys.len())?;
    for key in keys {
        imports.push(hook_import(alloc, m, types, key)?)?;
    }
    Ok(Seq::from_vec(imports))
}

impl HookPlan<'_> {
    /// The parts of the output that differ. An `Err` comes only if memory runs out.
    pub(crate) fn parts(&self, alloc: Global) -> Result<Parts, NoMemory>
        ensures { IfOk result (λ parts. parts ≡ parts_of self.now) }
    {
        let m = self.module.module();
        let keys = self.table.as_slice();
        let types = HookTypes::of(alloc, keys)?;
        Ok(Parts {
            imports: hook_imports(alloc, m, &types, keys)?,
            types,
            exports: self.remap.map_exports(alloc, m.exports.as_slice())?,
            start: self.remap.map_start(m.start),
            elements: self.remap.map_elements(alloc, m.elements.as_slice())?,
        })
    }
}

impl Parts {
    /// The outline of the output: these parts, and all else borrowed from the original.
    pub(crate) fn outline<'p>(&'p self, m: &'p Module) -> Outline<'p>
        ensures { (plan : Planned) → m.now ≡ plan.module → self.now ≡ parts_of plan → result ≡ new_outline plan }
    {
        Outline {
            types: m.types.as_slice(),
            more_types: self.types.as_slice(),
            imports: m.imports.as_slice(),
            more_imports: self.imports.as_slice(),
            funcs: m.funcs.as_slice(),
            tables: m.tables.as_slice(),
            memories: m.memories.as_slice(),
            globals: m.globals.as_slice(),
            exports: self.exports.as_slice(),
            start: self.start,
            elements: self.elements.as_slice(),
            segments: m.segments.as_slice(),
        }
    }
}
