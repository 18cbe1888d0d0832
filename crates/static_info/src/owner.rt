// Whether information belongs to a module.

ghost use Rattle.std.specs.Prelude.{◌≡◌, ◌↔◌, ◌∷◌, List, IfOk, IsTrue, slice_get, Some};
ghost use Rattle.hook_mono.specs.Names.{name_of};
ghost use Rattle.hook_mono.specs.Words.{hook_type};
ghost use Rattle.static_info.specs.Belongs.{FuncImport, IsHook, Belongs};
ghost use Rattle.static_info.specs.Following.{HooksFollow};

use crate::Info;
use hook_mono::{HOOK_MODULE, HookKey, name_of, type_of};
use module_ast::module::{FuncType, Import, Item, Module};
use std::alloc::Global;
use wasm_num::{NoMemory, ValType};

// Whether two lists of types are the same.
fn same_types(left: &[ValType], right: &[ValType]) -> bool
    ensures { IsTrue result ↔ (left.now ≡ right.now) }
{
    left == right
}

// Whether the two function types are the same.
fn same_func_type(left: &FuncType, right: &FuncType) -> bool
    ensures { IsTrue result ↔ (left.now ≡ right.now) }
{
    same_types(left.params.as_slice(), right.params.as_slice())
        && same_types(left.results.as_slice(), right.results.as_slice())
}

// Whether the two texts are the same.
fn same_text(left: &str, right: &str) -> bool
    ensures { IsTrue result ↔ (left.now ≡ right.now) }
{
    left == right
}

// Whether the import has the name of the key's hook.
fn is_named(alloc: Global, import: &Import, key: &HookKey) -> Result<bool, NoMemory>
    ensures { IfOk result (λ is. IsTrue is ↔ (import.now.name.bytes ≡ name_of key.now)) }
{
    let name = name_of(alloc, key)?;
    Ok(same_text(import.name.as_str(), name.as_str()))
}

// Whether the module has a type of this index, and it is the type of the key's hook.
fn is_typed(alloc: Global, m: &Module, index: u32, key: &HookKey) -> Result<bool, NoMemory>
    ensures { IfOk result (λ is. IsTrue is ↔ (slice_get m.now.types index ≡ Some (hook_type key.now))) }
{
    let ty = type_of(alloc, key)?;
    match m.types.as_slice().get(index as usize) {
        Some(found) => Ok(same_func_type(found, &ty)),
        None => Ok(false),
    }
}

// Whether the import of a function whose type has this index is the hook of the key.
fn is_hook(
    alloc: Global,
    m: &Module,
    import: &Import,
    index: u32,
    key: &HookKey,
) -> Result<bool, NoMemory>
    ensures { IfOk result (λ is. IsTrue is
        ↔ IsHook m.now (record { from = import.now.module; name = import.now.name; ty = index }) key.now) }
{
    if !same_text(import.module.as_str(), HOOK_MODULE) {
        return Ok(false);
    }
    if !is_named(alloc, import, key)? {
        return Ok(false);
    }
    is_typed(alloc, m, index, key)
}

// What the function imports that are still to come must be: `own` functions of other modules, and then these hooks.
#[derive(Drop)]
struct Following<'i> {
    own: u32,
    hooks: &'i [HookKey],
}

impl<'i> Following<'i> {
    // Takes the next function import, whose type has this index, and says whether it is what must come next.
    fn follows(
        &mut self,
        alloc: Global,
        m: &Module,
        import: &Import,
        index: u32,
    ) -> Result<bool, NoMemory>
        ensures { IfOk result (λ is. (later : List FuncImport)
            → HooksFollow m.now self.old.own self.old.hooks.now (record { from = import.now.module; name = import.now.name; ty = index } ∷ later)
            ↔ (IsTrue is × HooksFollow m.now self.new.own self.new.hooks.now later)) }
    {
        if self.own > 0 {
            self.own -= 1;
            return Ok(!same_text(import.module.as_str(), HOOK_MODULE));
        }
        if self.hooks.is_empty() {
            return Ok(false);
        }
        let key = &self.hooks[0];
        self.hooks = &self.hooks[1..];
        is_hook(alloc, m, import, index, key)
    }
}

/// Whether the information belongs to the module: the module imports as many functions of other modules as the information
/// says, and then exactly the hooks of the information in their order, each with its name and type. The hook calls of such a
/// module are read with this information. Goes over the imports once. An `Err` comes only if memory runs out for a name.
pub fn belongs(alloc: Global, info: &Info, m: &Module) -> Result<bool, NoMemory>
    ensures { IfOk result (λ answer. IsTrue answer ↔ Belongs info.now m.now) }
{
    let mut following = Following {
        own: info.imports,
        hooks: info.hooks.as_slice(),
    };
    for import in m.imports.as_slice() {
        if let Item::Func(index) = import.item {
            if !following.follows(alloc, m, import, index)? {
                return Ok(false);
            }
        }
    }
    Ok(following.own == 0 && following.hooks.is_empty())
}
