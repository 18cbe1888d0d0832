// The functions of a module, each resolved once.

ghost use Rattle.std.specs.Prelude.{◌≡◌, ◌+◌, ◌<◌, ◌^◌, ◌∷◌, [], ℕ, Some, All, IfOk, IfSome, MatchOption, length, map, slice_get};
ghost use Rattle.wasm_sem.specs.Types.{Module as valid_module, Body as function_body};
ghost use Rattle.module_ast.specs.Binary.{locals_of};
ghost use Rattle.wasm_sem.specs.Execution.{callee_type, item_callees, import_callees, own_callee, callees_of, is_hook, have_same_types, same_func_type};
ghost use Rattle.run_store.specs.Resolved.{callee_for, HasSize, AreFunctionsOf};

use hook_mono::HOOK_MODULE;
use module_ast::module::{Body, FuncType, Group, Import, Item, Module};
use module_ast::nesting;
use std::alloc::{AllocError, Global};
use wasm_num::{NoMemory, ValType};
use wasm_valid::ValidModule;

/// What a function's frame needs: the number of its declared locals, the greatest height of its body, and the nesting
/// of its code.
#[derive(Clone, Copy)]
pub struct Size {
    pub locals: usize,
    pub height: usize,
    pub nesting: usize,
}

/// A function of a module: an import that the script answers, a hook, or the module's own with what its frame needs.
/// (Standard, 4.2.6)
#[derive(Clone, Copy)]
pub enum Function<'m> {
    Host(&'m FuncType),
    Hook(&'m FuncType),
    Own(&'m FuncType, &'m Body, Size),
}

impl<'m> Function<'m> {
    /// The type of the function.
    pub fn ty(&self) -> &'m FuncType
        ensures { result.now ≡ callee_type (callee_for self.now) }
    {
        match self {
            Function::Host(ty) => ty,
            Function::Hook(ty) => ty,
            Function::Own(ty, _, _) => ty,
        }
    }
}

// Whether two lists of results, or of parameters, have the same types.
fn same_types(these: &[ValType], those: &[ValType]) -> bool
    ensures { result ≡ have_same_types these.now those.now }
{
    these == those
}

/// Whether two function types are the same. (Standard, 2.3.5)
pub fn same_func_type(this: &FuncType, that: &FuncType) -> bool
    ensures { result ≡ same_func_type this.now that.now }
{
    same_types(this.params.as_slice(), that.params.as_slice())
        && same_types(this.results.as_slice(), that.results.as_slice())
}

fn names_a_hook(import: &Import) -> bool
    ensures { result ≡ is_hook import.now }
{
    import.module.as_str() == HOOK_MODULE
}

fn count_locals(groups: &[Group]) -> usize
    requires { locals_of groups.now < 2 ^ 32 }
    ensures { result ≡ locals_of groups.now }
{
    let mut count = 0;
    for group in groups {
        count += group.count as usize;
    }
    count
}

// A function that the module defines. `NoMemory` if no memory could hold its frame.
fn own_function<'m>(valid: &'m ValidModule, defined: u32) -> Result<Function<'m>, NoMemory>
    requires { defined < length valid.now.bodies }
    ensures size { IfOk result (λ f. HasSize valid.now f) }
    ensures stands { IfOk result (λ f. (ty : ℕ) (b : function_body) → slice_get valid.now.funcs defined ≡ Some ty → slice_get valid.now.bodies defined ≡ Some b → own_callee (slice_get valid.now.types ty) b ≡ callee_for f ∷ []) }
{
    let module = valid.module();
    let typed = valid.typed(defined);
    let body = typed.body();
    let ty = &module.types.as_slice()[module.funcs.as_slice()[defined as usize] as usize];
    let Ok(height) = u32::try_from(typed.marks().height) else {
        return Err(AllocError);
    };
    let size = Size {
        locals: count_locals(body.groups.as_slice()),
        height: height as usize,
        nesting: nesting(&body.code) as usize,
    };
    Ok(Function::Own(ty, body, size))
}

// The function that an import names; `None` if the import is of another kind. (Standard, 2.5.11)
fn imported_function<'m>(types: &'m [FuncType], import: &Import) -> Option<Function<'m>>
    ensures stands { MatchOption result (item_callees types.now (is_hook import.now) import.now.item ≡ []) (λ f. item_callees types.now (is_hook import.now) import.now.item ≡ callee_for f ∷ []) }
    ensures size { IfSome result (λ f. (m : valid_module) → HasSize m f) }
{
    let Item::Func(index) = import.item else {
        return None;
    };
    let ty = types.get(index as usize)?;
    Some(if names_a_hook(import) {
        Function::Hook(ty)
    } else {
        Function::Host(ty)
    })
}

fn imported_functions<'m>(alloc: Global, m: &'m Module) -> Result<Vec<Function<'m>>, NoMemory>
    ensures stand { IfOk result (λ v. map callee_for v.items ≡ import_callees m.now.types m.now.imports) }
    ensures sizes { IfOk result (λ v. (n : valid_module) → All (HasSize n) v.items) }
{
    let mut functions = Vec::new(alloc);
    for import in m.imports.as_slice() {
        if let Some(function) = imported_function(m.types.as_slice(), import) {
            functions.push(function)?;
        }
    }
    Ok(functions)
}

/// The functions of a module by their indices, imports first. Walks the imports and the code of each body once.
/// `NoMemory` if memory for the list runs out, or if no memory could hold the frame of one of the functions.
pub fn functions_of<'m>(
    alloc: Global,
    valid: &'m ValidModule,
) -> Result<Vec<Function<'m>>, NoMemory>
    ensures { IfOk result (λ v. AreFunctionsOf valid.now v.items) }
{
    let mut functions = imported_functions(alloc, valid.module())?;
    for defined in 0..valid.module().bodies.as_slice().len() as u32 {
        functions.push(own_function(valid, defined)?)?;
    }
    Ok(functions)
}
