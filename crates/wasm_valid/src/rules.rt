// The rules on types, on indices and on the start function. Each function `keeps_..` decides one rule exactly.

ghost use Rattle.std.specs.Prelude.{◌≡◌, ◌↔◌, ◌<◌, [], IsTrue, All};
ghost use Rattle.module_ast.specs.Validation.{Keeps, import_types, function_types, export_indices, start_index, start_type, element_tables, element_funcs, segment_memories};
ghost use Rattle.module_ast.specs.Structure.{space_counts, spaces_of};
ghost use Rattle.wasm_valid.specs.Imported.{IfFunc};

use module_ast::module::{Element, FuncType, Import, Item, Module};
use module_ast::spaces::{Counts, Spaces};

// Whether the type of an import, if the import is a function, is one of the first `types` types.
fn names_type(import: &Import, types: usize) -> bool
    ensures { IsTrue result ↔ IfFunc import.now.item (λ ty. ty < types) }
{
    match import.item {
        Item::Func(ty) => (ty as usize) < types,
        _ => true,
    }
}

// Whether the type of each import that is a function is one of the first `types` types.
fn name_types(imports: &[Import], types: usize) -> bool
    ensures { IsTrue result ↔ All (λ i. IfFunc i.item (λ ty. ty < types)) imports.now }
{
    imports.iter().all(|i| names_type(i, types))
}

/// Whether each imported function names a type of the module. (Standard, 3.4.9)
pub(crate) fn keeps_import_types(m: &Module) -> bool
    ensures { IsTrue result ↔ Keeps m.now import_types }
{
    name_types(m.imports.as_slice(), m.types.as_slice().len())
}

/// Whether each defined function names a type of the module. (Standard, 3.4.1)
pub(crate) fn keeps_function_types(m: &Module) -> bool
    ensures { IsTrue result ↔ Keeps m.now function_types }
{
    let types = m.types.as_slice().len();
    m.funcs.as_slice().iter().all(|ty| (*ty as usize) < types)
}

/// Whether each export names an entry of its index space. (Standard, 3.4.8)
pub(crate) fn keeps_export_indices(m: &Module, counts: &Counts) -> bool
    requires { counts.now ≡ space_counts m.now }
    ensures { IsTrue result ↔ Keeps m.now export_indices }
{
    let exports = m.exports.as_slice();
    exports
        .iter()
        .all(|e| (e.index as usize) < counts.of_kind(e.kind))
}

/// Whether the start function, if there is one, exists. (Standard, 3.4.7)
pub(crate) fn keeps_start_index(m: &Module, counts: &Counts) -> bool
    requires { counts.now ≡ space_counts m.now }
    ensures { IsTrue result ↔ Keeps m.now start_index }
{
    match m.start {
        Some(func) => (func as usize) < counts.funcs,
        None => true,
    }
}

// Whether a function type has neither parameters nor results.
fn is_bare(ty: &FuncType) -> bool
    ensures { IsTrue result ↔ (ty.now ≡ record { params = []; results = [] }) }
{
    ty.params.as_slice().is_empty() && ty.results.as_slice().is_empty()
}

/// Whether the start function, if there is one, has neither parameters nor results. (Standard, 3.4.7)
pub(crate) fn keeps_start_type(m: &Module, spaces: &Spaces) -> bool
    requires { spaces.now ≡ spaces_of m.now }
    ensures { IsTrue result ↔ Keeps m.now start_type }
{
    let Some(func) = m.start else {
        return true;
    };
    match spaces.func_type(m, func) {
        Some(ty) => is_bare(ty),
        None => false,
    }
}

/// Whether the table of each element segment exists. (Standard, 3.4.5)
pub(crate) fn keeps_element_tables(m: &Module, counts: &Counts) -> bool
    requires { counts.now ≡ space_counts m.now }
    ensures { IsTrue result ↔ Keeps m.now element_tables }
{
    let elements = m.elements.as_slice();
    elements.iter().all(|e| (e.table as usize) < counts.tables)
}

// Whether each function of an element segment is one of the first `funcs` functions.
fn name_funcs(element: &Element, funcs: usize) -> bool
    ensures { IsTrue result ↔ All (λ f. f < funcs) element.now.funcs }
{
    element
        .funcs
        .as_slice()
        .iter()
        .all(|f| (*f as usize) < funcs)
}

/// Whether each function of each element segment exists. (Standard, 3.4.5)
pub(crate) fn keeps_element_funcs(m: &Module, counts: &Counts) -> bool
    requires { counts.now ≡ space_counts m.now }
    ensures { IsTrue result ↔ Keeps m.now element_funcs }
{
    let elements = m.elements.as_slice();
    elements.iter().all(|e| name_funcs(e, counts.funcs))
}

/// Whether the memory of each data segment exists. (Standard, 3.4.6)
pub(crate) fn keeps_segment_memories(m: &Module, counts: &Counts) -> bool
    requires { counts.now ≡ space_counts m.now }
    ensures { IsTrue result ↔ Keeps m.now segment_memories }
{
    let segments = m.segments.as_slice();
    segments
        .iter()
        .all(|d| (d.memory as usize) < counts.memories)
}
