// Finds the first rule that a module breaks.

ghost use Rattle.std.specs.Prelude.{◌≡◌, ◌+◌, ◌≤◌, length, not, MatchOption, IfOk};
ghost use Rattle.std.specs.List.{position_from};
ghost use Rattle.module_ast.specs.Validation.{KeepsRules};
ghost use Rattle.module_ast.specs.Structure.{spaces_of};
ghost use Rattle.wasm_valid.specs.Broken.{KeepsBelow, BreaksFirst};

use crate::constants::{
    keeps_element_offsets, keeps_init_constant, keeps_init_global, keeps_init_type,
    keeps_segment_offsets,
};
use crate::limits::{
    keeps_memory_limits, keeps_memory_pages, keeps_one_memory, keeps_one_table, keeps_table_limits,
};
use crate::names::keeps_export_names;
use crate::rules::{
    keeps_element_funcs, keeps_element_tables, keeps_export_indices, keeps_function_types,
    keeps_import_types, keeps_segment_memories, keeps_start_index, keeps_start_type,
};
use module_ast::module::Module;
use module_ast::spaces::{Counts, Spaces};
use std::alloc::Global;
use wasm_num::NoMemory;

// The number of the first rule that is not kept; `None` if all are kept. `kept` says of each rule in order whether it is kept,
// and `first` is the number of the first one.
fn first_not_kept(kept: &[bool], first: u8) -> Option<u8>
    requires { first + length kept.now ≤ 255 }
    ensures { result ≡ position_from not first kept.now }
{
    let mut rule = first;
    for keeps in kept {
        if !*keeps {
            return Some(rule);
        }
        rule += 1;
    }
    None
}

/// The number of the first of rules 2 to 9, in their order, that a module breaks; `None` if it keeps them. Takes no memory.
pub(crate) fn first_of_eight(m: &Module) -> Option<u8>
    ensures { MatchOption result (KeepsBelow m.now 10) (BreaksFirst m.now) }
{
    let counts = Counts::of(m);
    let kept = [
        keeps_import_types(m),
        keeps_function_types(m),
        keeps_one_table(m, &counts),
        keeps_one_memory(m, &counts),
        keeps_table_limits(m),
        keeps_memory_pages(m),
        keeps_memory_limits(m),
        keeps_init_constant(m),
    ];
    first_not_kept(&kept, 2)
}

/// The number of the first of the other rules, 10 to 20, that a module breaks; `None` if it keeps all rules. The module must
/// keep rules 2 to 9.
///
/// `NoMemory` if memory runs out.
pub(crate) fn first_of_others(
    alloc: Global,
    m: &Module,
    spaces: &Spaces,
) -> Result<Option<u8>, NoMemory>
    requires spaces { spaces.now ≡ spaces_of m.now }
    requires eight { KeepsBelow m.now 10 }
    ensures { IfOk result (λ o. MatchOption o (KeepsRules m.now) (BreaksFirst m.now)) }
{
    let counts = spaces.counts();
    let imported = spaces.imported_globals();
    let globals = spaces.globals();
    let kept = [
        keeps_init_global(m, imported),
        keeps_init_type(m, imported),
        keeps_export_indices(m, &counts),
        keeps_export_names(alloc, m)?,
        keeps_start_index(m, &counts),
        keeps_start_type(m, spaces),
        keeps_element_tables(m, &counts),
        keeps_element_offsets(m, globals),
        keeps_element_funcs(m, &counts),
        keeps_segment_memories(m, &counts),
        keeps_segment_offsets(m, globals),
    ];
    Ok(first_not_kept(&kept, 10))
}
