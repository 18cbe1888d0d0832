// The rule on the names of exports.

ghost use Rattle.std.specs.Prelude.{◌↔◌, IsTrue, IfOk};
ghost use Rattle.module_ast.specs.Validation.{Keeps, export_names};

use module_ast::module::Module;
use std::alloc::Global;
use std::collections::BTreeSet;
use wasm_num::NoMemory;

/// Whether no two exports have the same name. (Standard, 3.4.10)
///
/// `NoMemory` if memory runs out.
pub(crate) fn keeps_export_names(alloc: Global, m: &Module) -> Result<bool, NoMemory>
    ensures { IfOk result (λ b. IsTrue b ↔ Keeps m.now export_names) }
{
    // An ordered set, because nobody can choose names that collide in it.
    let mut seen = BTreeSet::new(alloc);
    let exports = m.exports.as_slice();
    for export in exports {
        if !seen.insert(export.name.as_str())? {
            return Ok(false);
        }
    }
    Ok(true)
}
