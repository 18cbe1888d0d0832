// The functions that a script calls.

ghost use Rattle.std.specs.Prelude.{◌≡◌, IfOk};
ghost use Rattle.wasm_sem.specs.Execution.{Links};
ghost use Rattle.wasm_run.specs.Exported.{HasExports};
ghost use Rattle.wasm_run.specs.Progress.{AreCalled};

use module_ast::module::{Export, ExportKind, Module};
use std::alloc::Global;
use std::collections::BTreeMap;
use wasm_num::NoMemory;
use wasm_sem::Script;

/// The exported functions by their names; if several exports have one name, the first of them. The map is ordered, so
/// that no choice of names makes them collide. `NoMemory` if memory runs out. (Standard, 2.5.10)
pub fn exported_functions<'m>(
    alloc: Global,
    exports: &'m [Export],
) -> Result<BTreeMap<&'m str, u32>, NoMemory>
    ensures { IfOk result (λ named. HasExports named exports.now) }
{
    let mut named = BTreeMap::new(alloc);
    let mut left = exports;
    while let Some((export, before)) = left.split_last() {
        if export.kind == ExportKind::Func {
            named.insert(export.name.as_str(), export.index)?;
        }
        left = before;
    }
    Ok(named)
}

/// The index of the function of each call of a script, in order. Names are sorted once, and each call looks its own up.
pub(crate) fn called_functions(
    alloc: Global,
    linked: &Module,
    script: &Script,
) -> Result<Vec<u32>, NoMemory>
    requires { Links linked.now script.now }
    ensures { IfOk result (λ functions. AreCalled linked.now script.now functions.items) }
{
    let named = exported_functions(alloc, linked.exports.as_slice())?;
    let mut functions = Vec::new(alloc);
    for call in script.calls.as_slice() {
        match named.get(&call.export.as_str()) {
            Some(function) => functions.push(*function)?,
            None => unreachable!(),
        }
    }
    Ok(functions)
}
