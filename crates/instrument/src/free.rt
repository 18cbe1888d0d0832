// Which modules may get hooks.

ghost use Rattle.std.specs.Prelude.{◌↔◌, IsTrue};
ghost use Rattle.wasm_sem.specs.Execution.{IsFree};

use hook_mono::HOOK_MODULE;
use module_ast::module::Module;

/// Whether no import of the module, of any kind, names the module that hooks are imported from.
pub(crate) fn is_free(m: &Module) -> bool
    ensures { IsTrue result ↔ IsFree m.now }
{
    m.imports
        .as_slice()
        .iter()
        .all(|import| import.module.as_str() != HOOK_MODULE)
}
