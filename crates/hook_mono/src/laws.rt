// Laws of keys, of their names, and of the types.

ghost use Rattle.module_ast.specs.declared.module.Module.{Module};
ghost use Rattle.hook_select.specs.Selections.{Selection};
ghost use Rattle.hook_mono.specs.Keys.{KeysDiffer};
ghost use Rattle.hook_mono.specs.Names.{NamesDiffer, NamesLeadBack};
ghost use Rattle.hook_mono.specs.Needed.{NeedsJoin};
ghost use Rattle.hook_mono.specs.Told.{TypesAreTold};

use crate::{HookKey, HookTable};

/// No two proper keys have the same name, and for the name of a proper key nothing but that key is found.
pub fn names_differ()
    ensures differ { NamesDiffer }
    ensures back { NamesLeadBack }
{}

/// Keys that compare equal are the same key.
pub fn keys_differ()
    ensures { KeysDiffer }
{}

/// The types of the values that the hook of a key is told are those of the fields that it tells.
pub fn types_are_told()
    ensures { TypesAreTold }
{}

/// The keys that the bodies of a module need, joined in the order of its functions, are those that the module needs.
pub fn needs_join()
    ensures { (m : Module) (hooks : Selection) → NeedsJoin m hooks }
{}

/// A key may go to other threads, and several threads may read it at the same time.
pub fn keys_cross_threads(key: &HookKey) {
    is_send_and_sync(key);
}

/// A table of hooks may go to other threads, and several threads may read it at the same time.
pub fn tables_cross_threads(table: &HookTable) {
    is_send_and_sync(table);
}

fn is_send_and_sync<T: Send + Sync>(_value: &T) {}
