// Laws of canonical bytes, of trees and of opcodes.

ghost use Rattle.module_ast.specs.declared.module.Module.{Module};
ghost use Rattle.module_ast.specs.Binary.Grammar.{IsModule};
ghost use Rattle.module_ast.specs.Binary.Canonical.{module_bytes, without_customs};
ghost use Rattle.module_ast.specs.Binary.Profile.{tree_of};
ghost use Rattle.module_ast.specs.Binary.Sizes.{Fits};
ghost use Rattle.module_ast.specs.Binary.Shortest.{CanonicalBytesAreShortest};
ghost use Rattle.module_ast.specs.Laws.{ModulesAreUnique, ModulesHaveNoFloat, TreesWithoutFloatAreModules, LoadsAreFound, FoundLoadsHaveTheOpcode, StoresAreFound, FoundStoresHaveTheOpcode};

use crate::module::{Body, Module};
use crate::spaces::Spaces;

/// The canonical bytes of a module are in the grammar, as that module without its custom sections.
pub fn canonical_bytes_are_spelled()
    ensures { (m : Module) → Fits m → IsModule (module_bytes m) (tree_of (without_customs m)) }
{}

/// No bytes of a module are fewer than its canonical bytes.
pub fn canonical_bytes_are_shortest()
    ensures { CanonicalBytesAreShortest }
{}

/// A module of the grammar without floating-point nodes is exactly one module of the program, and no module of the
/// program has a floating-point node.
pub fn modules_are_trees()
    ensures unique { ModulesAreUnique }
    ensures whole { ModulesHaveNoFloat }
    ensures all { TreesWithoutFloatAreModules }
{}

/// Each load is found by its opcode, and what is found by an opcode has that opcode.
pub fn loads_have_their_opcodes()
    ensures found { LoadsAreFound }
    ensures exact { FoundLoadsHaveTheOpcode }
{}

/// Each store is found by its opcode, and what is found by an opcode has that opcode.
pub fn stores_have_their_opcodes()
    ensures found { StoresAreFound }
    ensures exact { FoundStoresHaveTheOpcode }
{}

/// A module and a body may be sent to other threads, and several threads may read one at once.
pub fn modules_cross_threads(module: &Module, body: &Body) {
    is_send_and_sync(module);
    is_send_and_sync(body);
}

/// A table of index spaces may be sent to other threads, and several threads may read one at once.
pub fn spaces_cross_threads(spaces: &Spaces) {
    is_send_and_sync(spaces);
}

fn is_send_and_sync<T: Send + Sync>(_value: &T) {}
