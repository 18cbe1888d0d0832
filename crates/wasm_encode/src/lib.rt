// The canonical bytes of modules (5). They are counted first, each body once, and then written. A writer fails only if
// memory runs out; any bytes may then have been appended, unless it says otherwise.
#![tactic(auto)]

ghost use Rattle.std.specs.Prelude.{◌≡◌, ◌<◌, ◌≤◌, ◌^◌, ℕ, length, All, IfOk, IsErrOf};
ghost use Rattle.module_ast.specs.declared.module.Body.{Body};
ghost use Rattle.module_ast.specs.declared.module.Which.TheVariants.{Nesting};
ghost use Rattle.module_ast.specs.Binary.{Fits, IsModule, locals_of, limited_counts, AreWithin, tree_of, module_bytes, without_customs};
ghost use Rattle.module_ast.specs.Validation.Limits.{deepest, longest_file};
ghost use Rattle.wasm_encode.specs.declared.EncodeFault.TheVariants.{TooLarge, NoMemory};

mod bodies;
mod code;
mod code_length;
mod numbers;
mod outline;
mod sections;
mod tables;
mod types;
mod vectors;
mod whole;

use crate::bodies::entries_length;
pub use crate::code_length::{instrs_length, plain_length};
pub use crate::outline::{Outline, code_section_length, put_code_head, with_entry};
pub use crate::types::block_type_length;
use crate::whole::{module_length, spell_module};
use module_ast::module::Module;
use std::alloc::{AllocError, Global};

/// Why `encode` writes no bytes.
#[derive(Clone, Copy, Debug, PartialEq, Eq)]
pub enum EncodeFault {
    /// There are more canonical bytes than were allowed: `length` of them.
    TooLarge { length: u64 },
    /// Memory ran out.
    NoMemory,
}

impl From<AllocError> for EncodeFault {
    ghost from_gives = { λ _ e. e ≡ NoMemory };

    fn from(_e: AllocError) -> EncodeFault {
        EncodeFault::NoMemory
    }
}

/// The number of canonical bytes of a module (5). The count also shows the prover that each number fits its encoding.
pub fn encoded_length(m: &Module) -> u64
    requires bodies { length m.now.funcs ≡ length m.now.bodies }
    requires locals { All (λ (b : Body). locals_of b.groups < 2 ^ 32) m.now.bodies }
    requires room { length (module_bytes m.now) < 2 ^ 63 }
    ensures length { result ≡ length (module_bytes m.now) }
    ensures fit { length (module_bytes m.now) < 2 ^ 32 → Fits m.now }
{
    let bodies = entries_length(m.bodies.as_slice());
    module_length(m, bodies)
}

/// The canonical bytes of a module (5): every number in its shortest spelling, no section without entries, no custom
/// section. They are in the grammar, as the module without its custom sections.
///
/// `max` is the greatest number of bytes that there may be. If there are more, the answer is `TooLarge` with their
/// number, and nothing is allocated. So `NoMemory` comes only if there are few enough.
pub fn encode(alloc: Global, m: &Module, max: u64) -> Result<Vec<u8>, EncodeFault>
    requires most { max ≤ longest_file }
    requires bodies { length m.now.funcs ≡ length m.now.bodies }
    requires locals { All (λ (b : Body). locals_of b.groups < 2 ^ 32) m.now.bodies }
    requires nesting { AreWithin deepest (limited_counts m.now Nesting) }
    requires room { length (module_bytes m.now) < 2 ^ 63 }
    ensures ok { IfOk result (λ bytes. bytes.items ≡ module_bytes m.now) }
    ensures grammar { IfOk result (λ bytes. IsModule bytes.items (tree_of (without_customs m.now))) }
    ensures few { IfOk result (λ bytes. length bytes.items ≤ max) }
    ensures large { (n : ℕ) → IsErrOf result (TooLarge n) → (n ≡ length (module_bytes m.now)) × (max < n) }
    ensures memory { IsErrOf result NoMemory → length (module_bytes m.now) ≤ max }
{
    let bodies = entries_length(m.bodies.as_slice());
    let length = module_length(m, bodies);
    if length > max {
        return Err(EncodeFault::TooLarge { length });
    }
    Ok(spell_module(alloc, m, length, bodies)?)
}
