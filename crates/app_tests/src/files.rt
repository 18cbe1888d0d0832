// Modules from the bytes of short files.

ghost use Rattle.std.specs.Prelude.{◌≤◌, length, IfSome};
ghost use Rattle.module_ast.specs.Binary.{module_bytes, IsWithin};
ghost use Rattle.module_ast.specs.Validation.{narrow, IsWhole, longest_narrow_file};

use module_ast::module::{Limits, Module};
use std::alloc::Global;
use std::thread::Threads;
use wasm_decode::decode;
use wasm_valid::{ValidModule, validate};

// The module of a short file.
#[tactic(auto, using(module_ast::proofs::LeastModules::module_least))]
fn module_of(alloc: Global, file: &[u8]) -> Option<Module>
    ensures within { IfSome result (λ m. IsWithin narrow m) }
    ensures short { IfSome result (λ m. length (module_bytes m) ≤ longest_narrow_file) }
    ensures whole { IfSome result (λ m. IsWhole m) }
{
    if file.len() > 256 {
        return None;
    }
    match decode(alloc, file, &Limits::narrow()) {
        Ok(module) => Some(module),
        Err(_) => None,
    }
}

// The same, where it is valid.
pub(crate) fn valid_of<R: Threads + Sync>(rt: &R, alloc: Global, file: &[u8]) -> Option<ValidModule>
    ensures within { IfSome result (λ valid. IsWithin narrow valid) }
    ensures short { IfSome result (λ valid. length (module_bytes valid) ≤ longest_narrow_file) }
{
    let module = module_of(alloc, file)?;
    validate(rt, alloc, module, 1).ok()
}
