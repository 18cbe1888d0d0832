// Modules made from numbers.

use module_ast::module::Module;
use module_gen::make;
use std::alloc::{AllocError, Global};
use std::test::Fail;
use std::thread::Threads;
use wasm_valid::validate;

// How many functions each number makes, the import left out: 16 and 1 and what is drawn first, 825 for 7 and 730 for 0.
const COUNTS: [(u64, usize); 2] = [(0, 747), (7, 842)];

// How many functions and bodies a module has.
fn counts(m: &Module) -> (usize, usize) {
    (m.funcs.as_slice().len(), m.bodies.as_slice().len())
}

// Whether the module of a number has so many functions, and is valid.
fn is_made<R: Threads + Sync>(
    rt: &R,
    alloc: Global,
    number: u64,
    functions: usize,
) -> Result<bool, AllocError> {
    let made = make(alloc, number)?;
    let counted = counts(&made);
    let is_valid = validate(rt, alloc, made, 1).is_ok();
    Ok(is_valid && counted == (functions, functions))
}

#[test]
fn makes_modules(rt: HostRuntime) -> Result<(), Fail> {
    for (number, functions) in COUNTS {
        assert!(rt; is_made(&rt, rt.alloc(), number, functions)?, "{number}");
    }
    Ok(())
}
