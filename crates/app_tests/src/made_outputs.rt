// The module that a number makes has one output and one information at any number of jobs.

ghost use Rattle.std.specs.Prelude.{◌≡◌, IfOk};
ghost use Rattle.module_gen.specs.Made.{made};

use crate::commands::{fails_of, status_of};
use hook_select::Hooks;
use instrument::instrument;
use module_ast::module::LONGEST_FILE;
use module_gen::make;
use outside_io::{MemoryShelf, MemorySink};
use rewrite::PlainRewriter;
use std::alloc::{AllocError, Global};
use std::test;
use std::thread::Threads;
use wasm_num::NoMemory;
use wasm_valid::{ValidModule, validate};

// The valid module that a number makes.
fn valid_of<R: Threads + Sync>(rt: &R, alloc: Global, number: u64) -> Result<ValidModule, NoMemory>
    ensures { IfOk result (λ valid. valid ≡ made number) }
{
    let module = make(alloc, number)?;
    match validate(rt, alloc, module, 1) {
        Ok(valid) => Ok(valid),
        Err(_) => Err(AllocError),
    }
}

// Its file: its output where no group is selected.
fn file_of<R: Threads + Sync>(rt: &R, alloc: Global, number: u64) -> Result<Vec<u8>, NoMemory> {
    let valid = valid_of(rt, alloc, number)?;
    match instrument(
        rt,
        alloc,
        &valid,
        Hooks::none(),
        1,
        LONGEST_FILE,
        &PlainRewriter,
    ) {
        Ok(made) => Ok(made.bytes),
        Err(_) => Err(AllocError),
    }
}

// A shelf with a file, and its output and its information for all groups that so many jobs made.
fn shelf_of<R: Threads + Sync>(
    rt: &R,
    alloc: Global,
    file: &[u8],
    jobs: u32,
) -> Result<MemoryShelf, AllocError> {
    let mut shelf = MemoryShelf::new(alloc, fails_of(alloc, None)?);
    shelf.add("a.wasm", file)?;
    let mut sink = MemorySink::new(alloc, fails_of(alloc, None)?);
    let words = format!(in alloc; "instrument a.wasm --out b.wasm --info b.json --jobs {jobs}")?;
    status_of(rt, alloc, words.as_str(), &mut shelf, &mut sink)?;
    Ok(shelf)
}

#[test]
fn a_made_module_has_one_output(rt: HostRuntime) -> Result<(), test::Fail> {
    let alloc = rt.alloc();
    let file = file_of(&rt, alloc, 7)?;
    let alone = shelf_of(&rt, alloc, &file, 1)?;
    assert!(rt; alone.bytes_of("b.wasm").is_some());
    for jobs in [2, 8, 64] {
        let shelf = shelf_of(&rt, alloc, &file, jobs)?;
        for name in ["b.wasm", "b.json"] {
            assert_eq!(rt; shelf.bytes_of(name), alone.bytes_of(name));
        }
    }
    Ok(())
}
