// The check of one body by itself.

ghost use Rattle.std.specs.Prelude.{◌≡◌, IsTrue};
ghost use Rattle.module_ast.specs.Validation.{IsWhole, KeepsRules};

use crate::files::{file_of, module_of, put_section};
use code_valid::{BodyInvalid, Mark, check_body};
use module_ast::module::Module;
use std::alloc::Global;
use std::test::Fail;
use std::thread::Threads;
use wasm_num::ValType;
use wasm_valid::{Invalid, validate};

// The section with the one body of a file, the marks of this body and its height, and whether it is valid. What is dropped
// behind a branch is not live, so it is not marked; with no branch before it nothing is there to drop.
static BODIES: [(&str, &[(u32, ValType)], u64, bool); 3] = [
    ("01 08 00 0240 0C00 1A 0B 0B", &[], 0, true),
    (
        "01 0B 00 0240 0C00 1A 0B 4100 1A 0B",
        &[(5, ValType::I32)],
        1,
        true,
    ),
    ("01 03 00 1A 0B", &[], 0, false),
];

fn has_marks(found: &[Mark], marks: &[(u32, ValType)]) -> bool {
    if found.len() != marks.len() {
        return false;
    }
    for (mark, (pos, ty)) in found.iter().zip(marks) {
        if mark.pos != *pos || mark.ty != *ty {
            return false;
        }
    }
    true
}

// Whether a module keeps the rules on what stands outside bodies.
fn keeps_rules<R: Threads + Sync>(rt: &R, alloc: Global, m: Module) -> bool
    requires { IsWhole m }
    ensures { IsTrue result → KeepsRules m }
{
    match validate(rt, alloc, m, 1) {
        Ok(_) | Err(Invalid::Body { .. }) => true,
        Err(_) => false,
    }
}

// Whether the first body of a module is valid, with these marks and this height; `None` where anything else is wrong.
fn body_of(alloc: Global, m: &Module, marks: &[(u32, ValType)], height: u64) -> Option<bool>
    requires whole { IsWhole m.now }
    requires rules { KeepsRules m.now }
{
    if m.bodies.as_slice().is_empty() {
        return None;
    }
    match check_body(alloc, m, 0) {
        Ok(found) if found.height == height && has_marks(found.types.as_slice(), marks) => {
            Some(true)
        }
        Err(BodyInvalid::Invalid) => Some(false),
        _ => None,
    }
}

// The same of a module with an equal one, which is validated.
fn body_by_twin<R: Threads + Sync>(
    rt: &R,
    alloc: Global,
    m: &Module,
    twin: Module,
    marks: &[(u32, ValType)],
    height: u64,
) -> Option<bool>
    requires whole { IsWhole m.now }
    requires same { twin ≡ m.now }
{
    if !keeps_rules(rt, alloc, twin) {
        return None;
    }
    body_of(alloc, m, marks, height)
}

// The same of a file, which is read twice: validation takes one module, and the check is asked of the other.
fn checked<R: Threads + Sync>(
    rt: &R,
    alloc: Global,
    file: &[u8],
    marks: &[(u32, ValType)],
    height: u64,
) -> Option<bool> {
    let m = module_of(alloc, file)?;
    let twin = module_of(alloc, file)?;
    body_by_twin(rt, alloc, &m, twin, marks, height)
}

#[test]
fn one_body(rt: HostRuntime) -> Result<(), Fail> {
    let alloc = rt.alloc();
    for (bodies, marks, height, valid) in &BODIES {
        let mut file = file_of(alloc, "010401600000 03020100")?;
        put_section(&mut file, alloc, 10, bodies)?;
        assert_eq!(rt; checked(&rt, alloc, &file, marks, *height), Some(*valid));
    }
    Ok(())
}
