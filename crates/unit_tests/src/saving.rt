// Operands that are kept in temporaries: the code is known instruction by instruction.

use i64_split::{Pool, save};
use module_ast::code::Instr;
use std::test::Fail;
use wasm_num::ValType;

// The opcode of an instruction on a local, and its index.
fn spelled(instr: &Instr) -> (u8, u32) {
    match instr {
        Instr::LocalGet(local) => (0x20, *local),
        Instr::LocalSet(local) => (0x21, *local),
        _ => (0, 0),
    }
}

fn is_spelled(code: &[Instr], expected: &[(u8, u32)]) -> bool {
    code.iter().map(spelled).eq(expected.iter().copied())
}

static TYPES: [ValType; 2] = [ValType::I32, ValType::I64];

// The topmost operand is the i64.
static SAVED: [(u8, u32); 4] = [(0x21, 1), (0x21, 0), (0x20, 0), (0x20, 1)];

// Temporary 0 of type i32 is taken, of three.
static SAVED_BEHIND_ONE: [(u8, u32); 4] = [(0x21, 3), (0x21, 1), (0x20, 1), (0x20, 3)];

#[test]
fn operands_are_kept(rt: HostRuntime) -> Result<(), Fail> {
    let pool = Pool {
        base: 0,
        ints: 1,
        longs: 1,
    };
    let mut code = Vec::new(rt.alloc());
    save(&mut code, &pool, &TYPES, 0)?;
    assert!(rt; is_spelled(&code, &SAVED));
    Ok(())
}

#[test]
fn operands_are_kept_behind_a_temporary(rt: HostRuntime) -> Result<(), Fail> {
    let pool = Pool {
        base: 0,
        ints: 3,
        longs: 1,
    };
    let mut code = Vec::new(rt.alloc());
    save(&mut code, &pool, &TYPES, 1)?;
    assert!(rt; is_spelled(&code, &SAVED_BEHIND_ONE));
    Ok(())
}
