// Names, types and numbers of hooks.

use hook_mono::{HookKey, HookTable, key_of, name_of, type_of};
use hook_select::GroupName;
use module_ast::ops::{LoadOp, StoreOp, VarOp};
use module_ast::seq::Seq;
use std::alloc::Global;
use std::test::Fail;
use wasm_num::{BlockKind, NoMemory, NumOp, ValType};

// Whether the hook of a key has this name, and the name leads back to the key.
fn has_name(alloc: Global, key: &HookKey, name: &str) -> Result<bool, NoMemory> {
    let text = name_of(alloc, key)?;
    let found = key_of(alloc, name)?;
    Ok(text.as_str() == name && found.is_some_and(|found| found == *key))
}

// Whether the hook of a key has so many parameters.
fn has_params(alloc: Global, key: &HookKey, params: usize) -> Result<bool, NoMemory> {
    let ty = type_of(alloc, key)?;
    Ok(ty.params.as_slice().len() == params)
}

// Keys, their names, and how many parameters their hooks have.
#[test]
fn names_lead_back(rt: HostRuntime) -> Result<(), Fail> {
    let alloc = rt.alloc();
    let both = vec![in alloc; ValType::I32, ValType::I64]?;
    let rows = [
        (HookKey::Plain(GroupName::MemoryGrow), "memory.grow", 4),
        (HookKey::Begin(BlockKind::Function), "begin_function", 2),
        (HookKey::End(BlockKind::Loop), "end_loop", 3),
        (HookKey::Const(ValType::I64), "i64.const", 4),
        (HookKey::Num(NumOp::I64Eqz), "i64.eqz", 5),
        (HookKey::Select(ValType::I64), "select_l", 7),
        (HookKey::Local(VarOp::Tee, ValType::I64), "local.tee_l", 5),
        (HookKey::Load(LoadOp::I32Load8U), "i32.load8_u", 5),
        (HookKey::Store(StoreOp::I64Store16), "i64.store16", 6),
        (
            HookKey::IndirectPre(Seq::from_vec(both)),
            "call_indirect_pre_il",
            7,
        ),
        (
            HookKey::CallPost(Seq::from_vec(Vec::new(alloc))),
            "call_post_",
            2,
        ),
    ];
    for (key, name, params) in &rows {
        assert!(rt; has_name(alloc, key, name)?, "{name}");
        assert!(rt; has_params(alloc, key, *params)?, "{name}");
    }
    Ok(())
}

// Whether keys have their numbers in a fresh table, where a body comes to one of them twice.
fn has_numbers(table: &mut HookTable) -> Result<bool, NoMemory> {
    for (kind, number) in [
        (BlockKind::Function, 0),
        (BlockKind::Loop, 1),
        (BlockKind::Function, 0),
        (BlockKind::Else, 2),
    ] {
        if table.len() > 2 || table.need(HookKey::Begin(kind))? != number {
            return Ok(false);
        }
    }
    Ok(
        table.len() == 3
            && table.find(&HookKey::Begin(BlockKind::Else)) == Some(2)
            && table.find(&HookKey::End(BlockKind::Else)).is_none()
            && table.key_at(1) == Some(&HookKey::Begin(BlockKind::Loop)),
    )
}

#[test]
fn numbers_stay(rt: HostRuntime) -> Result<(), Fail> {
    let mut table = HookTable::new(rt.alloc());
    assert!(rt; has_numbers(&mut table)?);
    Ok(())
}
