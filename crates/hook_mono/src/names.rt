// The names of hooks.

ghost use Rattle.std.specs.Prelude.{◌≡◌, ◌++◌, codes, IfOk, string_bytes};
ghost use Rattle.hook_mono.specs.Names.{const_name, letters, name_of, var_name};
ghost use Rattle.hook_mono.specs.Texts.{hook_text};

use crate::HookKey;
use crate::plain::plain_name;
use module_ast::name::Name;
use module_ast::ops::VarOp;
use std::alloc::Global;
use wasm_num::{NoMemory, ValType};

/// The name of the hook of a key, in ASCII. No two proper keys have the same name.
///
/// `NoMemory` if memory runs out.
pub fn name_of(alloc: Global, key: &HookKey) -> Result<Name, NoMemory>
    ensures { IfOk result (λ name. name ≡ hook_text key.now) }
{
    let text = text_of(alloc, key)?;
    Ok(Name::from_string(text))
}

// The name of the hook of a key, as a string.
fn text_of(alloc: Global, key: &HookKey) -> Result<String, NoMemory>
    ensures { IfOk result (λ text. string_bytes text ≡ name_of key.now) }
{
    match key {
        HookKey::Plain(group) => String::from_str(alloc, plain_name(*group)),
        HookKey::Begin(kind) => joined(alloc, "begin_", kind.name()),
        HookKey::End(kind) => joined(alloc, "end_", kind.name()),
        HookKey::Const(ty) => String::from_str(alloc, const_name(*ty)),
        HookKey::Num(op) => String::from_str(alloc, op.name()),
        HookKey::Drop(ty) => with_letters(alloc, "drop_", &[*ty]),
        HookKey::Select(ty) => with_letters(alloc, "select_", &[*ty]),
        HookKey::Local(op, ty) => with_letters(alloc, local_name(*op), &[*ty]),
        HookKey::Global(op, ty) => with_letters(alloc, global_name(*op), &[*ty]),
        HookKey::Load(op) => String::from_str(alloc, op.name()),
        HookKey::Store(op) => String::from_str(alloc, op.name()),
        HookKey::CallPre(types) => with_letters(alloc, "call_pre_", types.as_slice()),
        HookKey::IndirectPre(types) => with_letters(alloc, "call_indirect_pre_", types.as_slice()),
        HookKey::CallPost(types) => with_letters(alloc, "call_post_", types.as_slice()),
        HookKey::Return(types) => with_letters(alloc, "return_", types.as_slice()),
    }
}

// Two texts, one after the other.
fn joined(alloc: Global, head: &str, tail: &str) -> Result<String, NoMemory>
    ensures { IfOk result (λ text. string_bytes text ≡ head.now ++ tail.now) }
{
    let mut text = String::from_str(alloc, head)?;
    text.push_str(tail)?;
    Ok(text)
}

/// A text, and then a letter for each type: `i` for `i32` and `l` for `i64`.
///
/// `NoMemory` if memory runs out.
pub fn with_letters(alloc: Global, head: &str, types: &[ValType]) -> Result<String, NoMemory>
    ensures { IfOk result (λ text. string_bytes text ≡ head.now ++ letters types.now) }
{
    let mut text = String::from_str(alloc, head)?;
    for ty in types {
        match ty {
            ValType::I32 => text.push_str("i")?,
            ValType::I64 => text.push_str("l")?,
        }
    }
    Ok(text)
}

fn local_name(op: VarOp) -> &'static str
    ensures { result.now ≡ codes "local." ++ var_name op }
{
    match op {
        VarOp::Get => "local.get_",
        VarOp::Set => "local.set_",
        VarOp::Tee => "local.tee_",
    }
}

fn global_name(op: VarOp) -> &'static str
    ensures { result.now ≡ codes "global." ++ var_name op }
{
    match op {
        VarOp::Get => "global.get_",
        VarOp::Set => "global.set_",
        VarOp::Tee => "global.tee_",
    }
}

/// The name of the hook of a constant of this type.
pub(crate) fn const_name(ty: ValType) -> &'static str
    ensures { result.now ≡ const_name ty }
{
    match ty {
        ValType::I32 => "i32.const",
        ValType::I64 => "i64.const",
    }
}
