// Copies keys.

ghost use Rattle.std.specs.Prelude.{◌≡◌, IfOk};

use hook_mono::HookKey;
use index_remap::copy_list;
use module_ast::seq::Seq;
use std::alloc::Global;
use wasm_num::NoMemory;

// A copy of the key.
fn copy_key(alloc: Global, key: &HookKey) -> Result<HookKey, NoMemory>
    ensures { IfOk result (λ copy. copy ≡ key.now) }
{
    Ok(match key {
        HookKey::Plain(group) => HookKey::Plain(*group),
        HookKey::Begin(kind) => HookKey::Begin(*kind),
        HookKey::End(kind) => HookKey::End(*kind),
        HookKey::Const(ty) => HookKey::Const(*ty),
        HookKey::Num(op) => HookKey::Num(*op),
        HookKey::Drop(ty) => HookKey::Drop(*ty),
        HookKey::Select(ty) => HookKey::Select(*ty),
        HookKey::Local(op, ty) => HookKey::Local(*op, *ty),
        HookKey::Global(op, ty) => HookKey::Global(*op, *ty),
        HookKey::Load(op) => HookKey::Load(*op),
        HookKey::Store(op) => HookKey::Store(*op),
        HookKey::CallPre(types) => HookKey::CallPre(copy_list(alloc, types)?),
        HookKey::IndirectPre(types) => HookKey::IndirectPre(copy_list(alloc, types)?),
        HookKey::CallPost(types) => HookKey::CallPost(copy_list(alloc, types)?),
        HookKey::Return(types) => HookKey::Return(copy_list(alloc, types)?),
    })
}

/// Copies of these keys, in order. An `Err` comes only if memory runs out.
pub(crate) fn copy_keys(alloc: Global, keys: &[HookKey]) -> Result<Seq<HookKey>, NoMemory>
    ensures { IfOk result (λ copies. copies ≡ keys.now) }
{
    let mut copies = Vec::with_capacity(alloc, keys.len())?;
    for key in keys {
        copies.push(copy_key(alloc, key)?)?;
    }
    Ok(Seq::from_vec(copies))
}
