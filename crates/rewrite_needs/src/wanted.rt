// Which hooks are called.

ghost use Rattle.std.specs.Prelude.{◌≡◌};
ghost use Rattle.wasm_num.specs.Shapes.{num_operands};
ghost use Rattle.hook_mono.specs.Keys.{num_group, key_group, is_wanted};

use hook_mono::HookKey;
use hook_select::{GroupName, Hooks};
use wasm_num::NumOp;

// The group of a number instruction: `unary` if it takes one operand, and `binary` otherwise.
pub(crate) fn num_group(op: NumOp) -> GroupName
    ensures { result ≡ num_group (num_operands op) }
{
    match op.operand_types() {
        [_] => GroupName::Unary,
        _ => GroupName::Binary,
    }
}

// The group that the key belongs to.
fn key_group(key: &HookKey) -> GroupName
    ensures { result ≡ key_group key.now }
{
    match key {
        HookKey::Plain(group) => *group,
        HookKey::Begin(_) => GroupName::Begin,
        HookKey::End(_) => GroupName::End,
        HookKey::Const(_) => GroupName::Const,
        HookKey::Num(op) => num_group(*op),
        HookKey::Drop(_) => GroupName::Drop,
        HookKey::Select(_) => GroupName::Select,
        HookKey::Local(_, _) => GroupName::Local,
        HookKey::Global(_, _) => GroupName::Global,
        HookKey::Load(_) => GroupName::Load,
        HookKey::Store(_) => GroupName::Store,
        HookKey::CallPre(_) | HookKey::IndirectPre(_) | HookKey::CallPost(_) => GroupName::Call,
        HookKey::Return(_) => GroupName::Return,
    }
}

// Whether the hook of the key is called if these groups are selected. The one hook of a `br_table` tells the index, from which
// the ends of the blocks that the branch leaves follow. So it is called too if only ends are selected.
pub(crate) fn is_wanted(hooks: Hooks, key: &HookKey) -> bool
    ensures { result ≡ is_wanted hooks key.now }
{
    match key {
        HookKey::Plain(GroupName::BrTable) => {
            hooks.has(GroupName::BrTable) || hooks.has(GroupName::End)
        }
        _ => hooks.has(key_group(key)),
    }
}
