// What is told of an instruction that neither branches nor calls.

ghost use Rattle.std.specs.Prelude.{◌≡◌, ◌∷◌, ◌++◌, [], ℕ};
ghost use Rattle.wasm_num.specs.Shapes.{num_operands, num_result};
ghost use Rattle.hook_mono.specs.Needed.{Site as Shown};
ghost use Rattle.rewrite_needs.specs.Watching.{instr_watch, watch_key, watch_told, is_untold};

use crate::site::Site;
use crate::wanted::num_group;
use hook_mono::HookKey;
use hook_select::{GroupName, Hooks};
use module_ast::code::Instr;
use module_ast::ops::VarOp;
use std::marker::Model;
use wasm_num::{NumOp, ValType};

/// Up to three types of values. Contracts see a list.
#[derive(Drop)]
pub struct Types {
    items: [ValType; 3],
    count: usize,
}

impl Model for Types {
    ghost use Rattle.std.specs.Prelude.{List, take, ◌≤◌};
    ghost use Rattle.wasm_num.specs.declared.ValType.{ValType as shown};

    ghost Value = { List shown };

    ghost view = { λ a. take a.count a.items };

    ghost invariant = { λ a. a.count ≤ 3 };
}

impl Types {
    fn one(a: ValType) -> Types
        ensures { result ≡ a ∷ [] }
    {
        Types {
            items: [a, a, a],
            count: 1,
        }
    }

    fn two(a: ValType, b: ValType) -> Types
        ensures { result ≡ a ∷ b ∷ [] }
    {
        Types {
            items: [a, b, b],
            count: 2,
        }
    }

    fn three(a: ValType, b: ValType, c: ValType) -> Types
        ensures { result ≡ a ∷ b ∷ c ∷ [] }
    {
        Types {
            items: [a, b, c],
            count: 3,
        }
    }

    // The types of the operands and of the result.
    fn of_num(op: NumOp) -> Types
        ensures { result ≡ num_operands op ++ num_result op ∷ [] }
    {
        let result = op.result_type();
        match op.operand_types() {
            [a, b] => Types::three(*a, *b, result),
            [a] => Types::two(*a, result),
            _ => Types::one(result),
        }
    }

    /// The types, in order.
    pub fn as_slice(&self) -> &[ValType]
        ensures { result.now ≡ self.now }
    {
        &self.items[..self.count]
    }
}

/// What the hook call of an instruction tells after the index of the function and the position.
#[derive(Drop)]
pub enum Telling {
    /// Nothing. This hook call comes before the instruction. Each other one comes after it.
    Before,
    /// This constant.
    Int(i32),
    /// The two words of this constant, the low word first.
    Long(i64),
    /// The index of a local, and the value of the local, which has this type.
    Local(u32, ValType),
    /// The index of a global, and the value of the global, which has this type.
    Global(u32, ValType),
    /// The operand, which has this type. It goes into a temporary instead of being dropped.
    Dropped(ValType),
    /// The offset of an access to memory if it is one, and the operands and the result, which the template keeps in temporaries
    /// of these types. The number says how many of the temporaries are for operands. One after them is for the result.
    Kept(Option<u32>, usize, Types),
}

/// What is told of an instruction: the key of the hook that is called, and what the call tells.
#[derive(Drop)]
pub struct Watch {
    pub key: HookKey,
    pub told: Telling,
}

/// Whether an instruction has a hook of its own that is not called if these groups are selected. The instruction is then its
/// own template. To ask first is quicker than to find out what would be told.
pub fn is_untold(hooks: &Hooks, instr: &Instr) -> bool
    ensures { (s : Shown) (p : ℕ) → result ≡ is_untold hooks.now (instr_watch s p instr.now) }
{
    match instr {
        Instr::Unreachable => !hooks.unreachable,
        Instr::Nop => !hooks.nop,
        Instr::Drop => !hooks.drop,
        Instr::Select => !hooks.select,
        Instr::LocalGet(_) | Instr::LocalSet(_) | Instr::LocalTee(_) => !hooks.local,
        Instr::GlobalGet(_) | Instr::GlobalSet(_) => !hooks.global,
        Instr::Load(_, _) => !hooks.load,
        Instr::Store(_, _) => !hooks.store,
        Instr::MemorySize => !hooks.memory_size,
        Instr::MemoryGrow => !hooks.memory_grow,
        Instr::I32Const(_) | Instr::I64Const(_) => !hooks.const_,
        Instr::Num(op) => !hooks.has(num_group(*op)),
        _ => false,
    }
}

// The key of the hook that tells an instruction at a position. A branch, a call and an instruction with a sequence in it have
// none here.
pub(crate) fn key_of(site: &Site, position: u32, instr: &Instr) -> Option<HookKey>
    ensures { result ≡ watch_key (instr_watch site.now position instr.now) }
{
    let key = match instr {
        Instr::Unreachable => HookKey::Plain(GroupName::Unreachable),
        Instr::Nop => HookKey::Plain(GroupName::Nop),
        Instr::Drop => HookKey::Drop(site.mark_at(position)),
        Instr::Select => HookKey::Select(site.mark_at(position)),
        Instr::LocalGet(x) => HookKey::Local(VarOp::Get, site.local_type(*x)),
        Instr::LocalSet(x) => HookKey::Local(VarOp::Set, site.local_type(*x)),
        Instr::LocalTee(x) => HookKey::Local(VarOp::Tee, site.local_type(*x)),
        Instr::GlobalGet(x) => HookKey::Global(VarOp::Get, site.global_type(*x)),
        Instr::GlobalSet(x) => HookKey::Global(VarOp::Set, site.global_type(*x)),
        Instr::Load(op, _) => HookKey::Load(*op),
        Instr::Store(op, _) => HookKey::Store(*op),
        Instr::MemorySize => HookKey::Plain(GroupName::MemorySize),
        Instr::MemoryGrow => HookKey::Plain(GroupName::MemoryGrow),
        Instr::I32Const(_) => HookKey::Const(ValType::I32),
        Instr::I64Const(_) => HookKey::Const(ValType::I64),
        Instr::Num(op) => HookKey::Num(*op),
        _ => return None,
    };
    Some(key)
}

// What the hook call of an instruction at a position tells. A branch, a call and an instruction with a sequence in it have
// nothing here.
pub(crate) fn telling_of(site: &Site, position: u32, instr: &Instr) -> Option<Telling>
    ensures { result ≡ watch_told (instr_watch site.now position instr.now) }
{
    let int = ValType::I32;
    let told = match instr {
        Instr::Unreachable | Instr::Nop => Telling::Before,
        Instr::Drop => Telling::Dropped(site.mark_at(position)),
        Instr::Select => {
            let ty = site.mark_at(position);
            Telling::Kept(None, 3, Types::three(ty, ty, int))
        }
        Instr::LocalGet(x) | Instr::LocalSet(x) | Instr::LocalTee(x) => {
            Telling::Local(*x, site.local_type(*x))
        }
        Instr::GlobalGet(x) | Instr::GlobalSet(x) => Telling::Global(*x, site.global_type(*x)),
        Instr::Load(op, arg) => Telling::Kept(Some(arg.offset), 1, Types::two(int, op.ty())),
        Instr::Store(op, arg) => Telling::Kept(Some(arg.offset), 2, Types::two(int, op.ty())),
        Instr::MemorySize => Telling::Kept(None, 0, Types::one(int)),
        Instr::MemoryGrow => Telling::Kept(None, 1, Types::two(int, int)),
        Instr::I32Const(value) => Telling::Int(*value),
        Instr::I64Const(value) => Telling::Long(*value),
        Instr::Num(op) => Telling::Kept(None, op.operands(), Types::of_num(*op)),
        _ => return None,
    };
    Some(told)
}

/// The key of the hook that tells an instruction at a position, and what the call tells. A branch, a call and an instruction
/// with a sequence in it have neither. It takes the time of two look-ups in the site at most.
pub fn watch_of(site: &Site, position: u32, instr: &Instr) -> Option<Watch>
    ensures { result ≡ instr_watch site.now position instr.now }
{
    let key = key_of(site, position, instr)?;
    let told = telling_of(site, position, instr)?;
    Some(Watch { key, told })
}
