// The hooks: one imported function for each key, with its name and its type.
#![tactic(auto)]

mod compare;
pub mod laws;
mod names;
mod plain;
mod read;
mod table;
mod told;
mod types;
mod words;

pub use crate::names::{name_of, with_letters};
pub use crate::plain::plain_event;
pub use crate::read::{key_of, letter_types};
pub use crate::table::HookTable;
pub use crate::types::type_of;
pub use crate::words::Words;
use hook_select::GroupName;
use module_ast::ops::{LoadOp, StoreOp, VarOp};
use module_ast::seq::Seq;
use wasm_num::{BlockKind, NumOp, ValType};

/// The name of the module that hooks are imported from. No module that gets hooks imports anything from it.
pub const HOOK_MODULE: &str = "__wasabi_hooks";

/// What a hook is for. `Plain` is for the groups that are a key by themselves, such as `nop` and `br_if`. A global has no `Tee`.
#[derive(Drop)]
pub enum HookKey {
    /// A group that has one hook.
    Plain(GroupName),
    /// A part of this kind begins.
    Begin(BlockKind),
    /// A part of this kind ends.
    End(BlockKind),
    /// A constant of this type.
    Const(ValType),
    /// This number instruction.
    Num(NumOp),
    /// A `drop` of an operand of this type.
    Drop(ValType),
    /// A `select` between operands of this type.
    Select(ValType),
    /// A local of this type is read or set.
    Local(VarOp, ValType),
    /// A global of this type is read or set.
    Global(VarOp, ValType),
    /// This load.
    Load(LoadOp),
    /// This store.
    Store(StoreOp),
    /// Before a `call` with arguments of these types.
    CallPre(Seq<ValType>),
    /// Before a `call_indirect` with arguments of these types.
    IndirectPre(Seq<ValType>),
    /// After a `call` or a `call_indirect` with results of these types.
    CallPost(Seq<ValType>),
    /// A `return`, or the last `end` of a function, with results of these types.
    Return(Seq<ValType>),
}
