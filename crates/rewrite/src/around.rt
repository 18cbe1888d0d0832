// The blocks around a place, with the bytes of the hook calls for their ends.

ghost use Rattle.std.specs.Prelude.{◌≡◌, ◌∷◌, [], ◌<◌, ◌≤◌, ◌^◌, length, drop, OnOk};
ghost use Rattle.module_ast.specs.Binary.{plain_bytes};
ghost use Rattle.module_ast.specs.Structure.{i32_const, call};
ghost use Rattle.rewrite.specs.Emitted.{block_end_code};
ghost use Rattle.rewrite.specs.Sizes.{plains_length, AreSummed};

use crate::end_sums::EndSums;
use crate::setting::Setting;
use branch_resolve::{Block, EndOf, Scopes};
use hook_mono::HookKey;
use hook_select::GroupName;
use module_ast::code::Instr;
use std::alloc::{AllocError, Global};
use wasm_encode::plain_length;

/// The blocks around a place, and for each of them how many bytes the calls of the end hooks take, for the block itself and
/// for all blocks around it. The bytes depend on the setting.
#[derive(Drop)]
pub(crate) struct Around {
    pub(crate) scopes: Scopes,
    pub(crate) sums: EndSums,
}

// How many bytes a constant has.
fn const_length(value: i32) -> u64
    ensures length { result ≡ length (plain_bytes (i32_const value)) }
    ensures bound { result ≤ 16 }
{
    plain_length(&Instr::I32Const(value))
}

// How many bytes a call has.
fn call_length(func: u32) -> u64
    ensures length { result ≡ length (plain_bytes (call func)) }
    ensures bound { result ≤ 16 }
{
    plain_length(&Instr::Call(func))
}

impl Setting<'_> {
    // How many bytes the call of the end hook of a block has: none if ends are not selected.
    fn end_length(&self, block: EndOf) -> u64
        ensures length { result ≡ plains_length (block_end_code self.now block) }
        ensures bound { result ≤ 64 }
    {
        if !self.has(GroupName::End) {
            return 0;
        }
        let location = const_length(self.site.func().cast_signed()) + const_length(block.end);
        let call = call_length(self.hook_index(&HookKey::End(block.kind)));
        location + const_length(block.begin) + call
    }
}

impl Around {
    /// No blocks, as at the entry of a function.
    pub(crate) fn new(alloc: Global) -> Around
        ensures scopes { result.scopes ≡ [] }
        ensures sums { result.sums ≡ [] }
    {
        Around {
            scopes: Scopes::new(alloc),
            sums: EndSums::new(alloc),
        }
    }

    /// Enters a block. An `Err` comes if there is no memory.
    pub(crate) fn enter(&mut self, setting: &Setting<'_>, block: Block) -> Result<(), AllocError>
        requires few { length self.old.scopes < 2 ^ 32 }
        requires sums { AreSummed setting.now self.old }
        ensures scopes { OnOk result (self.new.scopes ≡ block ∷ self.old.scopes) }
        ensures rest { OnOk result (drop 1 self.new.sums ≡ self.old.sums) }
        ensures sums { OnOk result (AreSummed setting.now self.new) }
    {
        self.sums.enter(setting.end_length(block.end_of()))?;
        self.scopes.enter(block)
    }

    /// Leaves the innermost block.
    pub(crate) fn leave(&mut self)
        requires scopes { 0 < length self.old.scopes }
        requires sums { length self.old.sums ≡ length self.old.scopes }
        ensures scopes { self.new.scopes ≡ drop 1 self.old.scopes }
        ensures sums { self.new.sums ≡ drop 1 self.old.sums }
    {
        self.scopes.leave();
        self.sums.leave();
    }
}
