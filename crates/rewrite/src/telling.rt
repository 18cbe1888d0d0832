// The code of hook calls.

ghost use Rattle.std.specs.Prelude.{◌≡◌, ◌++◌, ◌∷◌, [], map, pos, negsuc, OnOk, ◌<◌, ◌^◌};
ghost use Rattle.module_ast.specs.Structure.{i32_const, call};
ghost use Rattle.module_ast.specs.Lists.{when};
ghost use Rattle.hook_select.specs.Groups.{has};
ghost use Rattle.hook_mono.specs.declared.HookKey.TheVariants as keys;
ghost use Rattle.i64_split.specs.Split.{words_code};
ghost use Rattle.i64_split.specs.Pushing.{instrs};
ghost use Rattle.rewrite.specs.Setting.{constant, hook_index, tell, tells};
ghost use Rattle.rewrite.specs.Templates.{tell_begin};
ghost use Rattle.rewrite.specs.Emitted.{block_end_code, block_ends_code};

use crate::setting::Setting;
use branch_resolve::EndOf;
use hook_mono::HookKey;
use hook_select::GroupName;
use i64_split::{Temp, push_one, push_two, push_values};
use module_ast::code::Instr;
use std::alloc::AllocError;
use wasm_num::BlockKind;

// Adds a constant for each of these words.
pub(crate) fn push_constants(code: &mut Vec<Instr>, words: &[u32]) -> Result<(), AllocError>
    ensures { OnOk result (code.new.items ≡ code.old.items ++ instrs (map constant words.now)) }
{
    for word in words {
        push_one(code, Instr::I32Const(word.cast_signed()))?;
    }
    Ok(())
}

impl<'m> Setting<'m> {
    /// Adds the words with which each hook call begins: the index of the function and the position. An `Err` comes if there is
    /// no memory.
    pub(crate) fn push_location(
        &self,
        position: i32,
        code: &mut Vec<Instr>,
    ) -> Result<(), AllocError>
        ensures { OnOk result (code.new.items ≡ code.old.items ++ instrs (constant self.now.site.func ∷ i32_const position ∷ [])) }
    {
        let func = self.site.func().cast_signed();
        push_two(code, Instr::I32Const(func), Instr::I32Const(position))
    }

    /// The function index of a hook.
    pub(crate) fn hook_index(&self, key: &HookKey) -> u32
        ensures { result ≡ hook_index self.now key.now }
    {
        self.remap.imports + self.table.find(key).unwrap_or(0)
    }

    /// Adds the call of a hook, without its words. An `Err` comes if there is no memory.
    pub(crate) fn push_call(&self, key: &HookKey, code: &mut Vec<Instr>) -> Result<(), AllocError>
        ensures { OnOk result (code.new.items ≡ code.old.items ++ instrs (call (hook_index self.now key.now) ∷ [])) }
    {
        push_one(code, Instr::Call(self.hook_index(key)))
    }

    /// Adds the call of a hook at a position with these constants and the words of these temporaries. An `Err` comes if there
    /// is no memory.
    pub(crate) fn push_tell(
        &self,
        position: i32,
        key: &HookKey,
        first: &[u32],
        temps: &[Temp],
        code: &mut Vec<Instr>,
    ) -> Result<(), AllocError>
        ensures { OnOk result (code.new.items ≡ code.old.items ++ instrs (tell self.now position key.now (map constant first.now ++ words_code temps.now))) }
    {
        self.push_location(position, code)?;
        push_constants(code, first)?;
        push_values(code, temps)?;
        self.push_call(key, code)
    }

    /// Adds the call of the hook of a group that is a key by itself, if the group is selected. An `Err` comes if there is no
    /// memory.
    pub(crate) fn push_plain_tell(
        &self,
        position: i32,
        group: GroupName,
        code: &mut Vec<Instr>,
    ) -> Result<(), AllocError>
        ensures { OnOk result (code.new.items ≡ code.old.items ++ instrs (when (has self.now.hooks group) (tell self.now position (keys.Plain group) []))) }
    {
        if !self.has(group) {
            return Ok(());
        }
        self.push_tell(position, &HookKey::Plain(group), &[], &[], code)
    }

    /// Adds the call of the begin hook of a block, if begins are selected. An `Err` comes if there is no memory.
    pub fn push_begin(
        &self,
        position: i32,
        kind: BlockKind,
        code: &mut Vec<Instr>,
    ) -> Result<(), AllocError>
        ensures { OnOk result (code.new.items ≡ code.old.items ++ instrs (tell_begin self.now position kind)) }
    {
        if !self.has(GroupName::Begin) {
            return Ok(());
        }
        self.push_tell(position, &HookKey::Begin(kind), &[], &[], code)
    }

    /// Adds the call of the end hook of a block, if ends are selected. An `Err` comes if there is no memory.
    pub fn push_end(&self, block: EndOf, code: &mut Vec<Instr>) -> Result<(), AllocError>
        ensures { OnOk result (code.new.items ≡ code.old.items ++ instrs (block_end_code self.now block)) }
    {
        if !self.has(GroupName::End) {
            return Ok(());
        }
        self.push_location(block.end, code)?;
        push_one(code, Instr::I32Const(block.begin))?;
        self.push_call(&HookKey::End(block.kind), code)
    }

    /// Adds the calls of the end hooks of these blocks, if ends are selected. An `Err` comes if there is no memory.
    pub fn push_ends(&self, blocks: &[EndOf], code: &mut Vec<Instr>) -> Result<(), AllocError>
        ensures { OnOk result (code.new.items ≡ code.old.items ++ instrs (block_ends_code self.now blocks.now)) }
    {
        for block in blocks {
            self.push_end(*block, code)?;
        }
        Ok(())
    }
}
