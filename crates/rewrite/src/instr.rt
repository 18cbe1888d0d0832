// Live instructions that have no sequence in them.

ghost use Rattle.std.specs.Prelude.{◌≡◌, ◌++◌, ◌∷◌, OnOk, ◌<◌, ◌^◌, List};
ghost use Rattle.module_ast.specs.Structure.Trees as tree;
ghost use Rattle.module_ast.specs.Structure.{done, before, plain_of};
ghost use Rattle.module_ast.specs.Places.{Scope};
ghost use Rattle.module_ast.specs.Lists.{when};
ghost use Rattle.branch_resolve.specs.Scopes.{ends};
ghost use Rattle.hook_select.specs.Groups.{has};
ghost use Rattle.hook_mono.specs.declared.HookKey.TheVariants as keys;
ghost use Rattle.i64_split.specs.Pushing.{instrs};
ghost use Rattle.i64_split.specs.Split.{words_code};
ghost use Rattle.index_remap.specs.Remap.{Maps};
ghost use Rattle.rewrite_needs.specs.Room.{instr_temps};
ghost use Rattle.rewrite_needs.specs.Temporaries.{branch_temps, plain_temps};
ghost use Rattle.rewrite_needs.specs.Watching.{or_none};
ghost use Rattle.rewrite.specs.Setting.{remap, tell, constant};
ghost use Rattle.rewrite.specs.Templates.{template};
ghost use Rattle.rewrite.specs.Emitted.{HasRoom, PassesNone, template_of, branch_of, block_ends_code, all_ends_code, target_word};

use crate::setting::Setting;
use branch_resolve::Scopes;
use hook_mono::HookKey;
use hook_select::GroupName;
use i64_split::{Temp, push_one};
use module_ast::code::Instr;
use module_ast::labels::Labels;
use std::alloc::{AllocError, Global};

impl<'m> Setting<'m> {
    // Adds the calls of the end hooks of the blocks that a branch to the label leaves.
    pub(crate) fn push_left(
        &self,
        alloc: Global,
        label: u32,
        scopes: &Scopes,
        code: &mut Vec<Instr>,
    ) -> Result<(), AllocError>
        ensures { OnOk result (code.new.items ≡ code.old.items ++ instrs (block_ends_code self.now (ends scopes.now label))) }
    {
        if !self.has(GroupName::End) {
            return Ok(());
        }
        let ends = scopes.ends(alloc, label)?;
        self.push_ends(&ends, code)
    }

    // Adds the calls of the end hooks of all open blocks.
    pub(crate) fn push_all_ends(
        &self,
        alloc: Global,
        scopes: &Scopes,
        code: &mut Vec<Instr>,
    ) -> Result<(), AllocError>
        ensures { OnOk result (code.new.items ≡ code.old.items ++ instrs (all_ends_code self.now scopes.now)) }
    {
        if !self.has(GroupName::End) {
            return Ok(());
        }
        let ends = scopes.all_ends(alloc)?;
        self.push_ends(&ends, code)
    }

    /// Adds the hook call that tells a branch, if its group is selected. The call tells the label, the position that the label
    /// leads to (0 if there is no such block), and the words of these temporaries. An `Err` comes if there is no memory.
    pub fn push_branch_tell(
        &self,
        group: GroupName,
        label: u32,
        scopes: &Scopes,
        temps: &[Temp],
        position: i32,
        code: &mut Vec<Instr>,
    ) -> Result<(), AllocError>
        ensures { OnOk result (code.new.items ≡ code.old.items ++ instrs (when (has self.now.hooks group) (tell self.now position (keys.Plain group) (constant label ∷ constant (target_word scopes.now label) ∷ words_code temps.now)))) }
    {
        if !self.has(group) {
            return Ok(());
        }
        let words = [label, target_word(scopes, label)];
        self.push_tell(position, &HookKey::Plain(group), &words, temps, code)
    }

    // Adds a `br_table`. A hook call before it tells the index, if branch tables or ends are selected.
    fn push_table(
        &self,
        alloc: Global,
        labels: &Labels,
        last: u32,
        position: u32,
        code: &mut Vec<Instr>,
    ) -> Result<(), AllocError>
        requires low { position < 2 ^ 31 }
        requires room { HasRoom self.now.pool (plain_temps self.now.hooks self.now.site position (tree.br_table labels.now last)) }
        ensures { (ss : List Scope) → OnOk result (code.new.items ≡ code.old.items ++ instrs (template self.now ss position (tree.br_table labels.now last))) }
    {
        let wanted = self.has(GroupName::BrTable) || self.has(GroupName::End);
        self.push_tell_before(position as i32, GroupName::BrTable, wanted, code)?;
        let labels = Labels::from_vec(alloc, labels.as_slice().to_vec(alloc)?)?;
        push_one(code, Instr::BrTable(labels, last))
    }

    // Adds a live `br_table` or call by its template. It adds nothing for another instruction.
    fn push_calling(
        &self,
        alloc: Global,
        instr: &Instr,
        position: u32,
        code: &mut Vec<Instr>,
    ) -> Result<(), AllocError>
        requires staying { PassesNone instr.now }
        requires low { position < 2 ^ 31 }
        requires room { HasRoom self.now.pool (or_none (branch_temps self.now.hooks self.now.site) (plain_of instr.now)) }
        requires maps { Maps (remap self.now) (before instr.now done) }
        ensures { OnOk result ((ss : List Scope) → code.new.items ≡ code.old.items ++ instrs (branch_of self.now ss position instr.now)) }
    {
        match instr {
            Instr::BrTable(labels, last) => self.push_table(alloc, labels, *last, position, code),
            Instr::Call(func) => self.push_call_of(alloc, *func, position, code),
            Instr::CallIndirect(ty) => self.push_indirect_of(alloc, *ty, position, code),
            _ => Ok(()),
        }
    }

    /// Adds a live instruction by its template. The instruction has no sequence in it, and is not a `br`, a `br_if` or a
    /// `return`, which pass ends. An `Err` comes if there is no memory.
    pub(crate) fn push_plain(
        &self,
        alloc: Global,
        instr: &Instr,
        position: u32,
        code: &mut Vec<Instr>,
    ) -> Result<(), AllocError>
        requires staying { PassesNone instr.now }
        requires low { position < 2 ^ 31 }
        requires room { HasRoom self.now.pool (instr_temps self.now.hooks self.now.site position instr.now) }
        requires maps { Maps (remap self.now) (before instr.now done) }
        ensures { OnOk result ((ss : List Scope) → code.new.items ≡ code.old.items ++ instrs (template_of self.now ss position instr.now)) }
    {
        if self.is_untold(instr) {
            return push_one(code, self.remap.map_instr(alloc, instr)?);
        }
        match self.watch(position, instr) {
            Some(watch) => {
                let copy = self.remap.map_instr(alloc, instr)?;
                self.push_watched(alloc, &watch, copy, position as i32, code)
            }
            None => self.push_calling(alloc, instr, position, code),
        }
    }
}

// The position that a branch to the label leads to, as a word. It is 0 if the function has no block with the label.
fn target_word(scopes: &Scopes, label: u32) -> u32
    ensures { result ≡ target_word scopes.now label }
{
    scopes.target(label).unwrap_or(0).cast_unsigned()
}
