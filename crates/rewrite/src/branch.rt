// Live branches and returns, which leave blocks and so pass their ends.

ghost use Rattle.std.specs.Prelude.{◌≡◌, ◌∷◌, OnOk, ◌<◌, ◌^◌, List};
ghost use Rattle.module_ast.specs.Structure.Trees as tree;
ghost use Rattle.module_ast.specs.Structure.{Tree, onto, plains};
ghost use Rattle.module_ast.specs.Places.{Scope, left_by};
ghost use Rattle.hook_select.specs.declared.GroupName.TheVariants as groups;
ghost use Rattle.hook_select.specs.Groups.{has};
ghost use Rattle.branch_resolve.specs.Scopes.{blocks_around};
ghost use Rattle.rewrite.specs.Rewrite.{if_taken, br_if_before};
ghost use Rattle.rewrite.specs.Templates.{template};
ghost use Rattle.rewrite.specs.Sizes.{AreSummed};
ghost use Rattle.rewrite_needs.specs.Temporaries.{plain_temps, watches_br_if};
ghost use Rattle.rewrite.specs.Emitted.{HasRoom};

use crate::around::Around;
use crate::setting::Setting;
use crate::sink::{Opening, Sink, put};
use crate::templates::push_tee;
use hook_select::GroupName;
use i64_split::{Temp, push_gets};
use module_ast::code::{BlockType, Instr};
use std::alloc::{AllocError, Global};
use wasm_num::ValType;

impl Setting<'_> {
    // Adds a `br`. The hook calls before it tell where it leads, and then the ends that it passes.
    pub(crate) fn push_br<S: Sink>(
        &self,
        alloc: Global,
        label: u32,
        around: &Around,
        position: u32,
        sink: &mut S,
        code: &mut Vec<Instr>,
    ) -> Result<(), AllocError>
        requires low { position < 2 ^ 31 }
        requires sums { AreSummed self.now around.now }
        ensures { OnOk result ((ss : List Scope) → around.now.scopes ≡ blocks_around ss → (t : Tree) → S.whole sink.new (onto code.new.items t) ≡ S.whole sink.old (onto code.old.items (plains (template self.now ss position (tree.br label)) t))) }
    {
        self.push_branch_tell(
            GroupName::Br,
            label,
            &around.scopes,
            &[],
            position as i32,
            code,
        )?;
        sink.put_left(alloc, self, around, label, code)?;
        put(Instr::Br(label), sink, code)
    }

    // Adds a `return`. The hook calls before it tell the results, and then the ends of all open blocks.
    pub(crate) fn push_return<S: Sink>(
        &self,
        alloc: Global,
        around: &Around,
        position: u32,
        sink: &mut S,
        code: &mut Vec<Instr>,
    ) -> Result<(), AllocError>
        requires low { position < 2 ^ 31 }
        requires room { HasRoom self.now.pool (plain_temps self.now.hooks self.now.site position tree.return_) }
        requires sums { AreSummed self.now around.now }
        ensures { OnOk result ((ss : List Scope) → around.now.scopes ≡ blocks_around ss → (t : Tree) → S.whole sink.new (onto code.new.items t) ≡ S.whole sink.old (onto code.old.items (plains (template self.now ss position tree.return_) t))) }
    {
        self.push_results(alloc, position as i32, code)?;
        sink.put_all(alloc, self, around, code)?;
        put(Instr::Return, sink, code)
    }

    // Whether a `br_if` gets hook calls: it does if `br_if` or ends are selected.
    fn watches_br_if(&self) -> bool
        ensures { result ≡ watches_br_if self.now.hooks }
    {
        self.has(GroupName::BrIf) || self.has(GroupName::End)
    }

    // Adds the hook calls for the ends that a `br_if` passes, if ends are selected. They are made when the branch is taken.
    fn push_taken<S: Sink>(
        &self,
        alloc: Global,
        label: u32,
        around: &Around,
        temps: &[Temp],
        sink: &mut S,
        code: &mut Vec<Instr>,
    ) -> Result<(), AllocError>
        requires sums { AreSummed self.now around.now }
        ensures { OnOk result ((ss : List Scope) → around.now.scopes ≡ blocks_around ss → (k : Tree) → S.whole sink.new (onto code.new.items k) ≡ S.whole sink.old (onto code.old.items (if_taken (has self.now.hooks groups.End) self.now (left_by ss label) temps.now k))) }
    {
        if !self.has(GroupName::End) {
            return Ok(());
        }
        push_gets(code, temps)?;
        let mut ends = S::new();
        let mut inside = S::list(alloc, 0)?;
        ends.put_left(alloc, self, around, label, &mut inside)?;
        let told = ends.finish(alloc, inside)?;
        sink.put_block(Opening::If, BlockType::Empty, told, code)
    }

    /// Adds a live `br_if` by its template. An `Err` comes if there is no memory.
    pub(crate) fn push_br_if<S: Sink>(
        &self,
        alloc: Global,
        label: u32,
        around: &Around,
        position: u32,
        sink: &mut S,
        code: &mut Vec<Instr>,
    ) -> Result<(), AllocError>
        requires low { position < 2 ^ 31 }
        requires room { HasRoom self.now.pool (plain_temps self.now.hooks self.now.site position (tree.br_if label)) }
        requires sums { AreSummed self.now around.now }
        ensures { OnOk result ((ss : List Scope) → around.now.scopes ≡ blocks_around ss → (k : Tree) → S.whole sink.new (onto code.new.items k) ≡ S.whole sink.old (onto code.old.items (br_if_before (watches_br_if self.now.hooks) self.now ss position label k))) }
    {
        if !self.watches_br_if() {
            return put(Instr::BrIf(label), sink, code);
        }
        let kept = self.one_temp(ValType::I32);
        let temps = kept.as_slice();
        push_tee(temps, code)?;
        let to = &around.scopes;
        self.push_branch_tell(GroupName::BrIf, label, to, temps, position as i32, code)?;
        self.push_taken(alloc, label, around, temps, sink, code)?;
        put(Instr::BrIf(label), sink, code)
    }
}
