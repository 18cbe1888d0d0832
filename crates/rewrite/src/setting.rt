// What the rewriting of a body reads.

ghost use Rattle.std.specs.Prelude.{◌≡◌, ℕ, length, slice_get, Some, IfOk};
ghost use Rattle.hook_select.specs.Groups.{has};
ghost use Rattle.hook_mono.specs.Needed.{sites};
ghost use Rattle.rewrite_needs.specs.Watching.{instr_watch, is_untold};
ghost use Rattle.rewrite.specs.Rewrite.{setting_of};
ghost use Rattle.rewrite.specs.Conditions.{CanRewrite, IsReady};

use code_valid::TypedBody;
use hook_mono::HookTable;
use hook_select::{GroupName, Hooks};
use i64_split::Pool;
use index_remap::Remap;
use module_ast::code::Instr;
use rewrite_needs::{Site, Watch, is_untold, pool_of, watch_of};
use std::alloc::Global;
use std::marker::Model;
use wasm_num::NoMemory;

/// What the rewriting of a body reads: the selected groups, the hooks of the module, how functions are remapped, the function
/// itself, and its temporaries.
#[derive(Drop)]
pub(crate) struct Setting<'m> {
    pub(crate) hooks: Hooks,
    pub(crate) table: &'m HookTable,
    pub(crate) remap: Remap,
    pub(crate) site: Site<'m>,
    pub(crate) pool: Pool,
}

impl<'m> Model for Setting<'m> {
    ghost use Rattle.std.specs.Prelude.{◌≡◌, ◌+◌, ◌^◌, ◌<◌, length};
    ghost use Rattle.rewrite.specs.Setting.{Setting as shown};
    ghost use Rattle.module_ast.specs.contracts.module.Body as of_body;
    ghost use Rattle.std.specs.Coded.{codes};

    ghost Value = { shown };

    ghost coded = { Prim.hlevel (codes, of_body.the_row.coded) };

    ghost view = { λ a. record { hooks = a.hooks; keys = a.table.now; imports = a.remap.imports; site = a.site; pool = a.pool } };

    ghost invariant = { λ a. (a.remap.added ≡ length a.table.now) × (a.remap.imports + length a.table.now < 2 ^ 32) };
}

impl<'m> Setting<'m> {
    /// The setting for the function that has this body, under the conditions of `rewrite_body`. It takes time in proportion to
    /// the body. An `Err` comes if there is no memory.
    pub fn of(
        alloc: Global,
        body: &TypedBody<'m>,
        hooks: Hooks,
        table: &'m HookTable,
        remap: Remap,
    ) -> Result<Setting<'m>, NoMemory>
        requires added { remap.added ≡ length table.now }
        requires numbers { CanRewrite body.now.module body.now.defined hooks table.now remap.imports }
        ensures site { IfOk result (λ w. slice_get (sites body.now.module) body.now.defined ≡ Some w.site) }
        ensures is { IfOk result (λ w. w ≡ setting_of hooks table.now remap.imports w.site) }
        ensures ready { IfOk result IsReady }
    {
        let site = Site::of(alloc, body)?;
        let pool = pool_of(&site, hooks);
        Ok(Setting {
            hooks,
            table,
            remap,
            site,
            pool,
        })
    }

    /// Whether an instruction has a hook of its own that is not called. The instruction is then its own template.
    pub fn is_untold(&self, instr: &Instr) -> bool
        ensures { (p : ℕ) → result ≡ is_untold self.now.hooks (instr_watch self.now.site p instr.now) }
    {
        is_untold(&self.hooks, instr)
    }

    /// What is told of an instruction at a position. Nothing is told here of a branch, a call or an instruction with a sequence
    /// in it.
    pub fn watch(&self, position: u32, instr: &Instr) -> Option<Watch>
        ensures { result ≡ instr_watch self.now.site position instr.now }
    {
        watch_of(&self.site, position, instr)
    }

    /// Whether the group is selected.
    pub fn has(&self, group: GroupName) -> bool
        ensures { result ≡ has self.now.hooks group }
    {
        self.hooks.has(group)
    }
}
