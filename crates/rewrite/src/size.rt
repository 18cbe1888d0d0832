// How many bytes a rewritten body has.

ghost use Rattle.std.specs.Prelude.{◌≡◌, ◌+◌, ◌*◌, ◌++◌, ◌≤◌, ◌^◌, length, option_map, slice_get, IfOk, Some};
ghost use Rattle.module_ast.specs.Binary.{items_bytes, vec_bytes, group_bytes, body_bytes};
ghost use Rattle.module_ast.specs.Validation.Limits.{longest_file};
ghost use Rattle.hook_mono.specs.Needed.{Site, sites};
ghost use Rattle.i64_split.specs.Split.{pool_groups};
ghost use Rattle.rewrite.specs.Conditions.{CanRewrite, IsReady};
ghost use Rattle.rewrite.specs.Rewrite.{setting_of};
ghost use Rattle.rewrite.specs.Sizes.{size_of, IsNarrow};

use crate::setting::Setting;
use crate::sink::Counted;
use code_valid::TypedBody;
use hook_mono::HookTable;
use hook_select::Hooks;
use index_remap::Remap;
use leb_binary::unsigned_length;
use module_ast::module::Group;
use std::alloc::Global;
use wasm_num::NoMemory;

// How many bytes groups of locals have.
fn groups_length(groups: &[Group]) -> u64
    ensures length { result ≡ length (items_bytes group_bytes groups.now) }
    ensures bound { result ≤ 11 * length groups.now }
{
    let mut total = 0;
    for group in groups {
        total += unsigned_length(u64::from(group.count)) + 1;
    }
    total
}

impl Setting<'_> {
    // How many bytes the locals of the body have: the number of their groups, and the groups, those of the temporaries
    // included.
    fn locals_length(&self, alloc: Global) -> Result<u64, NoMemory>
        requires { length (body_bytes self.now.site.body) ≤ longest_file }
        ensures length { IfOk result (λ n. n ≡ length (vec_bytes group_bytes (self.now.site.body.groups ++ pool_groups self.now.pool))) }
    {
        let own = self.site.body().groups.as_slice();
        let mut added = Vec::new(alloc);
        self.pool.push_groups(&mut added)?;
        let count = unsigned_length(own.len() as u64 + added.len() as u64);
        Ok(count + groups_length(own) + groups_length(&added))
    }

    // How many bytes the body has: its locals, its code, and the `end` after it.
    fn rewritten_length(&self, alloc: Global) -> Result<u64, NoMemory>
        requires ready { IsReady self.now }
        requires narrow { IsNarrow longest_file self.now.site.context }
        requires short { length (body_bytes self.now.site.body) ≤ longest_file }
        ensures length { IfOk result (λ n. n ≡ size_of self.now) }
        ensures bound { IfOk result (λ n. n ≤ 2 ^ 36 * length (body_bytes self.now.site.body)) }
    {
        let locals = self.locals_length(alloc)?;
        let code = self.rewritten_code::<Counted>(alloc)?;
        Ok(locals + code + 1)
    }
}

/// How many bytes the body has that `rewrite_body` makes under the same conditions. They come after the size of the body in
/// the code section, and are at most 2^36 for each byte of the original body. It takes time in proportion to the original
/// body, however many ends its branches pass. An `Err` comes if there is no memory. (Standard, 5.5.13)
pub fn size_of(
    alloc: Global,
    body: TypedBody<'_>,
    hooks: Hooks,
    table: &HookTable,
    remap: Remap,
) -> Result<u64, NoMemory>
    requires added { remap.added ≡ length table.now }
    requires numbers { CanRewrite body.module body.defined hooks table.now remap.imports }
    ensures length { IfOk result (λ n. option_map (λ s. size_of (setting_of hooks table.now remap.imports s)) (slice_get (sites body.entry.module) body.entry.defined) ≡ Some n) }
    ensures bound { IfOk result (λ n. (s : Site) → slice_get (sites body.entry.module) body.entry.defined ≡ Some s → n ≤ 2 ^ 36 * length (body_bytes s.body)) }
{
    // For the proof: the module is whole, so the body is one that a file can have.
    let _ = body.marks();
    let setting = Setting::of(alloc, &body, hooks, table, remap)?;
    setting.rewritten_length(alloc)
}
