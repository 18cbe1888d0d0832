// How bodies are rewritten.

ghost use Rattle.std.specs.Prelude.{◌≡◌, length, option_map, slice_get, Some, IfOk};
ghost use Rattle.hook_mono.specs.Needed.{sites};
ghost use Rattle.rewrite.specs.Rewrite.{rewritten_body, setting_of};
ghost use Rattle.rewrite.specs.Conditions.{CanRewrite};

use crate::body::rewrite_body;
use code_valid::TypedBody;
use hook_mono::HookTable;
use hook_select::Hooks;
use index_remap::Remap;
use module_ast::module::Body;
use std::alloc::Global;
use wasm_num::NoMemory;

/// A way to rewrite bodies, each by itself. Several threads may use it at once.
pub trait Rewriter: Sync {
    /// The body with the hooks of the selected groups, under the conditions of `rewrite_body` and with its result. An `Err`
    /// comes if there is no memory.
    fn body(
        &self,
        alloc: Global,
        body: TypedBody<'_>,
        hooks: Hooks,
        table: &HookTable,
        remap: Remap,
    ) -> Result<Body, NoMemory>
        requires added { remap.added ≡ length table.now }
        requires numbers { CanRewrite body.module body.defined hooks table.now remap.imports }
        ensures { IfOk result (λ made. option_map (λ s. rewritten_body (setting_of hooks table.now remap.imports s)) (slice_get (sites body.entry.module) body.entry.defined) ≡ Some made) };
}

/// The `Rewriter` that calls `rewrite_body`.
#[derive(Clone, Copy)]
pub struct PlainRewriter;

impl Rewriter for PlainRewriter {
    fn body(
        &self,
        alloc: Global,
        body: TypedBody<'_>,
        hooks: Hooks,
        table: &HookTable,
        remap: Remap,
    ) -> Result<Body, NoMemory> {
        rewrite_body(alloc, body, hooks, table, remap)
    }
}
