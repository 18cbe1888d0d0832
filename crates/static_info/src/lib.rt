// Information: what must be known of a module to read the hook calls of its output.
#![tactic(auto)]

ghost use Rattle.std.specs.Prelude.{◌≡◌, ◌^◌, ◌<◌, length};

mod blocks;
mod checks;
mod forms;
mod gather;
mod groups;
mod keys;
pub mod laws;
mod owner;
mod parsing;
mod written;

pub use crate::blocks::BlockTable;
pub use crate::gather::info_of;
pub use crate::owner::belongs;
pub use crate::parsing::{InfoFault, from_json};
pub use crate::written::to_json;
use hook_mono::HookKey;
use hook_select::Hooks;
use index_remap::Remap;
use module_ast::name::Name;
use module_ast::seq::Seq;
use wasm_num::ValType;

/// A br_table: its position in the body, from 0, and its labels. There is at least one label, and the last one is the default.
#[derive(Drop)]
pub struct TableInfo {
    pub pos: i32,
    pub labels: Seq<u32>,
}

/// A function of the original: its type, whether the module defines it, and its live blocks and br_tables in the order of their
/// positions. An imported function has no blocks and no br_tables.
#[derive(Drop)]
pub struct FuncInfo {
    pub params: Seq<ValType>,
    pub results: Seq<ValType>,
    pub defined: bool,
    pub blocks: BlockTable,
    pub tables: Seq<TableInfo>,
}

/// Information on a module: the selected groups, the number of function imports of the original, the hooks in import order,
/// the functions of the original, imported ones first, and the names of its custom sections in file order.
#[derive(Drop)]
pub struct Info {
    pub groups: Hooks,
    pub imports: u32,
    pub hooks: Seq<HookKey>,
    pub functions: Seq<FuncInfo>,
    pub dropped: Seq<Name>,
}

impl Info {
    ghost use Rattle.index_remap.specs.Remap.{unmap_index};
    ghost use Rattle.static_info.specs.Read.{info_remap};

    /// How function indices change from the original to the output.
    pub fn remap(&self) -> Remap
        requires { length self.now.hooks < 2 ^ 32 }
        ensures { result ≡ info_remap self.now }
    {
        Remap {
            imports: self.imports,
            added: self.hooks.as_slice().len() as u32,
        }
    }

    /// The index in the original of the function that has index `f` in the output; `None` exactly if that function is a hook.
    pub fn unmap(&self, f: u32) -> Option<u32>
        ensures { result ≡ unmap_index (info_remap self.now) f }
    {
        if self.hooks.as_slice().len() <= u32::MAX as usize {
            return self.remap().unmap(f);
        }
        // If there are 2^32 hooks or more, each index from `imports` on is that of a hook.
        if f < self.imports { Some(f) } else { None }
    }
}
