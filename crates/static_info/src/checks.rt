// Checks the form of the functions of information.

ghost use Rattle.std.specs.Prelude.{◌≡◌, ◌↔◌, ◌≢◌, negsuc, IsTrue};
ghost use Rattle.wasm_num.specs.declared.BlockKind.TheVariants as kinds;
ghost use Rattle.static_info.specs.Form.{IsPosition, AreBlocks, AreBlocksAfter, AreLabels, AreTablesAfter, IsImported, IsDefined};
ghost use Rattle.static_info.specs.Checks.{IsNextBlock, IsNextTable, AreFunctions};

use crate::{FuncInfo, TableInfo};
use branch_resolve::Block;
use module_ast::module::DEEPEST;
use wasm_num::BlockKind;

// Whether these can be the functions of information: there are fewer than 2^32, the first `imports` have the form of imported
// functions, and the others have the form of defined ones.
pub(crate) fn are_functions(imports: u32, functions: &[FuncInfo]) -> bool
    ensures { IsTrue result ↔ AreFunctions imports functions.now }
{
    let imports = imports as usize;
    if functions.len() > u32::MAX as usize || imports > functions.len() {
        return false;
    }
    functions[..imports].iter().all(|func| is_imported(func))
        && functions[imports..].iter().all(|func| is_defined(func))
}

// Whether the function has the form of an imported one: it is not defined, and has no blocks and no br_tables.
fn is_imported(func: &FuncInfo) -> bool
    ensures { IsTrue result ↔ IsImported func.now }
{
    !func.defined && func.blocks.as_slice().is_empty() && func.tables.as_slice().is_empty()
}

// Whether the function has the form of a defined one: it is defined, and its blocks and br_tables have their forms.
fn is_defined(func: &FuncInfo) -> bool
    ensures { IsTrue result ↔ IsDefined func.now }
{
    func.defined && are_blocks(func.blocks.as_slice()) && are_tables_after(func.tables.as_slice())
}

// Whether the first block is a whole function, and the others are blocks inside it.
fn are_blocks(blocks: &[Block]) -> bool
    ensures { IsTrue result ↔ AreBlocks blocks.now }
{
    match blocks {
        [func, rest @ ..] => is_whole(func) && are_blocks_after(rest),
        [] => false,
    }
}

// Whether the block is a whole function: it begins at the entry, -1, and its end and its target are at least 0.
fn is_whole(func: &Block) -> bool
    ensures { IsTrue result
        ↔ ((func.now.kind ≡ kinds.Function) × (func.now.begin ≡ negsuc 0)
        × IsPosition func.now.end × IsPosition func.now.target) }
{
    func.kind == BlockKind::Function
        && func.begin == -1
        && is_position(func.end)
        && is_position(func.target)
}

// Whether these are blocks inside a function, in ascending order of their begins.
fn are_blocks_after(blocks: &[Block]) -> bool
    ensures { IsTrue result ↔ AreBlocksAfter (negsuc 0) blocks.now }
{
    let mut last = -1;
    for block in blocks {
        if !is_next_block(last, block) {
            return false;
        }
        last = block.begin;
    }
    true
}

// Whether these are br_tables in ascending order of their positions.
fn are_tables_after(tables: &[TableInfo]) -> bool
    ensures { IsTrue result ↔ AreTablesAfter (negsuc 0) tables.now }
{
    let mut last = -1;
    for table in tables {
        if !is_next_table(last, table) {
            return false;
        }
        last = table.pos;
    }
    true
}

// Whether this is a block inside a function that begins after position `last`.
fn is_next_block(last: i32, block: &Block) -> bool
    ensures { IsTrue result ↔ IsNextBlock last block.now }
{
    block.kind != BlockKind::Function
        && last < block.begin
        && is_position(block.begin)
        && is_position(block.end)
        && is_position(block.target)
}

// Whether this is a br_table after position `last`, with the labels of a br_table.
fn is_next_table(last: i32, table: &TableInfo) -> bool
    ensures { IsTrue result ↔ IsNextTable last table.now }
{
    last < table.pos && is_position(table.pos) && are_labels(table.labels.as_slice())
}

// Whether the position is at least 0.
fn is_position(position: i32) -> bool
    ensures { IsTrue result ↔ IsPosition position }
{
    0 <= position
}

// Whether there is at least one label, and each is at most the deepest nesting.
fn are_labels(labels: &[u32]) -> bool
    ensures { IsTrue result ↔ AreLabels labels.now }
{
    !labels.is_empty() && labels.iter().all(|label| *label <= DEEPEST)
}
