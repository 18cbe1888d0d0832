// The words for the numbers in rows.

ghost use Rattle.std.specs.Prelude.{◌≡◌};
ghost use Rattle.report.specs.Text.{access_name, branch_name, kind_text, part_name};

use analyses::Kind;
use module_ast::ops::{LoadOp, StoreOp};
use wasm_num::BlockKind;

/// The word for a kind of report.
pub(crate) fn kind_word(kind: Kind) -> &'static str
    ensures { result.now ≡ kind_text kind }
{
    match kind {
        Kind::Blocks => "blocks",
        Kind::Branches => "branches",
        Kind::Calls => "calls",
        Kind::Memory => "memory",
    }
}

/// The name of the kind of block with this number; empty if the number is above 4.
pub(crate) fn part_word(tag: u8) -> &'static str
    ensures { result.now ≡ part_name tag }
{
    BlockKind::of_number(tag).map_or("", |kind| kind.name())
}

/// The name of the branching instruction with this number, 0 to 3.
pub(crate) fn branch_word(tag: u8) -> &'static str
    ensures { result.now ≡ branch_name tag }
{
    match tag {
        0 => "if",
        1 => "br",
        2 => "br_if",
        _ => "br_table",
    }
}

/// The name of the load or store with this opcode; empty if there is none. (Standard, 6.5.6)
pub(crate) fn access_word(opcode: u8) -> &'static str
    ensures { result.now ≡ access_name opcode }
{
    match (LoadOp::of_opcode(opcode), StoreOp::of_opcode(opcode)) {
        (Some(load), _) => load.name(),
        (None, Some(store)) => store.name(),
        (None, None) => "",
    }
}
