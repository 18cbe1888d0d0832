// The rules on tables and memories. Each function `keeps_..` decides one rule exactly.

ghost use Rattle.std.specs.Prelude.{◌≡◌, ◌↔◌, IsTrue, All};
ghost use Rattle.module_ast.specs.Validation.{IsOrdered, HasPagesWithin, Keeps, one_table, one_memory, table_limits, memory_pages, memory_limits};
ghost use Rattle.module_ast.specs.Structure.{space_counts};
ghost use Rattle.wasm_valid.specs.Imported.{IfTable, IfMemory};

use module_ast::module::{Import, Item, Module, Range};
use module_ast::spaces::Counts;

/// Whether there is at most one table, imports counted. (Standard, 3.4.10)
pub(crate) fn keeps_one_table(m: &Module, counts: &Counts) -> bool
    requires { counts.now ≡ space_counts m.now }
    ensures { IsTrue result ↔ Keeps m.now one_table }
{
    counts.tables <= 1
}

/// Whether there is at most one memory, imports counted. (Standard, 3.4.10)
pub(crate) fn keeps_one_memory(m: &Module, counts: &Counts) -> bool
    requires { counts.now ≡ space_counts m.now }
    ensures { IsTrue result ↔ Keeps m.now one_memory }
{
    counts.memories <= 1
}

// Whether the maximum, if there is one, is not below the minimum.
fn is_ordered(range: &Range) -> bool
    ensures { IsTrue result ↔ IsOrdered range.now }
{
    match range.max {
        Some(max) => range.min <= max,
        None => true,
    }
}

// Whether neither the minimum nor the maximum, if there is one, is above 65,536.
fn has_few_pages(range: &Range) -> bool
    ensures { IsTrue result ↔ HasPagesWithin 65536 range.now }
{
    range.min <= 65_536
        && match range.max {
            Some(max) => max <= 65_536,
            None => true,
        }
}

fn is_ordered_table(import: &Import) -> bool
    ensures { IsTrue result ↔ IfTable import.now.item IsOrdered }
{
    match &import.item {
        Item::Table(range) => is_ordered(range),
        _ => true,
    }
}

fn is_ordered_memory(import: &Import) -> bool
    ensures { IsTrue result ↔ IfMemory import.now.item IsOrdered }
{
    match &import.item {
        Item::Memory(range) => is_ordered(range),
        _ => true,
    }
}

fn has_few_memory_pages(import: &Import) -> bool
    ensures { IsTrue result ↔ IfMemory import.now.item (HasPagesWithin 65536) }
{
    match &import.item {
        Item::Memory(range) => has_few_pages(range),
        _ => true,
    }
}

fn imports_ordered_tables(imports: &[Import]) -> bool
    ensures { IsTrue result ↔ All (λ i. IfTable i.item IsOrdered) imports.now }
{
    imports.iter().all(is_ordered_table)
}

fn imports_ordered_memories(imports: &[Import]) -> bool
    ensures { IsTrue result ↔ All (λ i. IfMemory i.item IsOrdered) imports.now }
{
    imports.iter().all(is_ordered_memory)
}

fn imports_few_pages(imports: &[Import]) -> bool
    ensures { IsTrue result ↔ All (λ i. IfMemory i.item (HasPagesWithin 65536)) imports.now }
{
    imports.iter().all(has_few_memory_pages)
}

fn are_ordered(ranges: &[Range]) -> bool
    ensures { IsTrue result ↔ All IsOrdered ranges.now }
{
    ranges.iter().all(is_ordered)
}

fn have_few_pages(ranges: &[Range]) -> bool
    ensures { IsTrue result ↔ All (HasPagesWithin 65536) ranges.now }
{
    ranges.iter().all(has_few_pages)
}

/// Whether no table has a maximum below its minimum. (Standard, 3.2.4)
pub(crate) fn keeps_table_limits(m: &Module) -> bool
    ensures { IsTrue result ↔ Keeps m.now table_limits }
{
    imports_ordered_tables(m.imports.as_slice()) && are_ordered(m.tables.as_slice())
}

/// Whether no memory has a minimum or a maximum above 65,536 pages. (Standard, 3.2.5)
pub(crate) fn keeps_memory_pages(m: &Module) -> bool
    ensures { IsTrue result ↔ Keeps m.now memory_pages }
{
    imports_few_pages(m.imports.as_slice()) && have_few_pages(m.memories.as_slice())
}

/// Whether no memory has a maximum below its minimum. (Standard, 3.2.5)
pub(crate) fn keeps_memory_limits(m: &Module) -> bool
    ensures { IsTrue result ↔ Keeps m.now memory_limits }
{
    imports_ordered_memories(m.imports.as_slice()) && are_ordered(m.memories.as_slice())
}
