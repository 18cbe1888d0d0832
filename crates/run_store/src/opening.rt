// The store of a run when it opens. (Standard, 4.5.4)

ghost use Rattle.std.specs.Prelude.{◌≡◌, ◌*◌, ◌≤◌, ◌+◌, IfOk, OnOk, length, map, replicate, true, slice_get, None, Some};
ghost use Rattle.module_ast.specs.Memory.{overlay, page_size};
ghost use Rattle.module_ast.specs.Structure.{tables_of, memories_of, before, done};
ghost use Rattle.wasm_sem.specs.Execution.{initial_value, offset_of, opening_imports, opening_globals, least_size, page_limit, fit_segments, with_segments, fit_elements, with_elements};

use crate::memory::Memory;
use crate::table::Table;
use crate::values::{value_of, zero};
use module_ast::code::{Code, Instr};
use module_ast::module::{Item, Module, Range, Segment};
use std::alloc::Global;
use wasm_num::{NoMemory, ValType, Value};
use wasm_sem::Script;

// The value of an initialiser that is this one instruction. (Standard, 3.3.7)
fn initial_value_in(ty: ValType, imports: &[Value], instr: &Instr) -> Value
    ensures { result ≡ initial_value ty imports.now (before instr.now done) }
{
    match instr {
        Instr::I32Const(number) => Value::I32(number.cast_unsigned()),
        Instr::I64Const(number) => Value::I64(number.cast_unsigned()),
        Instr::GlobalGet(index) => imports.get(*index as usize).copied().unwrap_or(zero(ty)),
        _ => zero(ty),
    }
}

// The value of an initialiser, which reads only imported globals. (Standard, 3.3.7)
fn initial_value(ty: ValType, imports: &[Value], init: &Code) -> Value
    ensures { result ≡ initial_value ty imports.now init.now }
{
    let default = zero(ty);
    match init.as_slice() {
        [only] => initial_value_in(ty, imports, only),
        _ => default,
    }
}

// The offset of a segment whose offset expression is this one instruction. (Standard, 4.5.4)
fn offset_in(globals: &[Value], instr: &Instr) -> u32
    ensures { result ≡ offset_of globals.now (before instr.now done) }
{
    match instr {
        Instr::I32Const(number) => number.cast_unsigned(),
        Instr::GlobalGet(index) => match globals.get(*index as usize) {
            Some(Value::I32(number)) => *number,
            _ => 0,
        },
        _ => 0,
    }
}

/// The address or slot where a segment with this offset expression begins. (Standard, 4.5.4)
pub fn offset_of(globals: &[Value], offset: &Code) -> u32
    ensures { result ≡ offset_of globals.now offset.now }
{
    match offset.as_slice() {
        [only] => offset_in(globals, only),
        _ => 0,
    }
}

// The values of the imported globals: those of the script in order, and 0 for each global past the last of them.
fn open_imports(alloc: Global, m: &Module, script: &Script) -> Result<Vec<Value>, NoMemory>
    ensures { IfOk result (λ v. v.items ≡ opening_imports m.now script.now) }
{
    let mut values = Vec::new(alloc);
    for import in m.imports.as_slice() {
        if let Item::Global(global) = import.item {
            let number = script.globals.as_slice().get(values.len()).copied();
            values.push(value_of(global.ty, number.unwrap_or(0)))?;
        }
    }
    Ok(values)
}

/// The values of the globals when a run opens: the imported ones as the script gives them, then the others by their
/// initialisers. `NoMemory` if memory runs out. (Standard, 4.5.4)
pub fn open_globals(alloc: Global, m: &Module, script: &Script) -> Result<Vec<Value>, NoMemory>
    ensures { IfOk result (λ v. v.items ≡ opening_globals m.now script.now) }
{
    let mut values = open_imports(alloc, m, script)?;
    let imported = values.len();
    for global in m.globals.as_slice() {
        let value = initial_value(global.ty.ty, &values[..imported], &global.init);
        values.push(value)?;
    }
    Ok(values)
}

// The limits of the module's table, imported or not; `None` if there is no table. (Standard, 2.5.4)
fn table_range(m: &Module) -> Option<Range>
    ensures { result ≡ slice_get (tables_of m.now) 0 }
{
    for import in m.imports.as_slice() {
        if let Item::Table(range) = import.item {
            return Some(range);
        }
    }
    m.tables.as_slice().first().copied()
}

// The limits of the module's memory, imported or not; `None` if there is no memory. (Standard, 2.5.5)
fn memory_range(m: &Module) -> Option<Range>
    ensures { result ≡ slice_get (memories_of m.now) 0 }
{
    for import in m.imports.as_slice() {
        if let Item::Memory(range) = import.item {
            return Some(range);
        }
    }
    m.memories.as_slice().first().copied()
}

// Writes the data of all segments to the memory, in order. Each ends within the memory. (Standard, 4.5.4)
fn write_segments(memory: &mut Memory, globals: &[Value], segments: &[Segment])
    requires { fit_segments globals.now (length memory.old.bytes) segments.now ≡ true }
    ensures bytes { memory.new.bytes ≡ with_segments globals.now segments.now memory.old.bytes }
    ensures max { memory.new.max ≡ memory.old.max }
{
    for segment in segments {
        let start = offset_of(globals, &segment.offset);
        // It can't fail: the segment ends within the memory.
        let _ = memory.write(u64::from(start), segment.bytes.as_slice());
    }
}

// How many pages a memory has at first, and how many it may have.
#[derive(Clone, Copy)]
struct Pages {
    least: u32,
    most: u32,
}

// The pages of the module's memory; 0 if there is no memory. The script's cap is one of the bounds. (Standard, 4.4.4)
#[tactic(auto, using(crate::proofs::Ranges::first_least, crate::proofs::Ranges::first_most, crate::proofs::Ranges::none_least, crate::proofs::Ranges::none_most))]
fn pages_of(m: &Module, script: &Script) -> Pages
    ensures least { result.least ≡ least_size (memories_of m.now) }
    ensures most { result.most ≡ page_limit script.now.pages (memories_of m.now) }
{
    match memory_range(m) {
        Some(range) => Pages {
            least: range.min,
            most: script.pages.min(range.max.unwrap_or(65_536).min(65_536)),
        },
        None => Pages { least: 0, most: 0 },
    }
}

/// The memory when a run opens: zeros, over which the data of all segments is written. `NoMemory` if memory runs out.
/// (Standard, 4.5.4)
pub fn open_memory(
    alloc: Global,
    m: &Module,
    script: &Script,
    globals: &[Value],
) -> Result<Memory, NoMemory>
    requires cap { script.now.pages ≤ 4096 }
    requires least { least_size (memories_of m.now) ≤ page_limit script.now.pages (memories_of m.now) }
    requires fits { fit_segments globals.now (least_size (memories_of m.now) * page_size) m.now.segments ≡ true }
    ensures bytes { IfOk result (λ a. a.bytes ≡ with_segments globals.now m.now.segments (replicate (least_size (memories_of m.now) * page_size) 0)) }
    ensures most { IfOk result (λ a. a.max ≡ page_limit script.now.pages (memories_of m.now)) }
{
    let pages = pages_of(m, script);
    let mut memory = Memory::new(alloc, pages.least, pages.most)?;
    write_segments(&mut memory, globals, m.segments.as_slice());
    Ok(memory)
}

/// The least number of pages of the module's memory; 0 if there is no memory. (Standard, 2.5.5)
#[tactic(auto, using(crate::proofs::Ranges::first_least, crate::proofs::Ranges::none_least))]
pub fn least_pages(m: &Module) -> u32
    ensures { result ≡ least_size (memories_of m.now) }
{
    match memory_range(m) {
        Some(range) => range.min,
        None => 0,
    }
}

/// The least number of slots of the module's table; 0 if there is no table. (Standard, 2.5.4)
#[tactic(auto, using(crate::proofs::Ranges::first_least, crate::proofs::Ranges::none_least))]
pub fn least_slots(m: &Module) -> u32
    ensures { result ≡ least_size (tables_of m.now) }
{
    match table_range(m) {
        Some(range) => range.min,
        None => 0,
    }
}

// Puts functions into the slots from `start` on. They end within the table.
fn place_functions(
    alloc: Global,
    slots: &mut Vec<Option<u32>>,
    start: usize,
    funcs: &[u32],
) -> Result<(), NoMemory>
    requires { start + length funcs.now ≤ length slots.old.items }
    ensures { OnOk result (slots.new.items ≡ overlay start (map Some funcs.now) slots.old.items) }
{
    let mut placed = Vec::new(alloc);
    for func in funcs {
        placed.push(Some(*func))?;
    }
    slots[start..start + funcs.len()].copy_from_slice(placed.as_slice());
    Ok(())
}

/// The table when a run opens: empty slots, into which the functions of all element segments are put. `NoMemory` if
/// memory runs out. (Standard, 4.5.4)
pub fn open_table(alloc: Global, m: &Module, globals: &[Value]) -> Result<Table, NoMemory>
    requires { fit_elements globals.now (least_size (tables_of m.now)) m.now.elements ≡ true }
    ensures { IfOk result (λ t. t ≡ with_elements globals.now m.now.elements (replicate (least_size (tables_of m.now)) None)) }
{
    let mut slots = Vec::new(alloc);
    slots.resize(least_slots(m) as usize, None)?;
    for element in m.elements.as_slice() {
        let start = offset_of(globals, &element.offset) as usize;
        place_functions(alloc, &mut slots, start, element.funcs.as_slice())?;
    }
    Ok(Table::new(slots))
}
