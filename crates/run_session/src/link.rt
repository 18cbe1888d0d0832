// Whether a module links with a script. (Standard, 4.5.4)

ghost use Rattle.std.specs.Prelude.{◌≡◌, ◌+◌, nat_le};
ghost use Rattle.std.specs.Option.{option_copied};
ghost use Rattle.module_ast.specs.Structure.{tables_of, memories_of};
ghost use Rattle.wasm_sem.specs.Execution.{link, calls_refusal, refusal_unless, memory_cap, table_cap, segment_range, least_size, fits_type, fit_types, fit_elements, fit_segments, fit_all};
ghost use Rattle.wasm_run.specs.Exported.{HasExports};
ghost use Rattle.run_session.specs.Linking.{ChecksRefusal, exported_type, type_refusal};

use module_ast::module::{Element, FuncType, Module, Segment};
use run_store::{least_pages, least_slots, offset_of, open_globals};
use std::alloc::{AllocError, Global};
use std::collections::BTreeMap;
use wasm_num::{ValType, Value};
use wasm_run::exported_functions;
use wasm_sem::{Call, Script};
use wasm_valid::ValidModule;

/// Why a module does not link with a script. Calls are numbered from 0. (Standard, 4.5.4)
#[derive(Clone, Copy, Debug, PartialEq, Eq)]
pub enum LinkFault {
    /// No function is exported under the name in this call.
    NoExport { call: u64 },
    /// This call has more or fewer arguments than its function takes, or one that does not fit its type.
    BadArgs { call: u64 },
    /// The least size of the memory is this many pages, more than the script allows.
    MemoryCap { pages: u32 },
    /// The least size of the table is this many slots, more than 1,000,000.
    TableCap { slots: u32 },
    /// An element or data segment ends past its table or memory.
    SegmentRange,
    /// Memory ran out.
    NoMemory,
}

impl From<AllocError> for LinkFault {
    ghost use Rattle.run_session.specs.declared.link.LinkFault.TheVariants.{NoMemory};

    ghost from_gives = { λ _ e. e ≡ NoMemory };

    fn from(_refused: AllocError) -> LinkFault {
        LinkFault::NoMemory
    }
}

const MOST_SLOTS: u32 = 1_000_000;

const PAGE_BYTES: u64 = 65_536;

/// Answers the first refusal, if there is one: for each call first its function and then its arguments, then the least
/// size of the memory, that of the table, and the ranges of the segments. (Standard, 4.5.4)
pub(crate) fn check_links(
    alloc: Global,
    valid: &ValidModule,
    script: &Script,
) -> Result<(), LinkFault>
    ensures { ChecksRefusal result (link valid.now script.now) }
{
    let module = valid.module();
    check_calls(alloc, valid, script.calls.as_slice())?;
    check_pages(module, script.pages)?;
    check_slots(module)?;
    check_segments(alloc, module, script)
}

// Refuses the first call without an exported function, or whose arguments do not fit.
fn check_calls(alloc: Global, m: &ValidModule, calls: &[Call]) -> Result<(), LinkFault>
    ensures { ChecksRefusal result (calls_refusal m.now 0 calls.now) }
{
    let exports = exported_functions(alloc, m.module().exports.as_slice())?;
    for (index, call) in calls.iter().enumerate() {
        let function = exported_type(m, &exports, call.export.as_str());
        check_call(index as u64, call, function)?;
    }
    Ok(())
}

// The type of the function that is exported under this name, if there is one.
fn exported_type<'m>(
    m: &'m ValidModule,
    exports: &BTreeMap<&str, u32>,
    name: &str,
) -> Option<&'m FuncType>
    requires exports { HasExports exports.now m.now.exports }
    ensures { option_copied result ≡ exported_type m.now name.now }
{
    let function = exports.get(name)?;
    m.func_type(*function)
}

// Refuses a call without a function, or whose arguments do not fit the function.
fn check_call(index: u64, call: &Call, function: Option<&FuncType>) -> Result<(), LinkFault>
    ensures { ChecksRefusal result (type_refusal index call.now.args (option_copied function.entry)) }
{
    match function {
        None => Err(LinkFault::NoExport { call: index }),
        Some(ty) if fit_types(ty.params.as_slice(), call.args.as_slice()) => Ok(()),
        Some(_) => Err(LinkFault::BadArgs { call: index }),
    }
}

// Whether there are as many numbers as types, and each number fits its type.
fn fit_types(types: &[ValType], numbers: &[i128]) -> bool
    ensures { result ≡ fit_types types.now numbers.now }
{
    if types.len() != numbers.len() {
        return false;
    }
    for (ty, number) in types.iter().zip(numbers) {
        if !fits_type(*ty, *number) {
            return false;
        }
    }
    true
}

// Whether a number fits a type, read as signed or as unsigned.
fn fits_type(ty: ValType, number: i128) -> bool
    ensures { result ≡ fits_type ty number }
{
    match ty {
        ValType::I32 => -0x8000_0000 <= number && number <= 0xFFFF_FFFF,
        ValType::I64 => { -0x8000_0000_0000_0000 <= number && number <= 0xFFFF_FFFF_FFFF_FFFF }
    }
}

// Refuses a memory whose least size is more than the `most` pages that the script allows.
fn check_pages(m: &Module, most: u32) -> Result<(), LinkFault>
    ensures { ChecksRefusal result (refusal_unless (nat_le (least_size (memories_of m.now)) most) (memory_cap (least_size (memories_of m.now)))) }
{
    let pages = least_pages(m);
    if pages <= most {
        Ok(())
    } else {
        Err(LinkFault::MemoryCap { pages })
    }
}

// Refuses a table whose least size is more slots than a run may have.
fn check_slots(m: &Module) -> Result<(), LinkFault>
    ensures { ChecksRefusal result (refusal_unless (nat_le (least_size (tables_of m.now)) 1000000) (table_cap (least_size (tables_of m.now)))) }
{
    let slots = least_slots(m);
    if slots <= MOST_SLOTS {
        Ok(())
    } else {
        Err(LinkFault::TableCap { slots })
    }
}

// Refuses segments of which one ends past its table or memory.
fn check_segments(alloc: Global, m: &Module, script: &Script) -> Result<(), LinkFault>
    ensures { ChecksRefusal result (refusal_unless (fit_all m.now script.now) segment_range) }
{
    let globals = open_globals(alloc, m, script)?;
    let slots = u64::from(least_slots(m));
    let bytes = u64::from(least_pages(m)) * PAGE_BYTES;
    let elements_fit = fit_elements(&globals, slots, m.elements.as_slice());
    if elements_fit && fit_segments(&globals, bytes, m.segments.as_slice()) {
        Ok(())
    } else {
        Err(LinkFault::SegmentRange)
    }
}

// Whether `count` items from `start` on end within `size`.
fn ends_within(start: u32, count: usize, size: u64) -> bool
    ensures { result ≡ nat_le (start + count) size }
{
    let count = count as u64;
    count <= size && u64::from(start) <= size - count
}

// Whether all element segments end within a table of `slots` slots.
fn fit_elements(globals: &[Value], slots: u64, elements: &[Element]) -> bool
    ensures { result ≡ fit_elements globals.now slots elements.now }
{
    for element in elements {
        let start = offset_of(globals, &element.offset);
        if !ends_within(start, element.funcs.as_slice().len(), slots) {
            return false;
        }
    }
    true
}

// Whether all data segments end within a memory of `bytes` bytes.
fn fit_segments(globals: &[Value], bytes: u64, segments: &[Segment]) -> bool
    ensures { result ≡ fit_segments globals.now bytes segments.now }
{
    for segment in segments {
        let start = offset_of(globals, &segment.offset);
        if !ends_within(start, segment.bytes.as_slice().len(), bytes) {
            return false;
        }
    }
    true
}
