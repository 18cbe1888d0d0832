// The four books of one list of events.

use analyses::{Analysis, Blocks, Branches, CallGraph, Kind, MemoryUse, Row};
use hook_select::Event;
use module_ast::module::Loc;
use module_ast::ops::{LoadOp, StoreOp};
use std::alloc::Global;
use std::test::Fail;
use wasm_num::{BlockKind, NoMemory, Value, Values};

// A row with addresses.
fn row(func: u32, instr: i32, tag: u8, other: u64, count: u64, least: u64, greatest: u64) -> Row {
    Row {
        func,
        instr,
        tag,
        other,
        count,
        least,
        greatest,
    }
}

// A row without addresses.
fn counted(func: u32, instr: i32, tag: u8, other: u64, count: u64) -> Row {
    row(func, instr, tag, other, count, 0, 0)
}

fn blocks() -> [Row; 3] {
    [
        counted(1, 3, 4, 0, 1),
        counted(2, -1, 0, 0, 1),
        counted(2, 3, 2, 0, 2),
    ]
}

fn branches() -> [Row; 5] {
    [
        counted(1, 5, 2, 1, 1),
        counted(1, 7, 3, 2, 1),
        counted(2, 4, 0, 0, 1),
        counted(2, 4, 0, 1, 2),
        counted(2, 6, 1, 1, 1),
    ]
}

fn calls() -> [Row; 3] {
    [
        counted(1, -1, 0, 0, 1),
        counted(1, -1, 0, 1, 2),
        counted(1, -1, 0, 5, 1),
    ]
}

fn memory() -> [Row; 2] {
    [
        row(1, 2, 0x28, 0, 3, 28, 8_589_934_590),
        row(1, 2, 0x3C, 0, 1, 5, 5),
    ]
}

// What an event shows.
#[derive(Clone, Copy)]
enum Shown {
    Begin(BlockKind),
    End(BlockKind),
    If(u32),
    Br(u32),
    BrIf(u32),
    BrTable(u32),
    Load(u32, u32),
    Store(u32),
    Call(u32),
    Indirect(Option<u32>),
}

// Function, position, and what the event there shows.
static EVENTS: [(u32, i32, Shown); 20] = [
    (2, -1, Shown::Begin(BlockKind::Function)),
    (2, 3, Shown::Begin(BlockKind::Loop)),
    (1, 3, Shown::Begin(BlockKind::Else)),
    (2, 3, Shown::Begin(BlockKind::Loop)),
    (2, 6, Shown::Br(1)),
    (2, 4, Shown::If(9)),
    (2, 4, Shown::If(0)),
    (2, 4, Shown::If(1)),
    (1, 7, Shown::BrTable(2)),
    (1, 5, Shown::BrIf(3)),
    (2, 8, Shown::End(BlockKind::Loop)),
    (1, 2, Shown::Load(8, 100)),
    (1, 14, Shown::Indirect(Some(4))),
    (1, 2, Shown::Load(4_294_967_295, 4_294_967_295)),
    (1, 2, Shown::Store(5)),
    (1, 9, Shown::Call(0)),
    (1, 2, Shown::Load(8, 20)),
    (1, 12, Shown::Call(0)),
    (1, 13, Shown::Indirect(None)),
    (2, 9, Shown::End(BlockKind::Function)),
];

fn jump(loc: Loc, shown: Shown) -> Event {
    match shown {
        Shown::Begin(kind) => Event::Begin { loc, kind },
        Shown::End(kind) => Event::End {
            loc,
            kind,
            begin: 3,
        },
        Shown::If(cond) => Event::If { loc, cond },
        Shown::Br(label) => Event::Br {
            loc,
            label,
            target: 9,
        },
        Shown::BrIf(cond) => Event::BrIf {
            loc,
            label: 0,
            target: 8,
            cond,
        },
        Shown::BrTable(label) => Event::BrTable {
            loc,
            index: 9,
            label,
            target: 3,
        },
        _ => Event::Nop { loc },
    }
}

fn event(alloc: Global, loc: Loc, shown: Shown) -> Event {
    match shown {
        Shown::Load(offset, address) => Event::Load {
            loc,
            op: LoadOp::I32Load,
            offset,
            address,
            value: Value::I32(7),
        },
        Shown::Store(address) => Event::Store {
            loc,
            op: StoreOp::I64Store8,
            offset: 0,
            address,
            value: Value::I64(7),
        },
        Shown::Call(callee) => Event::CallPre {
            loc,
            callee,
            args: Values::new(alloc),
        },
        Shown::Indirect(callee) => Event::IndirectPre {
            loc,
            ty: 0,
            slot: 3,
            callee,
            args: Values::new(alloc),
        },
        _ => jump(loc, shown),
    }
}

// Whether an analysis takes the events.
fn takes<A: Analysis>(analysis: &mut A, alloc: Global) -> Result<bool, NoMemory> {
    for (func, instr, shown) in &EVENTS {
        if analysis.taken() == u64::MAX {
            return Ok(false);
        }
        let loc = Loc {
            func: *func,
            instr: *instr,
        };
        analysis.take(&event(alloc, loc, *shown))?;
    }
    Ok(analysis.taken() == EVENTS.len() as u64)
}

// Whether an analysis has these rows.
fn has_rows<A: Analysis>(analysis: &A, kind: Kind, wanted: &[Row]) -> Result<bool, NoMemory> {
    let rows = analysis.rows()?;
    Ok(analysis.kind() == kind && rows.as_slice() == wanted)
}

// Whether a fresh analysis takes the events and has these rows then.
fn counts<A: Analysis>(
    mut analysis: A,
    alloc: Global,
    kind: Kind,
    wanted: &[Row],
) -> Result<bool, NoMemory> {
    Ok(takes(&mut analysis, alloc)? && has_rows(&analysis, kind, wanted)?)
}

#[test]
fn counts_events(rt: HostRuntime) -> Result<(), Fail> {
    let alloc = rt.alloc();
    assert!(rt; counts(Blocks::new(alloc), alloc, Kind::Blocks, &blocks())?);
    assert!(rt; counts(Branches::new(alloc), alloc, Kind::Branches, &branches())?);
    assert!(rt; counts(CallGraph::new(alloc), alloc, Kind::Calls, &calls())?);
    assert!(rt; counts(MemoryUse::new(alloc), alloc, Kind::Memory, &memory())?);
    Ok(())
}
