// Hook calls of a function with a br_table inside three blocks, and their events.

ghost use Rattle.std.specs.Prelude.{IfOk};
ghost use Rattle.hook_mono.specs.Values.{AreWords};
ghost use Rattle.static_info.specs.Form.{IsWellFormed};

use hook_events::read_hook;
use hook_select::Event;
use run_store::table::Table;
use static_info::{Info, from_json};
use std::alloc::{AllocError, Global};
use std::test::Fail;
use wasm_num::{BlockKind, Value, Values};

// The function of index 0 has an i32 parameter, three blocks at 0, 1 and 2, and a br_table at 4. The text is a call's answer, so
// that no proof reads it.
fn branches() -> &'static str {
    "{\"dropped\":[],\"functions\":[[\"i\",\"\",[[0,-1,8,9],[1,0,7,8],[1,1,6,7],[1,2,5,6]],[[4,[0,1,2]]]]],\"groups\":[\"br_table\",\"end\",\"const\"],\"hooks\":[\"br_table\",\"end_block\",\"end_function\",\"i64.const\",\"nop\"],\"imports\":0,\"version\":1}"
}

// The words of a call: the function, the position, and one word or two more.
fn words(alloc: Global, list: &[u32]) -> Result<Values, AllocError>
    ensures { IfOk result AreWords }
{
    let mut values = Values::new(alloc);
    for word in list {
        values.push(Value::I32(*word))?;
    }
    Ok(values)
}

// Whether the event is the br_table with this label and target.
fn is_jump(event: &Event, wanted_label: u32, wanted_target: i32) -> bool {
    match event {
        Event::BrTable {
            loc,
            label,
            target,
            ..
        } => loc.func == 0 && loc.instr == 4 && *label == wanted_label && *target == wanted_target,
        _ => false,
    }
}

// Whether the event is the end of a block at this position, which began there.
fn is_end(event: &Event, position: i32, wanted_begin: i32) -> bool {
    match event {
        Event::End { loc, kind, begin } => {
            loc.instr == position && *kind == BlockKind::Block && *begin == wanted_begin
        }
        _ => false,
    }
}

// Whether the event is a stray call of this hook.
fn is_stray(event: &Event, wanted: u32) -> bool {
    match event {
        Event::Stray { hook } => *hook == wanted,
        _ => false,
    }
}

// Whether the event is this constant of 64 bits.
fn is_const(event: &Event, wanted: u64) -> bool {
    match event {
        Event::Const { value, .. } => *value == Value::I64(wanted),
        _ => false,
    }
}

// The events of a hook call with these words, where the table has no slots.
fn events_of(alloc: Global, info: &Info, hook: u32, list: &[u32]) -> Result<Vec<Event>, AllocError>
    requires { IsWellFormed info.now }
{
    let table = Table::new(Vec::new(alloc));
    let words = words(alloc, list)?;
    read_hook(alloc, info, &table, hook, &words)
}

// A call of the br_table's hook: its index, the label and its target, and how many ends follow.
struct Jump {
    index: u32,
    label: u32,
    target: i32,
    ends: usize,
}

static JUMPS: [Jump; 3] = [
    Jump {
        index: 0,
        label: 0,
        target: 6,
        ends: 1,
    },
    Jump {
        index: 1,
        label: 1,
        target: 7,
        ends: 2,
    },
    Jump {
        index: 4_294_967_295,
        label: 2,
        target: 8,
        ends: 3,
    },
];

// Whether the events are the jump, and the ends of the blocks that it leaves.
fn are_of_jump(told: &[Event], jump: &Jump) -> bool {
    match told {
        [first, second, others @ ..] => {
            others.len() + 1 == jump.ends
                && is_jump(first, jump.label, jump.target)
                && is_end(second, 5, 2)
                && (jump.ends == 1 || others.first().is_some_and(|event| is_end(event, 6, 1)))
        }
        _ => false,
    }
}

// Whether a call of the br_table's hook is read so.
fn reads_jump(alloc: Global, info: &Info, jump: &Jump) -> Result<bool, AllocError>
    requires { IsWellFormed info.now }
{
    let events = events_of(alloc, info, 0, &[0, 4, jump.index])?;
    Ok(are_of_jump(events.as_slice(), jump))
}

// Whether each call of the br_table's hook is read so.
fn reads_jumps(alloc: Global, info: &Info) -> Result<bool, AllocError>
    requires { IsWellFormed info.now }
{
    for jump in &JUMPS {
        if !reads_jump(alloc, info, jump)? {
            return Ok(false);
        }
    }
    Ok(true)
}

// Whether a call of the br_table's hook from this function and position is a stray.
fn reads_stray(alloc: Global, info: &Info, func: u32, position: u32) -> Result<bool, AllocError>
    requires { IsWellFormed info.now }
{
    let events = events_of(alloc, info, 0, &[func, position, 0])?;
    Ok(match events.as_slice() {
        [event] => is_stray(event, 0),
        _ => false,
    })
}

// Whether the low word of a constant stands first.
fn reads_long(alloc: Global, info: &Info) -> Result<bool, AllocError>
    requires { IsWellFormed info.now }
{
    let events = events_of(alloc, info, 3, &[0, 0, 4_294_967_294, 4_294_967_295])?;
    Ok(match events.as_slice() {
        [event] => is_const(event, 18_446_744_073_709_551_614),
        _ => false,
    })
}

// Whether a call of a hook whose group is not selected says nothing.
fn reads_nothing(alloc: Global, info: &Info) -> Result<bool, AllocError>
    requires { IsWellFormed info.now }
{
    let events = events_of(alloc, info, 4, &[0, 0])?;
    Ok(events.is_empty())
}

// Whether hook calls are read so: those of the br_table, of no such function, of no br_table at that position, and others.
fn reads_calls(alloc: Global, info: &Info) -> Result<bool, AllocError>
    requires { IsWellFormed info.now }
{
    Ok(
        reads_jumps(alloc, info)?
            && reads_stray(alloc, info, 1, 4)?
            && reads_stray(alloc, info, 0, 3)?
            && reads_long(alloc, info)?
            && reads_nothing(alloc, info)?,
    )
}

#[test]
fn labels_ends_strays_and_values(rt: HostRuntime) -> Result<(), Fail> {
    let alloc = rt.alloc();
    let info = from_json(alloc, branches().as_bytes())?;
    assert!(rt; reads_calls(alloc, &info)?);
    Ok(())
}
