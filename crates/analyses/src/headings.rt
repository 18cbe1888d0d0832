// The headings under which events are counted.

ghost use Rattle.std.specs.Prelude.{◌≡◌, ◌^◌, ◌<◌, option_map};
ghost use Rattle.analyses.specs.Book.{taken_number, callee_number, block_key, branch_key, call_graph_key, memory_key, counted_key, address_of, key_at, call_key};
ghost use Rattle.analyses.specs.Headings.{key_of_heading};

use crate::Kind;
use crate::ledger::Heading;
use hook_select::Event;
use module_ast::module::Loc;

/// The heading under which a book of this kind counts an event; `None` if it does not count the event.
pub fn heading_of(kind: Kind, event: &Event) -> Option<Heading>
    ensures { option_map key_of_heading result ≡ counted_key kind event.now }
{
    match kind {
        Kind::Blocks => block_heading(event),
        Kind::Branches => branch_heading(event),
        Kind::Calls => call_heading(event),
        Kind::Memory => memory_heading(event),
    }
}

/// The effective address of a load or a store, which is below 2^33; 0 for any other event. (Standard, 4.4.4)
pub fn address_of(event: &Event) -> u64
    ensures { result ≡ address_of event.now }
{
    match event {
        Event::Load {
            offset,
            address,
            ..
        }
        | Event::Store {
            offset,
            address,
            ..
        } => u64::from(*address) + u64::from(*offset),
        _ => 0,
    }
}

// A heading at a location.
fn heading_at(loc: Loc, tag: u8, other: u64) -> Heading
    ensures { key_of_heading result ≡ key_at loc tag other }
{
    Heading {
        func: loc.func,
        instr: loc.instr,
        tag,
        other,
    }
}

// The heading of a begin: its location, and the kind of block as the tag.
fn block_heading(event: &Event) -> Option<Heading>
    ensures { option_map key_of_heading result ≡ block_key event.now }
{
    match event {
        Event::Begin { loc, kind } => Some(heading_at(*loc, kind.number(), 0)),
        _ => None,
    }
}

// The heading of a branch: its location, its instruction as the tag, and its choice.
fn branch_heading(event: &Event) -> Option<Heading>
    ensures { option_map key_of_heading result ≡ branch_key event.now }
{
    match event {
        Event::If { loc, cond } => Some(heading_at(*loc, 0, taken_number(*cond))),
        Event::Br { loc, label, .. } => Some(heading_at(*loc, 1, u64::from(*label))),
        Event::BrIf { loc, cond, .. } => Some(heading_at(*loc, 2, taken_number(*cond))),
        Event::BrTable { loc, label, .. } => Some(heading_at(*loc, 3, u64::from(*label))),
        _ => None,
    }
}

// The heading of a call: the function that calls, whatever the position of the call, and the function that is called.
fn call_heading(event: &Event) -> Option<Heading>
    ensures { option_map key_of_heading result ≡ call_graph_key event.now }
{
    match event {
        Event::CallPre { loc, callee, .. } => Some(heading_of_call(*loc, Some(*callee))),
        Event::IndirectPre { loc, callee, .. } => Some(heading_of_call(*loc, *callee)),
        _ => None,
    }
}

// The heading of a load or a store: its location, and its opcode as the tag.
fn memory_heading(event: &Event) -> Option<Heading>
    ensures { option_map key_of_heading result ≡ memory_key event.now }
{
    match event {
        Event::Load { loc, op, .. } => Some(heading_at(*loc, op.opcode(), 0)),
        Event::Store { loc, op, .. } => Some(heading_at(*loc, op.opcode(), 0)),
        _ => None,
    }
}

// The heading of a call. There is no callee if the table has no function for the call.
fn heading_of_call(loc: Loc, callee: Option<u32>) -> Heading
    ensures { key_of_heading result ≡ call_key loc callee }
{
    Heading {
        func: loc.func,
        instr: -1,
        tag: 0,
        other: callee.map_or(0, |f| u64::from(f) + 1),
    }
}

// 1 if the condition is not zero, and 0 if it is.
fn taken_number(cond: u32) -> u64
    ensures { result ≡ taken_number cond }
{
    u64::from(cond != 0)
}
