// The lines of a report.

ghost use Rattle.std.specs.Prelude.{◌≡◌, ℕ, IfOk, string_bytes};
ghost use Rattle.analyses.specs.declared.Kind.TheVariants.{Blocks, Branches, Calls, Memory};
ghost use Rattle.report.specs.Text.{events_text, head_line, location, row_line};

use crate::words::{access_word, branch_word, kind_word, part_word};
use analyses::{Kind, Row};
use std::alloc::Global;
use wasm_num::NoMemory;

/// The first line of a report: its kind, and how many rows it has. `NoMemory` if memory runs out.
pub(crate) fn first_line(alloc: Global, kind: Kind, rows: usize) -> Result<String, NoMemory>
    ensures { IfOk result (λ line. string_bytes line ≡ head_line kind rows) }
{
    let word = kind_word(kind);
    format!(in alloc; "report {word} {rows}\n")
}

// The function and the position of a row, as text.
fn location_of(alloc: Global, row: &Row) -> Result<String, NoMemory>
    ensures { IfOk result (λ text. string_bytes text ≡ location row.now.func row.now.instr) }
{
    let Row { func, instr, .. } = *row;
    format!(in alloc; "{func}:{instr}")
}

fn block_line(alloc: Global, row: &Row) -> Result<String, NoMemory>
    ensures { IfOk result (λ line. string_bytes line ≡ row_line Blocks row.now) }
{
    let Row { tag, count, .. } = *row;
    let place = location_of(alloc, row)?;
    let part = part_word(tag);
    format!(in alloc; "block {place} {part} {count}\n")
}

fn branch_line(alloc: Global, row: &Row) -> Result<String, NoMemory>
    ensures { IfOk result (λ line. string_bytes line ≡ row_line Branches row.now) }
{
    let Row {
        tag,
        other,
        count,
        ..
    } = *row;
    let place = location_of(alloc, row)?;
    let word = branch_word(tag);
    format!(in alloc; "branch {place} {word} {other} {count}\n")
}

// The line of a row of calls. The row's `other` is 0 if there is no callee, and otherwise the callee plus 1.
fn call_line(alloc: Global, row: &Row) -> Result<String, NoMemory>
    ensures { IfOk result (λ line. string_bytes line ≡ row_line Calls row.now) }
{
    let Row {
        func,
        other,
        count,
        ..
    } = *row;
    match other.checked_sub(1) {
        Some(callee) => format!(in alloc; "call {func} {callee} {count}\n"),
        None => format!(in alloc; "call {func} none {count}\n"),
    }
}

fn memory_line(alloc: Global, row: &Row) -> Result<String, NoMemory>
    ensures { IfOk result (λ line. string_bytes line ≡ row_line Memory row.now) }
{
    let Row {
        tag,
        count,
        least,
        greatest,
        ..
    } = *row;
    let place = location_of(alloc, row)?;
    let word = access_word(tag);
    format!(in alloc; "memory {place} {word} {count} {least} {greatest}\n")
}

/// The line of a row of a report of this kind. `NoMemory` if memory runs out.
pub(crate) fn line_of_row(alloc: Global, kind: Kind, row: &Row) -> Result<String, NoMemory>
    ensures { IfOk result (λ line. string_bytes line ≡ row_line kind row.now) }
{
    match kind {
        Kind::Blocks => block_line(alloc, row),
        Kind::Branches => branch_line(alloc, row),
        Kind::Calls => call_line(alloc, row),
        Kind::Memory => memory_line(alloc, row),
    }
}

/// The line after the reports: how many events there were that are no strays, and how many strays.
///
/// `NoMemory` if memory runs out.
pub fn events_line(alloc: Global, events: u64, strays: u64) -> Result<String, NoMemory>
    ensures { IfOk result (λ line. string_bytes line ≡ events_text events strays) }
{
    format!(in alloc; "events {events} stray {strays}\n")
}
