// Marks of values and of bytes.

ghost use Rattle.std.specs.Prelude.{◌≡◌, true, false, length, replicate, IfOk};
ghost use Rattle.wasm_sem.specs.Execution.{is_within, written_memory};
ghost use Rattle.shadow_replay.specs.Shadow.{lie_within};
ghost use Rattle.shadow_replay.specs.Stacked.{marks_in};
ghost use Rattle.shadow_replay.specs.Taint.{is_watched, some_marked, each_marked, unmarked_by, argument_warnings};
ghost use Rattle.shadow_replay.specs.Replayed.{marked_values};
ghost use Rattle.module_ast.specs.Memory.{overlay};

use crate::Warning;
use crate::marked::Marked;
use module_ast::module::Loc;
use run_store::memory::Memory;
use std::alloc::{AllocError, Global};
use wasm_num::{NoMemory, Value, Values};
use wasm_sem::HostWrite;

/// Whether one of the marks is set.
pub(crate) fn is_some_marked(marks: &[bool]) -> bool
    ensures { result ≡ some_marked marks.now }
{
    for mark in marks {
        if *mark {
            return true;
        }
    }
    false
}

/// Sets each of the marks to `mark`.
pub(crate) fn mark_all(marks: &mut [bool], mark: bool)
    ensures { marks.new ≡ replicate (length marks.old) mark }
{
    marks.fill(mark);
}

/// Whether a function is among `funcs`.
pub(crate) fn is_watched(funcs: &[u32], func: u32) -> bool
    ensures { result ≡ is_watched funcs.now func }
{
    for other in funcs {
        if *other == func {
            return true;
        }
    }
    false
}

/// These values, each with this mark.
pub(crate) fn marked_values(
    alloc: Global,
    values: &Values,
    mark: bool,
) -> Result<Vec<Marked>, NoMemory>
    ensures { IfOk result (λ v. v.items ≡ marked_values mark values.now) }
{
    let mut list = Vec::new(alloc);
    for place in 0..values.len() {
        let Some(value) = values.get(place) else {
            unreachable!();
        };
        list.push(Marked { value, mark })?;
    }
    Ok(list)
}

/// These values, without marks.
pub(crate) fn unmarked(alloc: Global, values: &[Value]) -> Result<Vec<Marked>, NoMemory>
    ensures { IfOk result (λ v. v.items ≡ marked_values false values.now) }
{
    let mut list = Vec::new(alloc);
    for value in values {
        list.push(Marked {
            value: *value,
            mark: false,
        })?;
    }
    Ok(list)
}

/// A warning for each marked argument of a call, in order. `NoMemory` if memory runs out, or if there are 2^32
/// arguments or more.
pub(crate) fn argument_warnings(
    alloc: Global,
    loc: Loc,
    import: u32,
    args: &[Marked],
) -> Result<Vec<Warning>, NoMemory>
    ensures { IfOk result (λ ws. ws.items ≡ argument_warnings loc import 0 (marks_in args.now)) }
{
    let Ok(count) = u32::try_from(args.len()) else {
        return Err(AllocError);
    };
    let mut warnings = Vec::new(alloc);
    for argument in 0..count {
        if args[argument as usize].mark {
            warnings.push(Warning {
                loc,
                import,
                argument,
            })?;
        }
    }
    Ok(warnings)
}

// Writes bytes, which end within the memory, and clears their marks.
fn write(memory: &mut Memory, marks: &mut [bool], write: &HostWrite)
    requires aligned { length marks.old ≡ length memory.old.bytes }
    requires within { is_within (length memory.old.bytes) write.now ≡ true }
    ensures memory { memory.new ≡ record memory.old { bytes = overlay write.now.address write.now.bytes memory.old.bytes } }
    ensures marks { marks.new ≡ overlay write.now.address (each_marked false write.now.bytes) marks.old }
{
    let start = write.address as usize;
    let bytes = write.bytes.as_slice();
    if memory.write(u64::from(write.address), bytes).is_err() {
        unreachable!();
    }
    mark_all(&mut marks[start..start + bytes.len()], false);
}

/// Does the writes in order, which end within the memory, and clears the marks of what they write.
pub(crate) fn write_all(memory: &mut Memory, marks: &mut [bool], writes: &[HostWrite])
    requires aligned { length marks.old ≡ length memory.old.bytes }
    requires within { lie_within (length memory.old.bytes) writes.now ≡ true }
    ensures memory { memory.new ≡ record memory.old { bytes = written_memory writes.now memory.old.bytes } }
    ensures marks { marks.new ≡ unmarked_by writes.now marks.old }
    ensures aligned_after { length marks.new ≡ length memory.new.bytes }
{
    for each in writes {
        write(memory, marks, each);
    }
}
