// The answers of host functions. (Standard, 4.4.7)

ghost use Rattle.std.specs.Prelude.{◌≡◌, ◌+◌, ◌≤◌, length, drop, All, IfOk, OnOk, OnErr};
ghost use Rattle.module_ast.specs.Validation.{push};
ghost use Rattle.wasm_sem.specs.Execution.{IsWriteInRange, values_of, answer_at, writes_done, written_memory};
ghost use Rattle.wasm_run.specs.Answering.{returned_with, answer_given};

use module_ast::module::FuncType;
use run_stack::Stack;
use run_store::memory::Memory;
use run_store::value_of;
use std::alloc::Global;
use wasm_num::{NoMemory, ValType, Value, Values};
use wasm_sem::{HostAnswer, HostWrite, Script};

/// Puts a value for each type on top, for which there is room: those that the numbers stand for, in order, and 0 for
/// each type past the last number.
pub(crate) fn push_values(stack: &mut Stack, types: &[ValType], numbers: &[i128])
    requires { length stack.old.values + length types.now ≤ stack.old.value_room }
    ensures { stack.new ≡ record stack.old { values = push (values_of types.now numbers.now) stack.old.values } }
{
    for place in 0..types.len() {
        let number = numbers.get(place).copied().unwrap_or(0);
        stack.push(value_of(types[place], number));
    }
}

/// A value for each type: those that the numbers stand for, in order, and 0 for each type past the last number.
pub(crate) fn values_of(
    alloc: Global,
    types: &[ValType],
    numbers: &[i128],
) -> Result<Values, NoMemory>
    ensures { IfOk result (λ vs. vs ≡ values_of types.now numbers.now) }
{
    let mut values = Values::new(alloc);
    for place in 0..types.len() {
        let number = numbers.get(place).copied().unwrap_or(0);
        values.push(value_of(types[place], number))?;
    }
    Ok(values)
}

// Does the writes of an answer, in order, except those that end past the memory.
fn write_all(memory: &mut Memory, writes: &[HostWrite])
    requires { All IsWriteInRange writes.now }
    ensures bytes { memory.new.bytes ≡ written_memory (writes_done memory.old.bytes writes.now) memory.old.bytes }
    ensures max { memory.new.max ≡ memory.old.max }
{
    for write in writes {
        // A write that ends past the memory is left out.
        let _ = memory.write(u64::from(write.address), write.bytes.as_slice());
    }
}

/// The script's answer to a host call before which there were `hosts`, if the script has one.
pub(crate) fn next_answer(script: &Script, hosts: u64) -> Option<&HostAnswer>
    ensures { answer_given result ≡ answer_at script.now.hosts hosts }
{
    script.hosts.as_slice().get(hosts as usize)
}

/// Answers a call with these numbers: takes the arguments, and puts the results on top, for which there is room. Each
/// result is the number in its place, or 0 past the last number.
pub(crate) fn return_numbers(stack: &mut Stack, ty: &FuncType, numbers: &[i128])
    requires params { length ty.now.params ≤ length stack.old.values }
    requires room { length (drop (length ty.now.params) stack.old.values) + length ty.now.results ≤ stack.old.value_room }
    ensures { stack.new ≡ returned_with ty.now (values_of ty.now.results numbers.now) stack.old }
{
    stack.drop_top(ty.params.as_slice().len());
    push_values(stack, ty.results.as_slice(), numbers);
}

/// Answers a call as the script says, or with zeros if the script has no answer. Writes that end past the memory are
/// left out.
pub(crate) fn answer(
    stack: &mut Stack,
    memory: &mut Memory,
    ty: &FuncType,
    answer: Option<&HostAnswer>,
)
    requires params { length ty.now.params ≤ length stack.old.values }
    requires room { length (drop (length ty.now.params) stack.old.values) + length ty.now.results ≤ stack.old.value_room }
    requires writes { All IsWriteInRange (answer_given answer).writes }
    ensures stack { stack.new ≡ returned_with ty.now (values_of ty.now.results (answer_given answer.entry).results) stack.old }
    ensures bytes { memory.new.bytes ≡ written_memory (writes_done memory.old.bytes (answer_given answer.entry).writes) memory.old.bytes }
    ensures max { memory.new.max ≡ memory.old.max }
{
    match answer {
        Some(answer) => {
            return_numbers(stack, ty, answer.results.as_slice());
            write_all(memory, answer.writes.as_slice());
        }
        None => return_numbers(stack, ty, &[]),
    }
}

/// Answers the entry of a host function as the script says, or with zeros if the script has no answer, and gives the
/// results. Writes that end past the memory are left out. After an `Err` the memory is as before.
pub(crate) fn answer_entry(
    alloc: Global,
    memory: &mut Memory,
    ty: &FuncType,
    answer: Option<&HostAnswer>,
) -> Result<Values, NoMemory>
    requires writes { All IsWriteInRange (answer_given answer).writes }
    ensures values { IfOk result (λ vs. vs ≡ values_of ty.now.results (answer_given answer.entry).results) }
    ensures bytes { OnOk result (memory.new.bytes ≡ written_memory (writes_done memory.old.bytes (answer_given answer.entry).writes) memory.old.bytes) }
    ensures max { memory.new.max ≡ memory.old.max }
    ensures err { OnErr result (memory.new ≡ memory.old) }
{
    match answer {
        Some(answer) => {
            let results = values_of(alloc, ty.results.as_slice(), answer.results.as_slice())?;
            write_all(memory, answer.writes.as_slice());
            Ok(results)
        }
        None => values_of(alloc, ty.results.as_slice(), &[]),
    }
}
