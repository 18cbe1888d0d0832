// The lines of the functions that grew the memory.

ghost use Rattle.std.specs.Prelude.{◌≡◌, ◌++◌, IfOk, OnOk, string_bytes};
ghost use Rattle.memory_growth.specs.Lines.{growth_line, growths_text};

use crate::growing::Growth;
use std::alloc::{AllocError, Global};
use std::collections::BTreeMap;

fn push_line(text: &mut String, func: u32, growth: &Growth) -> Result<(), AllocError>
    ensures { OnOk result (string_bytes text.new ≡ string_bytes text.old ++ growth_line (func, growth.now)) }
{
    let Growth { times, refused } = *growth;
    write!(text, "function {func}: {refused} of {times} refused\n")
}

/// A line for each function that grew the memory, by rising function, such as `function 3: 1 of 2 refused`. The line
/// tells the index of the function, how many growths the answer -1 refused, and how many growths there were.
///
/// An `Err` comes if there is no memory for the text.
pub fn growth_text(alloc: Global, functions: &BTreeMap<u32, Growth>) -> Result<String, AllocError>
    ensures { IfOk result (λ text. string_bytes text ≡ growths_text functions.now.entries) }
{
    let mut text = String::new(alloc);
    for (func, growth) in functions {
        push_line(&mut text, *func, growth)?;
    }
    Ok(text)
}
