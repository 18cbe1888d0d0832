// The locals that functions begin with.

ghost use Rattle.std.specs.Prelude.{◌≡◌, ◌++◌, replicate, IfOk, OnOk};
ghost use Rattle.module_ast.specs.Validation.{declared_locals};
ghost use Rattle.run_store.specs.Resolved.{callee_for};
ghost use Rattle.shadow_replay.specs.Resolved.{zero_locals, begun_with};

use crate::marked::Marked;
use module_ast::module::Group;
use run_store::{Function, zero};
use std::alloc::AllocError;
use wasm_num::NoMemory;

/// The locals that a function begins with: its arguments, and zeros for the locals that it declares.
pub(crate) fn begun_locals(function: &Function, args: Vec<Marked>) -> Result<Vec<Marked>, NoMemory>
    ensures { IfOk result (λ v. v.items ≡ begun_with (callee_for function.now) args.items) }
{
    let mut locals = args;
    if let Function::Own(_, body, _) = function {
        push_zeros(&mut locals, body.groups.as_slice())?;
    }
    Ok(locals)
}

// Appends the zeros of a group of locals.
fn push_zeros_of(locals: &mut Vec<Marked>, group: &Group) -> Result<(), NoMemory>
    ensures { OnOk result (locals.new.items ≡ locals.old.items ++ zero_locals (replicate group.now.count group.now.ty)) }
{
    let Some(grown) = locals.len().checked_add(group.count as usize) else {
        return Err(AllocError);
    };
    locals.resize(
        grown,
        Marked {
            value: zero(group.ty),
            mark: false,
        },
    )?;
    Ok(())
}

// Appends zeros for declared locals.
fn push_zeros(locals: &mut Vec<Marked>, groups: &[Group]) -> Result<(), NoMemory>
    ensures { OnOk result (locals.new.items ≡ locals.old.items ++ zero_locals (declared_locals groups.now)) }
{
    for group in groups {
        push_zeros_of(locals, group)?;
    }
    Ok(())
}
