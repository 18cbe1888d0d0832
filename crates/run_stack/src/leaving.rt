// Steps that leave a function.

ghost use Rattle.std.specs.Prelude.{◌≡◌, ◌<◌, ℕ, length, MatchOption};
ghost use Rattle.module_ast.specs.Structure.{code_of, before, Tree, done};
ghost use Rattle.run_stack.specs.Flat.{first_base, first_rest, outermost_number};
ghost use Rattle.run_stack.specs.Leaving.{above_outermost, above_results, HasNumber, LeavesFrom};

use crate::control::label_at;
use crate::stack::Stack;
use module_ast::code::Instr;

// `above`, the number of operands above those that a branch takes, if its label is the outermost one.
fn above_outermost(label: u32, outermost: usize, above: usize) -> Option<usize>
    ensures { result ≡ above_outermost label outermost above }
{
    if label as usize == outermost {
        Some(above)
    } else {
        None
    }
}

// How many operands are above the results, if an instruction branches to the function's outermost label, whose number
// is `outermost`.
fn above_branch(stack: &Stack, instr: &Instr, outermost: usize) -> Option<usize>
    requires { HasNumber (before instr.now done) stack.now.values }
    ensures { (k : Tree) → result ≡ above_results (before instr.now k) stack.now.values outermost }
{
    match instr {
        Instr::Br(label) => above_outermost(*label, outermost, 0),
        Instr::BrIf(label) => {
            if stack.top_i32() == 0 {
                None
            } else {
                above_outermost(*label, outermost, 1)
            }
        }
        Instr::BrTable(labels, default) => {
            let label = label_at(labels, *default, stack.top_i32());
            above_outermost(label, outermost, 1)
        }
        Instr::Return => Some(0),
        _ => None,
    }
}

// How many operands are above the results, if the next step leaves the innermost function.
fn above_results(stack: &Stack) -> Option<usize>
    requires some { 0 < length stack.now.bases }
    requires own { (first_base stack.now.bases).labels < length stack.now.spots }
    requires number { HasNumber (first_rest stack.now.spots) stack.now.values }
    ensures { result ≡ above_results (first_rest stack.now.spots) stack.now.values (outermost_number stack.now) }
{
    let outermost = stack.labels_of_frame() - 1;
    match stack.place() {
        [] => above_outermost(0, outermost, 0),
        [instr, ..] => above_branch(stack, instr, outermost),
    }
}

/// How many operands are above the results, if the next step leaves the last frame with more than four results;
/// otherwise `None`.
pub fn above_many(stack: &Stack) -> Option<usize>
    requires some { 0 < length stack.now.bases }
    requires own { (first_base stack.now.bases).labels < length stack.now.spots }
    requires number { HasNumber (first_rest stack.now.spots) stack.now.values }
    ensures { MatchOption result ((above : ℕ) → LeavesFrom stack.now above → ⊥) (λ above. LeavesFrom stack.now above) }
{
    if stack.frames() != 1 || stack.lowest_arity() <= 4 {
        return None;
    }
    above_results(stack)
}
