// The check of a body.

ghost use Rattle.std.specs.Prelude.{◌≡◌, ◌<◌, ◌^◌, length, IfOk, IsErrOf};
ghost use Rattle.module_ast.specs.Validation.{IsWhole, KeepsRules, TypesBody, HasBodyMarks};
ghost use Rattle.module_ast.specs.Places.{code_size};
ghost use Rattle.module_ast.specs.Structure.{spaces_of};
ghost use Rattle.code_valid.specs.Bodies.{TypesIn, HasMarksIn};
ghost use Rattle.code_valid.specs.declared.invalid.BodyInvalid.{BodyInvalid};

use crate::blocks::{OpenBlocks, copied};
use crate::env::Env;
use crate::invalid::BodyInvalid;
use crate::marks::Marks;
use crate::surveying::survey_code;
use crate::walk::Walk;
use module_ast::code::Code;
use module_ast::module::Module;
use module_ast::seq::Seq;
use module_ast::spaces::Spaces;
use std::alloc::Global;

/// Checks the body of a defined function by the rules of typing, and answers its marks and its height. (Standard,
/// 3.4.1)
///
/// `Invalid` if the rules do not type the body, `NoMemory` if memory runs out. Takes time linear in the module's
/// imports, functions and globals and in the body; for many bodies use `check_body_in`.
pub fn check_body(alloc: Global, m: &Module, defined: u32) -> Result<Marks, BodyInvalid>
    requires body { defined < length m.now.bodies }
    requires func { defined < length m.now.funcs }
    requires whole { IsWhole m.now }
    requires rules { KeepsRules m.now }
    ensures typed { IfOk result (λ _. TypesBody m.now defined) }
    ensures marks { IfOk result (λ found. HasBodyMarks m.now defined found.types found.height) }
    ensures invalid { IsErrOf result BodyInvalid.Invalid → ¬ TypesBody m.now defined }
{
    let spaces = Spaces::new(alloc, m)?;
    check_body_in(alloc, m, &spaces, defined)
}

/// Checks the body of a defined function as `check_body` does, over the index spaces of its module, which are then made
/// once for all bodies. Takes time in proportion to the body and to the groups of its locals. (Standard, 3.4.1)
pub fn check_body_in(
    alloc: Global,
    m: &Module,
    spaces: &Spaces,
    defined: u32,
) -> Result<Marks, BodyInvalid>
    requires body { defined < length m.now.bodies }
    requires func { defined < length m.now.funcs }
    requires whole { IsWhole m.now }
    requires rules { KeepsRules m.now }
    requires spaces { spaces.now ≡ spaces_of m.now }
    ensures typed { IfOk result (λ _. TypesBody m.now defined) }
    ensures marks { IfOk result (λ found. HasBodyMarks m.now defined found.types found.height) }
    ensures invalid { IsErrOf result BodyInvalid.Invalid → ¬ TypesBody m.now defined }
{
    let env = Env::of_body(alloc, m, spaces, defined)?;
    let body = &m.bodies.as_slice()[defined as usize];
    survey_body(alloc, &env, &body.code)
}

/// Checks a body in its context.
pub(crate) fn survey_body(alloc: Global, env: &Env, code: &Code) -> Result<Marks, BodyInvalid>
    requires { code_size code.now < 2 ^ 32 }
    ensures typed { IfOk result (λ _. TypesIn env.now code.now) }
    ensures marks { IfOk result (HasMarksIn env.now code.now) }
    ensures invalid { IsErrOf result BodyInvalid.Invalid → ¬ TypesIn env.now code.now }
{
    let results = copied(alloc, env.results())?;
    let mut blocks = OpenBlocks::new(alloc, results)?;
    let mut walk = Walk::new(alloc);
    survey_code(alloc, env, code, &mut blocks, &mut walk)?;
    blocks.end()?;
    let (marks, height) = walk.finish();
    Ok(Marks {
        types: Seq::from_vec(marks),
        height,
    })
}
