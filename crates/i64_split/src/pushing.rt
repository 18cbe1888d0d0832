// Instructions appended to code. Each is moved once, after one check of the room that is left.

ghost use Rattle.std.specs.Prelude.{◌≡◌, ◌++◌, ◌∷◌, [], OnErr, OnOk};

use module_ast::code::Instr;
use std::alloc::AllocError;

/// Appends an instruction. An `AllocError` if memory runs out; the code is then as it was.
#[inline(always)]
pub fn push_one(code: &mut Vec<Instr>, instr: Instr) -> Result<(), AllocError>
    ensures added { OnOk result (code.new.items ≡ code.old.items ++ instr ∷ []) }
    ensures kept { OnErr result (code.new.items ≡ code.old.items) }
{
    code.reserve(1)?;
    code.push_reserved(instr);
    Ok(())
}

/// Appends two instructions. An `AllocError` if memory runs out; the code is then as it was.
#[inline(always)]
pub fn push_two(code: &mut Vec<Instr>, first: Instr, second: Instr) -> Result<(), AllocError>
    ensures added { OnOk result (code.new.items ≡ code.old.items ++ first ∷ second ∷ []) }
    ensures kept { OnErr result (code.new.items ≡ code.old.items) }
{
    code.reserve(2)?;
    code.push_reserved(first);
    code.push_reserved(second);
    Ok(())
}

/// Appends three instructions. An `AllocError` if memory runs out; the code is then as it was.
#[inline(always)]
pub fn push_three(
    code: &mut Vec<Instr>,
    first: Instr,
    second: Instr,
    third: Instr,
) -> Result<(), AllocError>
    ensures added { OnOk result (code.new.items ≡ code.old.items ++ first ∷ second ∷ third ∷ []) }
    ensures kept { OnErr result (code.new.items ≡ code.old.items) }
{
    code.reserve(3)?;
    code.push_reserved(first);
    code.push_reserved(second);
    code.push_reserved(third);
    Ok(())
}
