// The locals of a body.

ghost use Rattle.std.specs.Prelude.{◌≡◌, List, map, true, MatchOption, IfOk, OnErr, IsErrOf};
ghost use Rattle.leb_binary.specs.Leb.{IsFront, HasNoFront};
ghost use Rattle.module_ast.specs.Binary.Grammar as grammar;
ghost use Rattle.module_ast.specs.Binary.{integer, IsGroup, is_floating, some_in, group_node};
ghost use Rattle.code_decode.specs.Locals.{AreLocals, group_floats};
ghost use Rattle.code_decode.specs.Stands.{StandsFor};

use crate::fault::Fault;
use crate::types::val_type;
use leb_binary::{Bad, Cursor};
use module_ast::module::Group;
use std::alloc::Global;
use wasm_num::ValType;

// Takes a group: how many locals it has, and their type; `None` is a floating-point type.
fn read_group(cursor: &mut Cursor) -> Result<(u32, Option<ValType>), Bad>
    ensures ok { IfOk result (λ p. (g : grammar.GroupNode) × IsFront IsGroup cursor.old.left cursor.new.left g × (g.count ≡ p.0) × StandsFor is_floating integer p.1 g.ty) }
    ensures bad { OnErr result (HasNoFront IsGroup cursor.old.left) }
{
    let Ok(count) = cursor.read_u32() else {
        return Err(Bad);
    };
    let Ok(ty) = val_type(cursor) else {
        return Err(Bad);
    };
    Ok((count, ty))
}

/// Takes the groups of a body's locals (5.5.13), which are fewer than 2^32 locals together; `None` if one has a
/// floating-point type. After an `Err` the cursor may be anywhere.
pub fn read_locals(alloc: Global, cursor: &mut Cursor) -> Result<Option<Vec<Group>>, Fault>
    ensures ok { IfOk result (λ o. (gs : List grammar.GroupNode) × IsFront AreLocals cursor.old.left cursor.new.left gs × MatchOption o (some_in group_floats gs ≡ true) (λ v. gs ≡ map group_node v.items)) }
    ensures malformed { IsErrOf result Fault.Malformed → HasNoFront AreLocals cursor.old.left }
{
    let groups = cursor.read_u32()?;
    let mut items = Vec::new(alloc);
    let mut floats = false;
    let mut total = 0_u64;
    for _i in 0..groups {
        let (count, ty) = read_group(cursor)?;
        total += count as u64;
        match ty {
            Some(ty) => items.push(Group { count, ty })?,
            None => floats = true,
        }
    }
    if total > u32::MAX as u64 {
        return Err(Fault::Malformed);
    }
    if floats { Ok(None) } else { Ok(Some(items)) }
}
