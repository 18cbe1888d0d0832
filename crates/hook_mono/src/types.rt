// The types of hooks.

ghost use Rattle.std.specs.Prelude.{◌≡◌, ◌++◌, [], ◌∷◌, flat_map, IfOk, OnOk};
ghost use Rattle.wasm_num.specs.Shapes.{num_operands, num_result};
ghost use Rattle.hook_mono.specs.Words.{value_types, word_types, hook_type};

use crate::plain::plain_values;
use crate::{HookKey, each_key};
use module_ast::module::FuncType;
use module_ast::seq::Seq;
use std::alloc::Global;
use wasm_num::{NoMemory, NumOp, ValType};

// Appends the words of a field.
macro_rules! push_field {
    ($params:ident, key($of:expr)) => {};
    ($params:ident, number()) => {
        push_words($params, &[ValType::I32])?;
    };
    ($params:ident, signed()) => {
        push_words($params, &[ValType::I32])?;
    };
    ($params:ident, value($ty:expr)) => {
        push_words($params, &[$ty])?;
    };
    ($params:ident, values($types:expr)) => {
        push_words($params, $types)?;
    };
    ($params:ident, callee($slot:expr)) => {};
}

// Appends the words of the fields of a key.
macro_rules! push_told {
    (($params:ident, $key:ident) $($kind:ident($($part:ident),*) ($($field:ident: $from:ident($($of:tt)*)),*))*) => {
        match $key {
            HookKey::Plain(group) => push_words($params, plain_values(*group)),
            HookKey::Num(op) => push_num($params, *op),
            $(HookKey::$kind($($part),*) => {
                $(push_field!($params, $from($($of)*));)*
                Ok(())
            })*
        }
    };
}

/// The type of the hook of a key. Its parameters, all of type i32, are the function, the position, and the words of the further
/// values. It has no results.
///
/// `NoMemory` if memory runs out.
pub fn type_of(alloc: Global, key: &HookKey) -> Result<FuncType, NoMemory>
    ensures { IfOk result (λ ty. ty ≡ hook_type key.now) }
{
    let mut params = Vec::new(alloc);
    params.push(ValType::I32)?;
    params.push(ValType::I32)?;
    push_values(&mut params, key)?;
    Ok(FuncType {
        params: Seq::from_vec(params),
        results: Seq::from_vec(Vec::new(alloc)),
    })
}

// Appends the words of the values that follow the function and the position.
fn push_values(params: &mut Vec<ValType>, key: &HookKey) -> Result<(), NoMemory>
    ensures { OnOk result (params.new.items ≡ params.old.items ++ flat_map word_types (value_types key.now)) }
{
    each_key!(push_told(params, key))
}

// Appends the words of values of these types: one for an i32, two for an i64.
fn push_words(params: &mut Vec<ValType>, types: &[ValType]) -> Result<(), NoMemory>
    ensures { OnOk result (params.new.items ≡ params.old.items ++ flat_map word_types types.now) }
{
    for ty in types {
        params.push(ValType::I32)?;
        if matches!(ty, ValType::I64) {
            params.push(ValType::I32)?;
        }
    }
    Ok(())
}

// Appends the words of the operands and of the result of a number instruction.
fn push_num(params: &mut Vec<ValType>, op: NumOp) -> Result<(), NoMemory>
    ensures { OnOk result (params.new.items ≡ params.old.items ++ flat_map word_types (num_operands op ++ num_result op ∷ [])) }
{
    push_words(params, op.operand_types())?;
    push_words(params, &[op.result_type()])
}
