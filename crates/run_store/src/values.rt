// The values that numbers of a script stand for, and those of locals before they are set.

ghost use Rattle.std.specs.Prelude.{◌≡◌};
ghost use Rattle.wasm_sem.specs.Execution.{value_of, zero_of};

use wasm_num::{ValType, Value};

/// The value that a number of the script stands for: the number modulo 2 to the power of the type's width. (Standard,
/// 4.2.1)
pub fn value_of(ty: ValType, number: i128) -> Value
    ensures { result ≡ value_of ty number }
{
    match ty {
        ValType::I32 => Value::I32(number.rem_euclid(1 << 32).unsigned_abs() as u32),
        ValType::I64 => Value::I64(number.rem_euclid(1 << 64).unsigned_abs() as u64),
    }
}

/// The value that a local of this type has before it is set: 0. (Standard, 4.2.1)
pub fn zero(ty: ValType) -> Value
    ensures { result ≡ zero_of ty }
{
    match ty {
        ValType::I32 => Value::I32(0),
        ValType::I64 => Value::I64(0),
    }
}
