// Reads locations, values, lists of values, and callees.

ghost use Rattle.trace_file.specs.Fields.{FitsLocation, FitsValue, FitsCallee, FitValues, place_bytes, value_bytes, callee_bytes, values_bytes};

use crate::field::{ReadTraceFault, Take};
use leb_binary::Cursor;
use module_ast::module::Loc;
use std::alloc::Global;
use wasm_num::{Value, Values};

impl Take for Loc {
    ghost spelling = { place_bytes };

    ghost fits = { FitsLocation };

    fn take(alloc: Global, cursor: &mut Cursor<'_>) -> Result<Loc, ReadTraceFault> {
        match <(u32, i32)>::take(alloc, cursor) {
            Ok((func, instr)) => Ok(Loc { func, instr }),
            Err(fault) => Err(fault),
        }
    }
}

impl Take for Value {
    ghost spelling = { value_bytes };

    ghost fits = { FitsValue };

    fn take(alloc: Global, cursor: &mut Cursor<'_>) -> Result<Value, ReadTraceFault> {
        let ty = u8::take(alloc, cursor)?;
        match ty {
            0x7F => {
                let bits = i32::take(alloc, cursor)?;
                Ok(Value::I32(bits.cast_unsigned()))
            }
            0x7E => {
                let bits = i64::take(alloc, cursor)?;
                Ok(Value::I64(bits.cast_unsigned()))
            }
            _ => Err(ReadTraceFault::NotTrace),
        }
    }
}

impl Take for Option<u32> {
    ghost spelling = { callee_bytes };

    ghost fits = { FitsCallee };

    fn take(alloc: Global, cursor: &mut Cursor<'_>) -> Result<Option<u32>, ReadTraceFault> {
        let is_there = u8::take(alloc, cursor)?;
        match is_there {
            0x00 => Ok(None),
            0x01 => {
                let callee = u32::take(alloc, cursor)?;
                Ok(Some(callee))
            }
            _ => Err(ReadTraceFault::NotTrace),
        }
    }
}

impl Take for Values {
    ghost spelling = { values_bytes };

    ghost fits = { FitValues };

    fn take(alloc: Global, cursor: &mut Cursor<'_>) -> Result<Values, ReadTraceFault> {
        let count = u32::take(alloc, cursor)?;
        let mut values = Values::new(alloc);
        for _ in 0..count {
            let value = Value::take(alloc, cursor)?;
            values.push(value)?;
        }
        Ok(values)
    }
}
