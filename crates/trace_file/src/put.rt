// Appends fields to bytes.

ghost use Rattle.std.specs.Prelude.{◌≡◌, ◌≤◌, ◌^◌, ◌+◌, ℕ, List, length, [], ◌∷◌, ◌++◌, OnOk, OnErr, IfErr};
ghost use Rattle.leb_binary.specs.Shortest.{unsigned_bytes, signed_bytes};
ghost use Rattle.wasm_num.specs.Opcodes.{num_opcode};
ghost use Rattle.module_ast.specs.Binary.{load_opcode, store_opcode};
ghost use Rattle.wasm_num.specs.Kinds.{kind_number};
ghost use Rattle.trace_file.specs.declared.put.TraceFault.TheVariants.{NoMemory};
ghost use Rattle.trace_file.specs.Fields.{FitsNumber, FitsSigned, FitsLocation, FitsValue, FitsCallee, FitValues, place_bytes, value_bytes, var_number, callee_bytes, values_bytes};

use crate::codes::var_number;
use leb_binary::{put_s32, put_s64, put_u32};
use module_ast::module::Loc;
use module_ast::ops::{LoadOp, StoreOp, VarOp};
use std::alloc::AllocError;
use wasm_num::{BlockKind, NumOp, Value, Values};

/// Why no trace file is written.
#[derive(Clone, Copy, Debug, PartialEq, Eq)]
pub enum TraceFault {
    /// The file is longer than it may be.
    TooLarge,
    /// Memory ran out.
    NoMemory,
}

impl From<AllocError> for TraceFault {
    ghost from_gives = { λ _ fault. fault ≡ NoMemory };

    fn from(_error: AllocError) -> TraceFault {
        TraceFault::NoMemory
    }
}

// Appends a byte.
pub(crate) fn put_byte(out: &mut Vec<u8>, byte: u8) -> Result<(), AllocError>
    ensures added { OnOk result (out.new.items ≡ out.old.items ++ byte ∷ []) }
    ensures kept { OnErr result (out.new.items ≡ out.old.items) }
{
    out.push(byte)?;
    Ok(())
}

// A field, or several fields one after another.
pub(crate) trait Put: Sized + Drop {
    ghost spelling: { Self → List ℕ };

    ghost fits: { Self → Type 0 };

    // Appends its bytes. `TooLarge` only if a list is so long that there are 2^32 bytes or more.
    fn put(self, out: &mut Vec<u8>) -> Result<(), TraceFault>
        ensures added { OnOk result (out.new.items ≡ out.old.items ++ spelling self) }
        ensures fits { OnOk result (fits self) }
        ensures large { IfErr result (λ fault. fault ≡ TraceFault.TooLarge → 2 ^ 32 ≤ length (spelling self)) };
}

impl Put for () {
    ghost spelling = { λ _. [] };

    ghost fits = { λ _. Unit {0} };

    fn put(self, _out: &mut Vec<u8>) -> Result<(), TraceFault> {
        Ok(())
    }
}

impl<A: Put, B: Put> Put for (A, B) {
    ghost spelling = { λ p. A.spelling p.0 ++ B.spelling p.1 };

    ghost fits = { λ p. A.fits p.0 × B.fits p.1 };

    fn put(self, out: &mut Vec<u8>) -> Result<(), TraceFault> {
        let (first, second) = self;
        first.put(out)?;
        second.put(out)
    }
}

impl Put for &u32 {
    ghost spelling = { λ number. unsigned_bytes number.now };

    ghost fits = { λ number. FitsNumber number.now };

    fn put(self, out: &mut Vec<u8>) -> Result<(), TraceFault> {
        put_u32(out, *self)?;
        Ok(())
    }
}

impl Put for &i32 {
    ghost spelling = { λ number. signed_bytes number.now };

    ghost fits = { λ number. FitsSigned number.now };

    fn put(self, out: &mut Vec<u8>) -> Result<(), TraceFault> {
        put_s32(out, *self)?;
        Ok(())
    }
}

impl Put for &Loc {
    ghost spelling = { λ loc. place_bytes loc.now };

    ghost fits = { λ loc. FitsLocation loc.now };

    fn put(self, out: &mut Vec<u8>) -> Result<(), TraceFault> {
        put_u32(out, self.func)?;
        put_s32(out, self.instr)?;
        Ok(())
    }
}

// Appends a value.
fn put_value(out: &mut Vec<u8>, value: Value) -> Result<(), AllocError>
    ensures added { OnOk result (out.new.items ≡ out.old.items ++ value_bytes value) }
    ensures fits { OnOk result (FitsValue value) }
{
    match value {
        Value::I32(bits) => {
            put_byte(out, 0x7F)?;
            put_s32(out, bits.cast_signed())
        }
        Value::I64(bits) => {
            put_byte(out, 0x7E)?;
            put_s64(out, bits.cast_signed())
        }
    }
}

impl Put for &Value {
    ghost spelling = { λ value. value_bytes value.now };

    ghost fits = { λ value. FitsValue value.now };

    fn put(self, out: &mut Vec<u8>) -> Result<(), TraceFault> {
        put_value(out, *self)?;
        Ok(())
    }
}

impl Put for &BlockKind {
    ghost spelling = { λ kind. kind_number kind.now ∷ [] };

    ghost fits = { λ _. Unit {0} };

    fn put(self, out: &mut Vec<u8>) -> Result<(), TraceFault> {
        put_byte(out, self.number())?;
        Ok(())
    }
}

impl Put for &VarOp {
    ghost spelling = { λ op. var_number op.now ∷ [] };

    ghost fits = { λ _. Unit {0} };

    fn put(self, out: &mut Vec<u8>) -> Result<(), TraceFault> {
        put_byte(out, var_number(*self))?;
        Ok(())
    }
}

impl Put for &NumOp {
    ghost spelling = { λ op. num_opcode op.now ∷ [] };

    ghost fits = { λ _. Unit {0} };

    fn put(self, out: &mut Vec<u8>) -> Result<(), TraceFault> {
        put_byte(out, self.opcode())?;
        Ok(())
    }
}

impl Put for &LoadOp {
    ghost spelling = { λ op. load_opcode op.now ∷ [] };

    ghost fits = { λ _. Unit {0} };

    fn put(self, out: &mut Vec<u8>) -> Result<(), TraceFault> {
        put_byte(out, self.opcode())?;
        Ok(())
    }
}

impl Put for &StoreOp {
    ghost spelling = { λ op. store_opcode op.now ∷ [] };

    ghost fits = { λ _. Unit {0} };

    fn put(self, out: &mut Vec<u8>) -> Result<(), TraceFault> {
        put_byte(out, self.opcode())?;
        Ok(())
    }
}

impl Put for &Option<u32> {
    ghost spelling = { λ callee. callee_bytes callee.now };

    ghost fits = { λ callee. FitsCallee callee.now };

    fn put(self, out: &mut Vec<u8>) -> Result<(), TraceFault> {
        match *self {
            None => put_byte(out, 0x00)?,
            Some(callee) => {
                put_byte(out, 0x01)?;
                put_u32(out, callee)?;
            }
        }
        Ok(())
    }
}

impl Put for &Values {
    ghost spelling = { λ values. values_bytes values.now };

    ghost fits = { λ values. FitValues values.now };

    fn put(self, out: &mut Vec<u8>) -> Result<(), TraceFault> {
        let Ok(count) = u32::try_from(self.len()) else {
            return Err(TraceFault::TooLarge);
        };
        put_u32(out, count)?;
        for i in 0..self.len() {
            if let Some(value) = self.get(i) {
                put_value(out, value)?;
            }
        }
        Ok(())
    }
}
