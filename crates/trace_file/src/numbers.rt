// Reads bytes and numbers in LEB128. A number is taken only in its shortest spelling. (Standard, 5.2.2)

ghost use Rattle.std.specs.Prelude.{◌<◌, [], ◌∷◌};
ghost use Rattle.leb_binary.specs.Leb.{IsInSize};
ghost use Rattle.leb_binary.specs.Shortest.{unsigned_bytes, signed_bytes};
ghost use Rattle.trace_file.specs.Fields.{FitsNumber};

use crate::field::{ReadTraceFault, Take};
use leb_binary::{Cursor, signed_length, unsigned_length};
use std::alloc::Global;

impl Take for u8 {
    ghost spelling = { λ b. b ∷ [] };

    ghost fits = { λ b. b < 256 };

    fn take(_alloc: Global, cursor: &mut Cursor<'_>) -> Result<u8, ReadTraceFault> {
        match cursor.byte() {
            Ok(byte) => Ok(byte),
            Err(_) => Err(ReadTraceFault::NotTrace),
        }
    }
}

impl Take for u32 {
    ghost spelling = { unsigned_bytes };

    ghost fits = { FitsNumber };

    fn take(_alloc: Global, cursor: &mut Cursor<'_>) -> Result<u32, ReadTraceFault> {
        let left = cursor.left();
        let Ok(number) = cursor.read_u32() else {
            return Err(ReadTraceFault::NotTrace);
        };
        if (left - cursor.left()) as u64 != unsigned_length(u64::from(number)) {
            return Err(ReadTraceFault::NotTrace);
        }
        Ok(number)
    }
}

impl Take for i32 {
    ghost spelling = { signed_bytes };

    ghost fits = { IsInSize 32 };

    fn take(_alloc: Global, cursor: &mut Cursor<'_>) -> Result<i32, ReadTraceFault> {
        let left = cursor.left();
        let Ok(number) = cursor.read_s32() else {
            return Err(ReadTraceFault::NotTrace);
        };
        if (left - cursor.left()) as u64 != signed_length(i64::from(number)) {
            return Err(ReadTraceFault::NotTrace);
        }
        Ok(number)
    }
}

impl Take for i64 {
    ghost spelling = { signed_bytes };

    ghost fits = { IsInSize 64 };

    fn take(_alloc: Global, cursor: &mut Cursor<'_>) -> Result<i64, ReadTraceFault> {
        let left = cursor.left();
        let Ok(number) = cursor.read_s64() else {
            return Err(ReadTraceFault::NotTrace);
        };
        if (left - cursor.left()) as u64 != signed_length(number) {
            return Err(ReadTraceFault::NotTrace);
        }
        Ok(number)
    }
}
