// Value types, function types, limits and the types of globals (5.3).

ghost use Rattle.std.specs.Prelude.{◌≡◌, ◌++◌, ◌<◌, ◌≤◌, ◌^◌, OnOk, length};
ghost use Rattle.module_ast.specs.Binary.{FitsBlockType, FitsRange, FitsItem, val_type_byte, val_type_bytes, block_type_bytes, func_type_bytes, limits_bytes, table_bytes, global_type_bytes, item_bytes};

use crate::numbers::index_length;
use crate::vectors::{Encode, put_vec, vec_length};
use leb_binary::{put_s33, put_u32, signed_length};
use module_ast::code::BlockType;
use module_ast::module::{FuncType, GlobalType, Item, Range};
use std::alloc::AllocError;
use wasm_num::ValType;

/// The byte of a value type (5.3.1).
pub fn val_type_byte(ty: ValType) -> u8
    ensures { result ≡ val_type_byte ty }
{
    match ty {
        ValType::I32 => 0x7F,
        ValType::I64 => 0x7E,
    }
}

/// The number of bytes of a block type: 1 to 5.
#[tactic(auto, using(crate::proofs::BlockTypes::index_five))]
pub fn block_type_length(ty: BlockType) -> u64
    ensures length { result ≡ length (block_type_bytes ty) }
    ensures bound { result ≤ 5 }
    ensures fit { FitsBlockType ty }
{
    match ty {
        BlockType::Empty | BlockType::Value(_) => 1,
        BlockType::Indexed(index) => signed_length(i64::from(index)),
    }
}

/// Appends a block type (5.4.1). An index is a signed number of 33 bits.
pub fn put_block_type(out: &mut Vec<u8>, ty: BlockType) -> Result<(), AllocError>
    ensures { OnOk result (out.new.items ≡ out.old.items ++ block_type_bytes ty) }
{
    match ty {
        BlockType::Empty => {
            out.push(0x40)?;
            Ok(())
        }
        BlockType::Value(ty) => ty.put(out),
        BlockType::Indexed(index) => put_s33(out, i64::from(index)),
    }
}

impl Encode for ValType {
    ghost bytes = { val_type_bytes };

    ghost fits = { λ _. Unit {0} };

    fn spelled_length(&self) -> u64 {
        1
    }

    fn put(&self, out: &mut Vec<u8>) -> Result<(), AllocError> {
        out.push(val_type_byte(*self))?;
        Ok(())
    }
}

// 5.3.3
impl Encode for FuncType {
    ghost bytes = { func_type_bytes };

    ghost fits = { λ _. Unit {0} };

    fn spelled_length(&self) -> u64 {
        1 + vec_length(self.params.as_slice()) + vec_length(self.results.as_slice())
    }

    fn put(&self, out: &mut Vec<u8>) -> Result<(), AllocError> {
        out.push(0x60)?;
        put_vec(out, self.params.as_slice())?;
        put_vec(out, self.results.as_slice())
    }
}

// 5.3.4. A memory type is nothing but limits (5.3.5).
impl Encode for Range {
    ghost bytes = { limits_bytes };

    ghost fits = { FitsRange };

    fn spelled_length(&self) -> u64 {
        let least = 1 + index_length(self.min);
        match self.max {
            None => least,
            Some(max) => least + index_length(max),
        }
    }

    fn put(&self, out: &mut Vec<u8>) -> Result<(), AllocError> {
        match self.max {
            None => {
                out.push(0x00)?;
                put_u32(out, self.min)
            }
            Some(max) => {
                out.push(0x01)?;
                put_u32(out, self.min)?;
                put_u32(out, max)
            }
        }
    }
}

/// The number of bytes of a table type.
pub fn table_length(range: &Range) -> u64
    requires { length (table_bytes range.now) < 2 ^ 63 }
    ensures length { result ≡ length (table_bytes range.now) }
    ensures fit { FitsRange range.now }
{
    1 + range.spelled_length()
}

/// Appends a table type (5.3.6).
pub fn put_table(out: &mut Vec<u8>, range: &Range) -> Result<(), AllocError>
    ensures { OnOk result (out.new.items ≡ out.old.items ++ table_bytes range.now) }
{
    out.push(0x70)?;
    range.put(out)
}

// 5.3.7
impl Encode for GlobalType {
    ghost bytes = { global_type_bytes };

    ghost fits = { λ _. Unit {0} };

    fn spelled_length(&self) -> u64 {
        2
    }

    fn put(&self, out: &mut Vec<u8>) -> Result<(), AllocError> {
        out.push(val_type_byte(self.ty))?;
        out.push(if self.mutable { 0x01 } else { 0x00 })?;
        Ok(())
    }
}

// 5.5.5, the description of an import
impl Encode for Item {
    ghost bytes = { item_bytes };

    ghost fits = { FitsItem };

    fn spelled_length(&self) -> u64 {
        match self {
            Item::Func(ty) => 1 + index_length(*ty),
            Item::Table(range) => 1 + table_length(range),
            Item::Memory(range) => 1 + range.spelled_length(),
            Item::Global(ty) => 1 + ty.spelled_length(),
        }
    }

    fn put(&self, out: &mut Vec<u8>) -> Result<(), AllocError> {
        match self {
            Item::Func(ty) => {
                out.push(0x00)?;
                put_u32(out, *ty)
            }
            Item::Table(range) => {
                out.push(0x01)?;
                put_table(out, range)
            }
            Item::Memory(range) => {
                out.push(0x02)?;
                range.put(out)
            }
            Item::Global(ty) => {
                out.push(0x03)?;
                ty.put(out)
            }
        }
    }
}
