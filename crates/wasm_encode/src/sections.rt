// The entries of the sections (5.5), and the start section.

ghost use Rattle.std.specs.Prelude.{◌≡◌, ◌++◌, ◌<◌, ◌^◌, OnOk, length};
ghost use Rattle.module_ast.specs.Binary.{FitsCode, FitsOption, FitsImport, FitsGlobal, FitsExport, FitsElement, FitsSegment, sized_bytes, import_bytes, global_bytes, kind_byte, export_bytes, element_bytes, group_bytes, body_bytes, segment_bytes, start_bytes};

use crate::code::put_expr;
use crate::code_length::expr_length;
use crate::numbers::{index_length, put_sized, sized_length};
use crate::types::val_type_byte;
use crate::vectors::{Encode, put_vec, vec_length};
use leb_binary::{put_u32, put_u64, unsigned_length};
use module_ast::module::{Body, Element, Export, ExportKind, GlobalDef, Group, Import, Segment};
use module_ast::name::Name;
use std::alloc::AllocError;

// The number of bytes of a name with its size.
fn name_length(name: &Name) -> u64
    requires { length (sized_bytes name.now.bytes) < 2 ^ 63 }
    ensures { result ≡ length (sized_bytes name.now.bytes) }
{
    sized_length(name.as_str().as_bytes())
}

// Appends a name (5.2.4).
fn put_name(out: &mut Vec<u8>, name: &Name) -> Result<(), AllocError>
    ensures { OnOk result (out.new.items ≡ out.old.items ++ sized_bytes name.now.bytes) }
{
    put_sized(out, name.as_str().as_bytes())
}

// 5.5.5
impl Encode for Import {
    ghost bytes = { import_bytes };

    ghost fits = { FitsImport };

    fn spelled_length(&self) -> u64 {
        name_length(&self.module) + name_length(&self.name) + self.item.spelled_length()
    }

    fn put(&self, out: &mut Vec<u8>) -> Result<(), AllocError> {
        put_name(out, &self.module)?;
        put_name(out, &self.name)?;
        self.item.put(out)
    }
}

// 5.5.9
impl Encode for GlobalDef {
    ghost bytes = { global_bytes };

    ghost fits = { FitsGlobal };

    fn spelled_length(&self) -> u64 {
        self.ty.spelled_length() + expr_length(&self.init)
    }

    fn put(&self, out: &mut Vec<u8>) -> Result<(), AllocError> {
        self.ty.put(out)?;
        put_expr(out, &self.init)
    }
}

fn kind_byte(kind: ExportKind) -> u8
    ensures { result ≡ kind_byte kind }
{
    match kind {
        ExportKind::Func => 0x00,
        ExportKind::Table => 0x01,
        ExportKind::Memory => 0x02,
        ExportKind::Global => 0x03,
    }
}

// 5.5.10
impl Encode for Export {
    ghost bytes = { export_bytes };

    ghost fits = { FitsExport };

    fn spelled_length(&self) -> u64 {
        name_length(&self.name) + 1 + index_length(self.index)
    }

    fn put(&self, out: &mut Vec<u8>) -> Result<(), AllocError> {
        put_name(out, &self.name)?;
        out.push(kind_byte(self.kind))?;
        put_u32(out, self.index)
    }
}

// 5.5.12
impl Encode for Element {
    ghost bytes = { element_bytes };

    ghost fits = { FitsElement };

    fn spelled_length(&self) -> u64 {
        index_length(self.table) + expr_length(&self.offset) + vec_length(self.funcs.as_slice())
    }

    fn put(&self, out: &mut Vec<u8>) -> Result<(), AllocError> {
        put_u32(out, self.table)?;
        put_expr(out, &self.offset)?;
        put_vec(out, self.funcs.as_slice())
    }
}

// 5.5.14
impl Encode for Segment {
    ghost bytes = { segment_bytes };

    ghost fits = { FitsSegment };

    fn spelled_length(&self) -> u64 {
        index_length(self.memory) + expr_length(&self.offset) + sized_length(self.bytes.as_slice())
    }

    fn put(&self, out: &mut Vec<u8>) -> Result<(), AllocError> {
        put_u32(out, self.memory)?;
        put_expr(out, &self.offset)?;
        put_sized(out, self.bytes.as_slice())
    }
}

// 5.5.13, the locals of a body
impl Encode for Group {
    ghost bytes = { group_bytes };

    ghost fits = { λ _. Unit {0} };

    fn spelled_length(&self) -> u64 {
        index_length(self.count) + 1
    }

    fn put(&self, out: &mut Vec<u8>) -> Result<(), AllocError> {
        put_u32(out, self.count)?;
        out.push(val_type_byte(self.ty))?;
        Ok(())
    }
}

// 5.5.13, a body without its size
impl Encode for Body {
    ghost bytes = { body_bytes };

    ghost fits = { λ b. FitsCode b.code };

    fn spelled_length(&self) -> u64 {
        vec_length(self.groups.as_slice()) + expr_length(&self.code)
    }

    fn put(&self, out: &mut Vec<u8>) -> Result<(), AllocError> {
        put_vec(out, self.groups.as_slice())?;
        put_expr(out, &self.code)
    }
}

/// The number of bytes of the start section; 0 if there is no start function.
pub fn start_length(start: Option<u32>) -> u64
    ensures length { result ≡ length (start_bytes start) }
    ensures fit { FitsOption start }
{
    let Some(func) = start else {
        return 0;
    };
    let size = index_length(func);
    1 + unsigned_length(size) + size
}

/// Appends the start section (5.5.11); nothing if there is no start function.
pub fn put_start(out: &mut Vec<u8>, start: Option<u32>) -> Result<(), AllocError>
    ensures { OnOk result (out.new.items ≡ out.old.items ++ start_bytes start) }
{
    let Some(func) = start else {
        return Ok(());
    };
    out.push(8)?;
    put_u64(out, index_length(func))?;
    put_u32(out, func)
}
