// Modules whose parts are lent, and whose bodies come one at a time.

ghost use Rattle.std.specs.Prelude.{◌≡◌, ◌++◌, ◌+◌, ◌<◌, ◌^◌, IfOk, MatchResult, OnOk, length};
ghost use Rattle.leb_binary.specs.Shortest.{unsigned_bytes};
ghost use Rattle.module_ast.specs.Binary.{body_bytes, vec_section, func_type_bytes, import_bytes, table_bytes, limits_bytes, global_bytes, export_bytes, start_bytes, element_bytes};
ghost use Rattle.wasm_encode.specs.Outline.{front_bytes, back_bytes, entry_bytes, code_head};

use crate::sections::put_start;
use crate::tables::put_table_section;
use crate::vectors::{Encode, put_run, put_runs, put_section, section_length};
use leb_binary::{put_u64, unsigned_length};
use module_ast::module::{Body, Element, Export, FuncType, GlobalDef, Import, Range, Segment};
use std::alloc::{AllocError, Global};
use std::marker::Model;

/// All of a module but its bodies, lent from where it stands: so that a module that differs from another in few parts is
/// spelled without a copy of the others. Of types and of imports there are two runs, one behind the other. Contracts see
/// a module without bodies and custom sections.
#[derive(Drop)]
pub struct Outline<'m> {
    pub types: &'m [FuncType],
    pub more_types: &'m [FuncType],
    pub imports: &'m [Import],
    pub more_imports: &'m [Import],
    pub funcs: &'m [u32],
    pub tables: &'m [Range],
    pub memories: &'m [Range],
    pub globals: &'m [GlobalDef],
    pub exports: &'m [Export],
    pub start: Option<u32>,
    pub elements: &'m [Element],
    pub segments: &'m [Segment],
}

impl<'m> Model for Outline<'m> {
    ghost use Rattle.std.specs.Prelude.{◌++◌, []};
    ghost use Rattle.module_ast.specs.declared.module.Module.{Module as shown};
    ghost use Rattle.module_ast.specs.contracts.module.Module as of_module;
    ghost use Rattle.std.specs.Coded.{codes};

    ghost Value = { shown };

    ghost coded = { Prim.hlevel (codes, of_module.the_row.coded) };

    ghost view = { λ a.
        record {
          types = a.types.now ++ a.more_types.now;
          imports = a.imports.now ++ a.more_imports.now;
          funcs = a.funcs.now;
          tables = a.tables.now;
          memories = a.memories.now;
          globals = a.globals.now;
          exports = a.exports.now;
          start = a.start;
          elements = a.elements.now;
          bodies = [];
          segments = a.segments.now;
          customs = [];
        } };
}

impl Outline<'_> {
    // Adds what says which functions there are.
    fn put_functions(&self, alloc: Global, out: &mut Vec<u8>) -> Result<(), AllocError>
        requires types { length self.now.types < 2 ^ 64 }
        requires imports { length self.now.imports < 2 ^ 64 }
        ensures { OnOk result (out.new.items ≡ out.old.items ++ (vec_section 1 func_type_bytes self.now.types ++ vec_section 2 import_bytes self.now.imports ++ vec_section 3 unsigned_bytes self.now.funcs)) }
    {
        put_runs(alloc, out, 1, self.types, self.more_types)?;
        put_runs(alloc, out, 2, self.imports, self.more_imports)?;
        put_run(alloc, out, 3, self.funcs)?;
        Ok(())
    }

    // Adds what says which tables, memories and globals there are.
    fn put_stores(&self, alloc: Global, out: &mut Vec<u8>) -> Result<(), AllocError>
        ensures { OnOk result (out.new.items ≡ out.old.items ++ (vec_section 4 table_bytes self.now.tables ++ vec_section 5 limits_bytes self.now.memories ++ vec_section 6 global_bytes self.now.globals)) }
    {
        put_table_section(alloc, out, self.tables)?;
        put_run(alloc, out, 5, self.memories)?;
        put_run(alloc, out, 6, self.globals)?;
        Ok(())
    }

    // Adds what says how functions are reached from outside and through tables.
    fn put_uses(&self, alloc: Global, out: &mut Vec<u8>) -> Result<(), AllocError>
        ensures { OnOk result (out.new.items ≡ out.old.items ++ (vec_section 7 export_bytes self.now.exports ++ start_bytes self.now.start ++ vec_section 9 element_bytes self.now.elements)) }
    {
        put_run(alloc, out, 7, self.exports)?;
        put_start(out, self.start)?;
        put_run(alloc, out, 9, self.elements)?;
        Ok(())
    }

    // The header and the sections before that of code.
    fn front(&self, alloc: Global) -> Result<Vec<u8>, AllocError>
        requires types { length self.now.types < 2 ^ 64 }
        requires imports { length self.now.imports < 2 ^ 64 }
        ensures { IfOk result (λ front. front.items ≡ front_bytes self.now) }
    {
        let mut front = Vec::new(alloc);
        front.extend_from_slice(&[0x00, 0x61, 0x73, 0x6D, 0x01, 0x00, 0x00, 0x00])?;
        self.put_functions(alloc, &mut front)?;
        self.put_stores(alloc, &mut front)?;
        self.put_uses(alloc, &mut front)?;
        Ok(front)
    }

    /// Adds the header and the sections before that of code (5.5.15). They are written apart first, so an `Err`, which comes if
    /// memory runs out, leaves `out` as it was.
    pub fn put_front(&self, alloc: Global, out: &mut Vec<u8>) -> Result<(), AllocError>
        requires types { length self.now.types < 2 ^ 64 }
        requires imports { length self.now.imports < 2 ^ 64 }
        ensures { MatchResult result (λ _. out.new.items ≡ out.old.items ++ front_bytes self.now) (λ _. out.new.items ≡ out.old.items) }
    {
        let front = self.front(alloc)?;
        out.extend_from_slice(&front)
    }

    /// How many bytes follow the section of code.
    pub fn back_length(&self) -> u64
        requires { length (back_bytes self.now) < 2 ^ 63 }
        ensures { result ≡ length (back_bytes self.now) }
    {
        section_length(11, self.segments)
    }

    /// Adds what follows the section of code. It is written apart first, so an `Err`, which comes if memory runs out, leaves
    /// `out` as it was.
    pub fn put_back(&self, out: &mut Vec<u8>) -> Result<(), AllocError>
        requires { length (back_bytes self.now) < 2 ^ 63 }
        ensures { MatchResult result (λ _. out.new.items ≡ out.old.items ++ back_bytes self.now) (λ _. out.new.items ≡ out.old.items) }
    {
        let mut back = Vec::new(*out.allocator());
        put_section(&mut back, 11, self.segments)?;
        out.extend_from_slice(&back)
    }
}

/// How many bytes the section of code has, its id and size included, if it has `count` entries of `size` bytes together
/// (5.5.13): none if there are no entries.
pub fn code_section_length(count: u64, size: u64) -> u64
    requires { size < 2 ^ 63 }
    ensures { result ≡ length (code_head count size) + size }
{
    if count == 0 {
        return size;
    }
    let content = unsigned_length(count) + size;
    1 + unsigned_length(content) + content
}

/// Adds what stands in the section of code before its `count` entries of `size` bytes together (5.5.13): nothing if there
/// are none. It is written apart first, so an `Err`, which comes if memory runs out, leaves `out` as it was.
pub fn put_code_head(out: &mut Vec<u8>, count: u64, size: u64) -> Result<(), AllocError>
    requires { size < 2 ^ 63 }
    ensures { MatchResult result (λ _. out.new.items ≡ out.old.items ++ code_head count size) (λ _. out.new.items ≡ out.old.items) }
{
    if count == 0 {
        return Ok(());
    }
    let mut head = Vec::new(*out.allocator());
    head.push(10)?;
    put_u64(&mut head, unsigned_length(count) + size)?;
    put_u64(&mut head, count)?;
    out.extend_from_slice(&head)
}

/// These bytes, and after them a body of `size` bytes with its size before it (5.5.13). Each byte of the body is written once.
/// `Err` if memory runs out; the bytes are dropped then.
pub fn with_entry(mut out: Vec<u8>, body: &Body, size: u64) -> Result<Vec<u8>, AllocError>
    requires { size ≡ length (body_bytes body.now) }
    ensures { IfOk result (λ all. all.items ≡ out.items ++ entry_bytes body.now) }
{
    put_u64(&mut out, size)?;
    body.put(&mut out)?;
    Ok(out)
}
