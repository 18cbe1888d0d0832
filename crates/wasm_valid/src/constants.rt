// The rules on initialisers of globals and on offsets of segments. Each function `keeps_..` decides one rule exactly.

ghost use Rattle.std.specs.Prelude.{◌≡◌, ◌↔◌, IsTrue, slice_get};
ghost use Rattle.module_ast.specs.Structure.{before, done, imported_globals, globals_of};
ghost use Rattle.module_ast.specs.Validation.{IsConstant, ReadsImported, HasInitType, IsOffset, Keeps, init_constant, init_global, init_type, element_offsets, segment_offsets};
ghost use Rattle.wasm_valid.specs.Constants.{constant_of};

use module_ast::code::{Code, Instr};
use module_ast::module::{GlobalDef, GlobalType, Module};
use wasm_num::ValType;

// What a constant expression gives: a number of a type, or the value of the global with this index.
#[derive(Clone, Copy)]
enum Constant {
    I32,
    I64,
    Global(u32),
}

// The constant that one instruction gives; `None` if it gives none.
fn constant_in(instr: &Instr) -> Option<Constant>
    ensures { result ≡ constant_of (before instr.now done) }
{
    match instr {
        Instr::I32Const(_) => Some(Constant::I32),
        Instr::I64Const(_) => Some(Constant::I64),
        Instr::GlobalGet(index) => Some(Constant::Global(*index)),
        _ => None,
    }
}

// The constant that an expression gives; `None` unless it is exactly one instruction that gives one.
fn constant_of(code: &Code) -> Option<Constant>
    ensures { result ≡ constant_of code.now }
{
    match code.as_slice() {
        [only] => constant_in(only),
        _ => None,
    }
}

// The type of a global; `None` if the index is past the last one.
fn global_at(globals: &[GlobalType], index: u32) -> Option<GlobalType>
    ensures { result ≡ slice_get globals.now index }
{
    globals.get(index as usize).copied()
}

fn is_constant(code: &Code) -> bool
    ensures { IsTrue result ↔ IsConstant code.now }
{
    constant_of(code).is_some()
}

fn reads_imported(imported: &[GlobalType], code: &Code) -> bool
    ensures { IsTrue result ↔ ReadsImported imported.now code.now }
{
    let Some(Constant::Global(index)) = constant_of(code) else {
        return true;
    };
    match global_at(imported, index) {
        Some(source) => !source.mutable,
        None => false,
    }
}

fn has_init_type(imported: &[GlobalType], global: &GlobalDef) -> bool
    ensures { IsTrue result ↔ HasInitType imported.now global.now }
{
    let ty = global.ty.ty;
    match constant_of(&global.init) {
        Some(Constant::I32) => ty == ValType::I32,
        Some(Constant::I64) => ty == ValType::I64,
        Some(Constant::Global(index)) => match global_at(imported, index) {
            Some(source) => source.ty == ty,
            None => false,
        },
        None => true,
    }
}

fn is_offset(globals: &[GlobalType], code: &Code) -> bool
    ensures { IsTrue result ↔ IsOffset globals.now code.now }
{
    match constant_of(code) {
        Some(Constant::I32) => true,
        Some(Constant::Global(index)) => match global_at(globals, index) {
            Some(source) => !source.mutable && source.ty == ValType::I32,
            None => false,
        },
        _ => false,
    }
}

/// Whether each initialiser of a global is exactly one constant or one `global.get`. (Standard, 3.3.7)
pub(crate) fn keeps_init_constant(m: &Module) -> bool
    ensures { IsTrue result ↔ Keeps m.now init_constant }
{
    m.globals.as_slice().iter().all(|g| is_constant(&g.init))
}

/// Whether each global that an initialiser reads is imported and not mutable. (Standard, 3.3.7)
pub(crate) fn keeps_init_global(m: &Module, imported: &[GlobalType]) -> bool
    requires { imported.now ≡ imported_globals m.now.imports }
    ensures { IsTrue result ↔ Keeps m.now init_global }
{
    let globals = m.globals.as_slice();
    globals.iter().all(|g| reads_imported(imported, &g.init))
}

/// Whether each initialiser has the type of its global. (Standard, 3.4.4)
pub(crate) fn keeps_init_type(m: &Module, imported: &[GlobalType]) -> bool
    requires { imported.now ≡ imported_globals m.now.imports }
    ensures { IsTrue result ↔ Keeps m.now init_type }
{
    let globals = m.globals.as_slice();
    globals.iter().all(|g| has_init_type(imported, g))
}

/// Whether the offset of each element segment is exactly one `i32.const`, or one `global.get` of an imported or defined global
/// that has type i32 and is not mutable. (Standard, 3.4.5)
pub(crate) fn keeps_element_offsets(m: &Module, globals: &[GlobalType]) -> bool
    requires { globals.now ≡ globals_of m.now }
    ensures { IsTrue result ↔ Keeps m.now element_offsets }
{
    let elements = m.elements.as_slice();
    elements.iter().all(|e| is_offset(globals, &e.offset))
}

/// Whether the offset of each data segment is of the same form as that of an element segment. (Standard, 3.4.6)
pub(crate) fn keeps_segment_offsets(m: &Module, globals: &[GlobalType]) -> bool
    requires { globals.now ≡ globals_of m.now }
    ensures { IsTrue result ↔ Keeps m.now segment_offsets }
{
    let segments = m.segments.as_slice();
    segments.iter().all(|d| is_offset(globals, &d.offset))
}
