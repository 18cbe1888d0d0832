// The module that is made from a number.

ghost use Rattle.std.specs.Prelude.{◌≡◌, ◌≤◌, ◌<◌, ◌+◌, ℕ, true, IfOk, [], ◌∷◌, ◌++◌, codes, map, string_bytes};
ghost use Rattle.module_ast.specs.Validation.{IsWhole, narrow, IsValid};
ghost use Rattle.module_ast.specs.Binary.{IsWithin};
ghost use Rattle.module_gen.specs.Made.{counter, env_text, exports, func_types, functions, made, main_body, main_text, memory_text, module_with, note_import, note_text, slots, type_indices, zero_code};

use crate::bodies::{bodies, param_type, type_index};
use crate::draws::Draws;
use module_ast::code::{Code, Instr};
use module_ast::module::{
    Body, Element, Export, ExportKind, FuncType, GlobalDef, GlobalType, Import, Item, Module, Range,
};
use module_ast::name::Name;
use module_ast::seq::Seq;
use std::alloc::{AllocError, Global};
use wasm_num::ValType;

/// The module that the number makes, of 17 to 1,025 functions. It is valid, and within the limits of a module that gets
/// hooks. Takes time linear in the size of the module, which is at most 16,777,216 bytes. An `AllocError` if memory
/// runs out.
pub fn make(alloc: Global, number: u64) -> Result<Module, AllocError>
    ensures made { IfOk result (λ m. m ≡ made number) }
    ensures valid { IfOk result IsValid }
    ensures narrow { IfOk result (IsWithin narrow) }
    ensures whole { IfOk result IsWhole }
{
    let mut draws = Draws { state: number };
    let count = 16 + draws.draw(1009);
    let bodies = bodies(alloc, count, &mut draws)?;
    module_with(alloc, count, bodies)
}

// The module of `count` functions with these bodies, and the last function.
fn module_with(alloc: Global, count: u32, mut bodies: Vec<Body>) -> Result<Module, AllocError>
    requires { (1 ≤ count) × (count < 50000) }
    ensures { IfOk result (λ m. m ≡ module_with count bodies.items) }
{
    bodies.push(main_body(alloc, count)?)?;
    with_bodies(alloc, count, bodies)
}

// The module of `count` functions and the last one, with exactly these bodies.
fn with_bodies(alloc: Global, count: u32, bodies: Vec<Body>) -> Result<Module, AllocError>
    requires { count < 50000 }
    ensures { IfOk result (λ m. m ≡ record (module_with count []) { bodies = bodies.items }) }
{
    let types = func_types(alloc)?;
    let imports = imports(alloc)?;
    let funcs = type_indices(alloc, count)?;
    let tables = tables(alloc, count)?;
    let memories = memories(alloc)?;
    let globals = globals(alloc)?;
    let exports = exports(alloc, count)?;
    let elements = elements(alloc, count)?;
    Ok(Module {
        types: Seq::from_vec(types),
        imports: Seq::from_vec(imports),
        funcs: Seq::from_vec(funcs),
        tables: Seq::from_vec(tables),
        memories: Seq::from_vec(memories),
        globals: Seq::from_vec(globals),
        exports: Seq::from_vec(exports),
        start: None,
        elements: Seq::from_vec(elements),
        bodies: Seq::from_vec(bodies),
        segments: Seq::from_vec(Vec::new(alloc)),
        customs: Seq::from_vec(Vec::new(alloc)),
    })
}

// A table that is full.
fn tables(alloc: Global, count: u32) -> Result<Vec<Range>, AllocError>
    ensures { IfOk result (λ tables. tables.items ≡ (module_with count []).tables) }
{
    let whole = Range {
        min: count,
        max: Some(count),
    };
    Ok(Vec::from_array(alloc, [whole])?)
}

// A memory of one page, which may grow to four pages.
fn memories(alloc: Global) -> Result<Vec<Range>, AllocError>
    ensures { IfOk result (λ memories. memories.items ≡ (module_with 0 []).memories) }
{
    let pages = Range {
        min: 1,
        max: Some(4),
    };
    Ok(Vec::from_array(alloc, [pages])?)
}

// The type of a function with one parameter.
fn func_type(alloc: Global, param: ValType, results: Vec<ValType>) -> Result<FuncType, AllocError>
    ensures { IfOk result (λ ty. ty ≡ record { params = param ∷ []; results = results.items }) }
{
    Ok(FuncType {
        params: Seq::from_vec(Vec::from_array(alloc, [param])?),
        results: Seq::from_vec(results),
    })
}

// The type of a function with a parameter and a result of this type.
fn same_type(alloc: Global, ty: ValType) -> Result<FuncType, AllocError>
    ensures { IfOk result (λ func. func ≡ record { params = ty ∷ []; results = ty ∷ [] }) }
{
    let results = Vec::from_array(alloc, [ty])?;
    func_type(alloc, ty, results)
}

fn func_types(alloc: Global) -> Result<Vec<FuncType>, AllocError>
    ensures { IfOk result (λ types. types.items ≡ func_types) }
{
    let note = func_type(alloc, ValType::I32, Vec::new(alloc))?;
    let narrow = same_type(alloc, ValType::I32)?;
    let wide = same_type(alloc, ValType::I64)?;
    Ok(Vec::from_array(alloc, [note, narrow, wide])?)
}

fn name(alloc: Global, text: &str) -> Result<Name, AllocError>
    ensures { IfOk result (λ name. name.bytes ≡ text.now) }
{
    Ok(Name::from_string(String::from_str(alloc, text)?))
}

// The import, a function that takes a number.
fn imports(alloc: Global) -> Result<Vec<Import>, AllocError>
    ensures { IfOk result (λ all. all.items ≡ note_import ∷ []) }
{
    Ok(Vec::from_array(alloc, [note(alloc)?])?)
}

fn note(alloc: Global) -> Result<Import, AllocError>
    ensures { IfOk result (λ import. import ≡ note_import) }
{
    Ok(Import {
        module: name(alloc, "env")?,
        name: name(alloc, "note")?,
        item: Item::Func(0),
    })
}

// The type indices of the functions, and of the last one.
fn type_indices(alloc: Global, count: u32) -> Result<Vec<u32>, AllocError>
    requires { count < 50000 }
    ensures { IfOk result (λ types. types.items ≡ type_indices count) }
{
    let mut types = Vec::new(alloc);
    for before in 0..count {
        types.push(type_index(param_type(before + 1)))?;
    }
    types.push(1)?;
    Ok(types)
}

fn zero_code(alloc: Global) -> Result<Code, AllocError>
    ensures { IfOk result (λ code. code ≡ zero_code) }
{
    Code::from_vec(alloc, Vec::from_array(alloc, [Instr::I32Const(0)])?)
}

// A mutable global that begins as 0.
fn globals(alloc: Global) -> Result<Vec<GlobalDef>, AllocError>
    ensures { IfOk result (λ all. all.items ≡ counter ∷ []) }
{
    let counter = GlobalDef {
        ty: GlobalType {
            ty: ValType::I32,
            mutable: true,
        },
        init: zero_code(alloc)?,
    };
    Ok(Vec::from_array(alloc, [counter])?)
}

// The exports: the last function, and the memory.
fn exports(alloc: Global, count: u32) -> Result<Vec<Export>, AllocError>
    requires { count < 50000 }
    ensures { IfOk result (λ all. all.items ≡ exports count) }
{
    let main = Export {
        name: name(alloc, "main")?,
        kind: ExportKind::Func,
        index: count + 1,
    };
    let memory = Export {
        name: name(alloc, "memory")?,
        kind: ExportKind::Memory,
        index: 0,
    };
    Ok(Vec::from_array(alloc, [main, memory])?)
}

// The element segments: one for the whole table.
fn elements(alloc: Global, count: u32) -> Result<Vec<Element>, AllocError>
    requires { count < 50000 }
    ensures { IfOk result (λ all. all.items ≡ slots count ∷ []) }
{
    Ok(Vec::from_array(alloc, [slots(alloc, count)?])?)
}

// The element segment that fills the table with the functions 1 to `count`.
fn slots(alloc: Global, count: u32) -> Result<Element, AllocError>
    requires { count < 50000 }
    ensures { IfOk result (λ element. element ≡ slots count) }
{
    let mut funcs = Vec::new(alloc);
    for before in 0..count {
        funcs.push(before + 1)?;
    }
    Ok(Element {
        table: 0,
        offset: zero_code(alloc)?,
        funcs: Seq::from_vec(funcs),
    })
}

// The body of the last function, which calls the last function of its own type.
fn main_body(alloc: Global, count: u32) -> Result<Body, AllocError>
    requires { (1 ≤ count) × (count < 50000) }
    ensures { IfOk result (λ body. body ≡ main_body count) }
{
    let last = count - 1 + count % 2;
    let code = Vec::from_array(alloc, [Instr::LocalGet(0), Instr::Call(last)])?;
    Ok(Body {
        groups: Seq::from_vec(Vec::new(alloc)),
        code: Code::from_vec(alloc, code)?,
    })
}
